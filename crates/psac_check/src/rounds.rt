// The rounds of the check: the headers, then main, then the bodies.
ghost use Rattle.std.specs.Prelude.{◌≡◌, ◌≤◌, [], ◌∷◌, ◌++◌, ◌||◌, map, not, Ok, Err, IfOk, IfErr, IfSome};
ghost use Rattle.psac_grammar.specs.Language.{IsParsed};
ghost use Rattle.psac_model.specs.Fresh.{main_of as main_func};
ghost use Rattle.psac_model.specs.Series.{Rebound, has, unless, first_wrong, params_wrong, headers, main_meets, func_meets, bodies, meets};
ghost use Rattle.psac_check.specs.Faults.{fault_of, told};
ghost use Rattle.psac_check.specs.Follows.{Gives};

use crate::accepted::Checked;
use crate::body::body;
use crate::fault::{Breach, CheckFault, at_line};
use crate::names::Scope;
use psac_model::main_of;
use psac_syntax::{Func, Program};
use std::alloc::Global;

fn is_among(name: u16, names: &[u16], more: &[u16]) -> bool
    ensures { result ≡ (has name names.now || has name more.now) }
{
    names.contains(&name) || more.contains(&name)
}

/// Names of which each is another one, also than those that follow them.
#[tactic(auto, using(crate::proofs::Headers::name_passes, crate::proofs::Headers::name_again, crate::proofs::Firsts::first_one))]
fn distinct(names: &[u16], more: &[u16]) -> Result<(), Breach>
    ensures { first_wrong (told result ∷ params_wrong more.now ∷ []) ≡ params_wrong (names.now ++ more.now) }
{
    for i in 0..names.len() {
        if is_among(names[i], &names[i + 1..], more) {
            return Err(Breach::Rebound);
        }
    }
    Ok(())
}

/// Parameters are distinct.
fn parameters(values: &[u16], dests: &[u16]) -> Result<(), Breach>
    ensures { told result ≡ params_wrong (values.now ++ dests.now) }
{
    distinct(values, dests)?;
    distinct(dests, &[])
}

fn is_named(earlier: &[Func], name: u16) -> bool
    ensures { result ≡ has name (map (λ f. f.name) earlier.now) }
{
    for func in earlier {
        if func.name == name {
            return true;
        }
    }
    false
}

/// A header, behind those of other functions.
fn header(earlier: &[Func], func: &Func) -> Result<(), Breach>
    ensures { told result ≡ first_wrong (unless (not (has func.now.name (map (λ f. f.name) earlier.now))) Rebound ∷ params_wrong (func.now.values ++ func.now.dests) ∷ []) }
{
    if is_named(earlier, func.name) {
        return Err(Breach::Rebound);
    }
    parameters(func.values.as_slice(), func.dests.as_slice())
}

fn all_headers(funcs: &[Func]) -> Result<(), CheckFault>
    ensures { Gives (λ done. done) result (headers [] funcs.now) }
{
    for i in 0..funcs.len() {
        let func = &funcs[i];
        at_line(func.line, header(&funcs[..i], func))?;
    }
    Ok(())
}

/// There is a main, and it takes no values.
fn begins(program: &Program) -> Result<(), CheckFault>
    ensures { Gives (λ done. done) result (main_meets (main_func program.now)) }
{
    let Some(main) = main_of(program) else {
        return Err(Breach::NoMain.at(1));
    };
    if main.values.is_empty() {
        return Ok(());
    }
    Err(Breach::NoMain.at(main.line))
}

/// A function's body, at whose end each of its destinations is written.
fn function(alloc: Global, funcs: &[Func], func: &Func) -> Result<(), CheckFault>
    ensures { Gives (λ done. done) result (func_meets funcs.now func.now) }
{
    let mut scope = Scope::of_params(alloc, func)?;
    let after = body(
        alloc,
        funcs,
        func.body.as_slice(),
        &mut scope,
        Vec::new(alloc),
    )?;
    scope.all_written(0, &after)
}

fn all_bodies(alloc: Global, funcs: &[Func]) -> Result<(), CheckFault>
    ensures { Gives (λ done. done) result (bodies funcs.now funcs.now) }
{
    for func in funcs {
        function(alloc, funcs, func)?;
    }
    Ok(())
}

/// The program, where it meets the series rule: each name is in scope where it stands, no name is bound twice, each
/// destination is written once and before it is read, and each call fits the header of its function. Else the first
/// fault: of the headers of all functions, then of main, then of the bodies in text order, token by token.
pub fn check(alloc: Global, program: Program) -> Result<Checked, CheckFault>
    requires parsed { IsParsed program }
    // What is accepted meets the rule.
    ensures met { IfOk result (λ checked. meets program ≡ Ok tt) }
    ensures same { IfOk result (λ checked. checked ≡ program) }
    // A fault is the first one of a program that doesn't.
    ensures fault { IfErr result (λ e. IfSome (fault_of e) (λ first. meets program ≡ Err first)) }
{
    let funcs = program.funcs.as_slice();
    all_headers(funcs)?;
    begins(&program)?;
    all_bodies(alloc, funcs)?;
    Ok(Checked::of(program))
}
