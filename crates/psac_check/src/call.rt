// Calls.
ghost use Rattle.std.specs.Prelude.{◌≡◌, ◌==◌, [], ◌∷◌, ◌++◌, length, map};
ghost use Rattle.std.specs.Option.{option_copied};
ghost use Rattle.psac_syntax.specs.declared.program.Stmt.TheOpen.{Stmt-F};
ghost use Rattle.psac_model.specs.Run.{func_named};
ghost use Rattle.psac_model.specs.Series.{Arity, Rule, unless, first_wrong, expr_wrong, dest_wrong, dests_wrong, call_wrong, rule_step};
ghost use Rattle.psac_check.specs.Faults.{told};
ghost use Rattle.psac_check.specs.Follows.{Gives};

use crate::expression::expressions;
use crate::fault::{Breach, CheckFault, at_line};
use crate::names::Scope;
use psac_syntax::{Expr, Func};

fn func_of(funcs: &[Func], name: u16) -> Option<&Func>
    ensures { option_copied result ≡ func_named name funcs.now }
{
    for func in funcs {
        if func.name == name {
            return Some(func);
        }
    }
    None
}

fn same_number(given: usize, wanted: usize) -> Result<(), Breach>
    ensures { told result ≡ unless (given == wanted) Arity }
{
    if given == wanted {
        return Ok(());
    }
    Err(Breach::Arity)
}

fn values_wrong(
    scope: &Scope,
    written: &[u16],
    callee: &Func,
    values: &[Expr],
) -> Result<(), Breach>
    ensures { told result ≡ first_wrong (first_wrong (map (expr_wrong scope.now written.now) values.now) ∷ unless (length values.now == length callee.now.values) Arity ∷ []) }
{
    expressions(scope, written, values)?;
    same_number(values.len(), callee.values.len())
}

/// What a callee is to write, beside the destinations before it.
#[tactic(auto, using(crate::proofs::Calls::passed_twice, crate::proofs::Calls::passed_once))]
fn dest_wrong_at(scope: &Scope, written: &[u16], earlier: &[u16], dest: u16) -> Result<(), Breach>
    ensures { told result ≡ dest_wrong scope.now (written.now ++ earlier.now) dest }
{
    if earlier.contains(&dest) {
        return Err(Breach::WrittenTwice);
    }
    scope.unwritten_dest(written, dest)
}

/// What a callee is to write must be distinct destinations that aren't written yet.
fn dests_wrong_in(scope: &Scope, written: &[u16], dests: &[u16]) -> Result<(), Breach>
    ensures { told result ≡ dests_wrong scope.now written.now dests.now }
{
    for i in 0..dests.len() {
        dest_wrong_at(scope, written, &dests[..i], dests[i])?;
    }
    Ok(())
}

/// The values, their number, the destinations, their number.
#[tactic(auto, using(crate::proofs::Calls::call_parts))]
fn call_wrong_in(
    funcs: &[Func],
    func: u16,
    values: &[Expr],
    dests: &[u16],
    scope: &Scope,
    written: &[u16],
) -> Result<(), Breach>
    ensures { told result ≡ call_wrong scope.now written.now (func_named func funcs.now) values.now dests.now }
{
    let Some(callee) = func_of(funcs, func) else {
        return Err(Breach::UnknownFunction);
    };
    values_wrong(scope, written, callee, values)?;
    dests_wrong_in(scope, written, dests)?;
    same_number(dests.len(), callee.dests.len())
}

/// `call`: what the callee writes is a value from here on.
pub fn call_statement(
    funcs: &[Func],
    line: u32,
    func: u16,
    values: &[Expr],
    dests: &[u16],
    scope: &Scope,
    written: &mut Vec<u16>,
) -> Result<(), CheckFault>
    ensures { Gives (λ done. (scope.now, written.new.items)) result (rule_step funcs.now (Stmt-F.Call line func values.now dests.now) scope.now written.old.items) }
{
    at_line(
        line,
        call_wrong_in(funcs, func, values, dests, scope, written),
    )?;
    written.extend_from_slice(dests)?;
    Ok(())
}
