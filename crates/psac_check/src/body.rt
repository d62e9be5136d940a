// Statements and bodies.
ghost use Rattle.std.specs.Prelude.{◌≡◌, ◌∷◌, map};
ghost use Rattle.psac_syntax.specs.declared.program.Stmt.TheOpen.{Stmt-F};
ghost use Rattle.psac_model.specs.Series.{Rule, one_by_one, body_rule, rule_step, rule_of};
ghost use Rattle.psac_check.specs.Follows.{Gives, Leaves};
ghost use Rattle.psac_check.specs.Scopes.{if_left, par_left};

use crate::call::call_statement;
use crate::expression::expression;
use crate::fault::{CheckFault, at_line};
use crate::names::Scope;
use crate::read::{bind_items, read_items};
use crate::sides::{apart_sides, same_branches, union};
use crate::simple::{let_statement, new_statement, write_statement};
use psac_syntax::{Func, ReadItem, Stmt};
use std::alloc::Global;
use std::mem;

/// One statement: what it brings into scope and writes.
#[cycle(body)]
fn statement(
    alloc: Global,
    funcs: &[Func],
    stmt: &Stmt,
    scope: &mut Scope,
    written: &mut Vec<u16>,
) -> Result<(), CheckFault>
    ensures { Gives (λ done. (scope.new, written.new.items)) result (rule_of funcs.now stmt.now scope.old written.old.items) }
{
    match stmt {
        Stmt::Let { line, name, value } => let_statement(*line, *name, value, scope, written),
        Stmt::New { line, name } => new_statement(*line, *name, scope, written),
        Stmt::Write { line, dest, value } => write_statement(*line, *dest, value, scope, written),
        Stmt::Read {
            line,
            items,
            body,
            ..
        } => read_statement(
            alloc,
            funcs,
            *line,
            items.as_slice(),
            body.as_slice(),
            scope,
            written,
        ),
        Stmt::If {
            line,
            cond,
            yes,
            no,
        } => {
            at_line(*line, expression(scope, written, cond))?;
            let before = Vec::from_slice(alloc, written)?;
            let first = body(alloc, funcs, yes.as_slice(), scope, before)?;
            second_branch(alloc, funcs, *line, first, no.as_slice(), scope, written)
        }
        Stmt::Par { line, left, right } => {
            let before = Vec::from_slice(alloc, written)?;
            let first = body(alloc, funcs, left.as_slice(), scope, before)?;
            second_side(alloc, funcs, *line, first, right.as_slice(), scope, written)
        }
        Stmt::Call {
            line,
            func,
            values,
            dests,
        } => call_statement(
            funcs,
            *line,
            *func,
            values.as_slice(),
            dests.as_slice(),
            scope,
            written,
        ),
    }
}

/// Statements, one after another.
#[cycle(body)]
fn statements(
    alloc: Global,
    funcs: &[Func],
    stmts: &[Stmt],
    scope: &mut Scope,
    written: &mut Vec<u16>,
) -> Result<(), CheckFault>
    ensures { Gives (λ done. (scope.new, written.new.items)) result (one_by_one (map (rule_of funcs.now) stmts.now) scope.old written.old.items) }
{
    for stmt in stmts {
        statement(alloc, funcs, stmt, scope, written)?;
    }
    Ok(())
}

/// A body, and what it leaves written of the names outside. Its own names leave scope at its end.
#[cycle(body)]
pub fn body(
    alloc: Global,
    funcs: &[Func],
    stmts: &[Stmt],
    scope: &mut Scope,
    mut written: Vec<u16>,
) -> Result<Vec<u16>, CheckFault>
    ensures left { Gives (λ after. after.items) result (body_rule (map (rule_of funcs.now) stmts.now) scope.old written.items) }
    ensures scope { Leaves result scope.old scope.new }
{
    let outside = scope.mark();
    statements(alloc, funcs, stmts, scope, &mut written)?;
    scope.all_written(outside.dests, &written)?;
    scope.leave(outside);
    scope.cut(&mut written);
    Ok(written)
}

/// `read`: the names that are bound are in scope in the body alone.
#[cycle(body)]
fn read_statement(
    alloc: Global,
    funcs: &[Func],
    line: u32,
    items: &[ReadItem],
    stmts: &[Stmt],
    scope: &mut Scope,
    written: &mut Vec<u16>,
) -> Result<(), CheckFault>
    ensures { Gives (λ done. (scope.new, written.new.items)) result (rule_step funcs.now (Stmt-F.Read line 0 items.now (map (rule_of funcs.now) stmts.now)) scope.old written.old.items) }
{
    at_line(line, read_items(scope, written, items))?;
    let outside = scope.mark();
    bind_items(scope, items)?;
    let before = mem::replace(written, Vec::new(alloc));
    *written = body(alloc, funcs, stmts, scope, before)?;
    scope.leave(outside);
    Ok(())
}

/// The second branch of an `if`. It begins with what is written before, and leaves the same set as the first one.
#[cycle(body)]
fn second_branch(
    alloc: Global,
    funcs: &[Func],
    line: u32,
    first: Vec<u16>,
    stmts: &[Stmt],
    scope: &mut Scope,
    written: &mut Vec<u16>,
) -> Result<(), CheckFault>
    ensures { Gives (λ done. (scope.new, written.new.items)) result (if_left line scope.old first.items (body_rule (map (rule_of funcs.now) stmts.now) scope.old written.old.items)) }
{
    let before = mem::replace(written, Vec::new(alloc));
    let second = body(alloc, funcs, stmts, scope, before)?;
    at_line(line, same_branches(&first, &second))?;
    *written = first;
    Ok(())
}

/// The second side of a `par`. It begins with what is written before, and writes nothing that the first one writes.
#[cycle(body)]
fn second_side(
    alloc: Global,
    funcs: &[Func],
    line: u32,
    first: Vec<u16>,
    stmts: &[Stmt],
    scope: &mut Scope,
    written: &mut Vec<u16>,
) -> Result<(), CheckFault>
    ensures { Gives (λ done. (scope.new, written.new.items)) result (par_left line scope.old written.old.items first.items (body_rule (map (rule_of funcs.now) stmts.now) scope.old written.old.items)) }
{
    let before = Vec::from_slice(alloc, written)?;
    let second = body(alloc, funcs, stmts, scope, before)?;
    at_line(line, apart_sides(written, &first, &second))?;
    *written = union(first, second)?;
    Ok(())
}
