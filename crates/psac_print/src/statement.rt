// Statements. After an `Err` a first part of one may stand at the end of the text.
ghost use Rattle.std.specs.Prelude.{◌≡◌, ◌++◌, OnOk, IfOk, map, codes};
ghost use Rattle.psac_spelling.specs.Canonical.{name_text, names_text, expr_text, item_text, dests_text, header_text, joined, behind, assigned, all_lines, body_text, stmt_text, content_text};

use crate::expression::{push_expr, push_exprs};
use crate::words::{push_dests, push_name};
use psac_base::NoMemory;
use psac_syntax::{Expr, Program, ReadItem, Stmt};
use std::alloc::Global;

fn wider(alloc: Global, margin: &[u8]) -> Result<Vec<u8>, NoMemory>
    ensures { IfOk result (λ inner. inner.items ≡ margin.now ++ codes "  ") }
{
    let mut inner = Vec::from_slice(alloc, margin)?;
    inner.extend_from_slice(b"  ")?;
    Ok(inner)
}

fn push_assigned(
    text: &mut Vec<u8>,
    program: &Program,
    name: u16,
    value: &Expr,
) -> Result<(), NoMemory>
    ensures { OnOk result (text.new.items ≡ text.old.items ++ assigned program.now name value.now) }
{
    push_name(text, program, name)?;
    text.extend_from_slice(b" = ")?;
    push_expr(text, program, value)?;
    text.push(b';')?;
    Ok(())
}

fn push_let(text: &mut Vec<u8>, program: &Program, name: u16, value: &Expr) -> Result<(), NoMemory>
    ensures { OnOk result (text.new.items ≡ text.old.items ++ (codes "let " ++ assigned program.now name value.now)) }
{
    text.extend_from_slice(b"let ")?;
    push_assigned(text, program, name, value)
}

fn push_new(text: &mut Vec<u8>, program: &Program, name: u16) -> Result<(), NoMemory>
    ensures { OnOk result (text.new.items ≡ text.old.items ++ (codes "new " ++ name_text program.now name ++ codes ";")) }
{
    text.extend_from_slice(b"new ")?;
    push_name(text, program, name)?;
    text.push(b';')?;
    Ok(())
}

fn push_write(
    text: &mut Vec<u8>,
    program: &Program,
    dest: u16,
    value: &Expr,
) -> Result<(), NoMemory>
    ensures { OnOk result (text.new.items ≡ text.old.items ++ (codes "write " ++ assigned program.now dest value.now)) }
{
    text.extend_from_slice(b"write ")?;
    push_assigned(text, program, dest, value)
}

fn push_item(text: &mut Vec<u8>, program: &Program, item: &ReadItem) -> Result<(), NoMemory>
    ensures { OnOk result (text.new.items ≡ text.old.items ++ item_text program.now item.now) }
{
    push_expr(text, program, &item.from)?;
    text.extend_from_slice(b" as ")?;
    push_name(text, program, item.bound)
}

fn push_items(text: &mut Vec<u8>, program: &Program, items: &[ReadItem]) -> Result<(), NoMemory>
    ensures { OnOk result (text.new.items ≡ text.old.items ++ joined (map (item_text program.now) items.now)) }
{
    let mut before: &[u8] = &[];
    for item in items {
        text.extend_from_slice(before)?;
        push_item(text, program, item)?;
        before = b", ";
    }
    Ok(())
}

fn push_reads(text: &mut Vec<u8>, program: &Program, items: &[ReadItem]) -> Result<(), NoMemory>
    ensures { OnOk result (text.new.items ≡ text.old.items ++ (codes "read " ++ joined (map (item_text program.now) items.now) ++ codes " ")) }
{
    text.extend_from_slice(b"read ")?;
    push_items(text, program, items)?;
    text.push(b' ')?;
    Ok(())
}

fn push_cond(text: &mut Vec<u8>, program: &Program, cond: &Expr) -> Result<(), NoMemory>
    ensures { OnOk result (text.new.items ≡ text.old.items ++ (codes "if " ++ expr_text program.now cond.now ++ codes " ")) }
{
    text.extend_from_slice(b"if ")?;
    push_expr(text, program, cond)?;
    text.push(b' ')?;
    Ok(())
}

/// Appends the semicolon of a header or a call, and what stands behind it in the parentheses.
pub fn push_end(text: &mut Vec<u8>, program: &Program, dests: &[u16]) -> Result<(), NoMemory>
    ensures { OnOk result (text.new.items ≡ text.old.items ++ (codes ";" ++ dests_text program.now dests.now ++ codes ")")) }
{
    text.push(b';')?;
    push_dests(text, program, dests)?;
    text.push(b')')?;
    Ok(())
}

fn push_call(
    text: &mut Vec<u8>,
    program: &Program,
    func: u16,
    values: &[Expr],
    dests: &[u16],
) -> Result<(), NoMemory>
    ensures { OnOk result (text.new.items ≡ text.old.items ++ (codes "call " ++ header_text program.now func (map (expr_text program.now) values.now) dests.now ++ codes ";")) }
{
    text.extend_from_slice(b"call ")?;
    push_name(text, program, func)?;
    text.push(b'(')?;
    push_exprs(text, program, values)?;
    push_end(text, program, dests)?;
    text.push(b';')?;
    Ok(())
}

/// Appends a statement in lines of its own, behind a margin.
#[cycle(body)]
#[tactic(auto, using(psac_spelling::proofs::Layers::stmt_is))]
fn push_stmt(
    text: &mut Vec<u8>,
    program: &Program,
    stmt: &Stmt,
    margin: &[u8],
) -> Result<(), NoMemory>
    ensures { OnOk result (text.new.items ≡ text.old.items ++ stmt_text program.now stmt.now margin.now) }
{
    text.extend_from_slice(margin)?;
    push_content(text, program, stmt, margin)?;
    text.push(b'\n')?;
    Ok(())
}

#[cycle(body)]
#[tactic(auto, using(psac_spelling::proofs::Layers::let_text, psac_spelling::proofs::Layers::new_text, psac_spelling::proofs::Layers::write_text, psac_spelling::proofs::Layers::read_text, psac_spelling::proofs::Layers::if_text, psac_spelling::proofs::Layers::par_text, psac_spelling::proofs::Layers::call_text))]
fn push_content(
    text: &mut Vec<u8>,
    program: &Program,
    stmt: &Stmt,
    margin: &[u8],
) -> Result<(), NoMemory>
    ensures { OnOk result (text.new.items ≡ text.old.items ++ content_text program.now stmt.now margin.now) }
{
    match stmt {
        Stmt::Let { name, value, .. } => push_let(text, program, *name, value)?,
        Stmt::New { name, .. } => push_new(text, program, *name)?,
        Stmt::Write { dest, value, .. } => push_write(text, program, *dest, value)?,
        Stmt::Read { items, body, .. } => {
            push_reads(text, program, items.as_slice())?;
            push_body(text, program, body.as_slice(), margin)?;
        }
        Stmt::If { cond, yes, no, .. } => {
            push_cond(text, program, cond)?;
            push_body(text, program, yes.as_slice(), margin)?;
            text.extend_from_slice(b" else ")?;
            push_body(text, program, no.as_slice(), margin)?;
        }
        Stmt::Par { left, right, .. } => {
            text.extend_from_slice(b"par ")?;
            push_body(text, program, left.as_slice(), margin)?;
            text.push(b' ')?;
            push_body(text, program, right.as_slice(), margin)?;
        }
        Stmt::Call {
            func,
            values,
            dests,
            ..
        } => push_call(text, program, *func, values.as_slice(), dests.as_slice())?,
    }
    Ok(())
}

/// Appends a body with its braces. Its statements stand two spaces further in, and the closing brace doesn't.
#[cycle(body)]
pub fn push_body(
    text: &mut Vec<u8>,
    program: &Program,
    body: &[Stmt],
    margin: &[u8],
) -> Result<(), NoMemory>
    ensures { OnOk result (text.new.items ≡ text.old.items ++ body_text (map (stmt_text program.now) body.now) margin.now) }
{
    let inner = wider(*text.allocator(), margin)?;
    text.extend_from_slice(b"{\n")?;
    push_stmts(text, program, body, &inner)?;
    text.extend_from_slice(margin)?;
    text.push(b'}')?;
    Ok(())
}

#[cycle(body)]
fn push_stmts(
    text: &mut Vec<u8>,
    program: &Program,
    stmts: &[Stmt],
    margin: &[u8],
) -> Result<(), NoMemory>
    ensures { OnOk result (text.new.items ≡ text.old.items ++ all_lines (map (stmt_text program.now) stmts.now) margin.now) }
{
    for stmt in stmts {
        push_stmt(text, program, stmt, margin)?;
    }
    Ok(())
}
