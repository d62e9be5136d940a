// Expressions. After an `Err` a first part of one may stand at the end of the text.
ghost use Rattle.std.specs.Prelude.{◌≡◌, ◌++◌, ◌&&◌, ◌==◌, OnOk, map, length, codes};
ghost use Rattle.psac_ops.specs.Written.{name_of, is_infix};
ghost use Rattle.psac_spelling.specs.Canonical.{expr_text, truth, applied, named, joined, behind};

use crate::words::{push_name, push_text};
use psac_base::{NoMemory, push_int};
use psac_ops::{Op, row};
use psac_syntax::{Expr, Program};

fn push_truth(text: &mut Vec<u8>, value: bool) -> Result<(), NoMemory>
    ensures { OnOk result (text.new.items ≡ text.old.items ++ truth value) }
{
    if value {
        text.extend_from_slice(b"true")?;
    } else {
        text.extend_from_slice(b"false")?;
    }
    Ok(())
}

fn spelling(op: Op) -> &'static [u8]
    ensures { result.now ≡ name_of op }
{
    row(op).name.as_bytes()
}

/// The operator stands between its arguments, of which there are two.
fn stands_between(op: Op, args: &[Expr]) -> bool
    ensures { result ≡ (is_infix op && (length args.now == 2)) }
{
    row(op).infix && args.len() == 2
}

fn push_spaced(text: &mut Vec<u8>, word: &[u8]) -> Result<(), NoMemory>
    ensures { OnOk result (text.new.items ≡ text.old.items ++ (codes " " ++ word.now ++ codes " ")) }
{
    text.push(b' ')?;
    text.extend_from_slice(word)?;
    text.push(b' ')?;
    Ok(())
}

/// Appends an expression, each operator between its arguments in parentheses.
#[cycle(expression)]
#[tactic(auto, using(psac_spelling::proofs::Layers::nil_text, psac_spelling::proofs::Layers::bool_text, psac_spelling::proofs::Layers::int_text, psac_spelling::proofs::Layers::text_text, psac_spelling::proofs::Layers::name_is, psac_spelling::proofs::Layers::rows_text, psac_spelling::proofs::Layers::cols_text, psac_spelling::proofs::Layers::row_count_text, psac_spelling::proofs::Layers::cell_text, psac_spelling::proofs::Layers::apply_text))]
pub fn push_expr(text: &mut Vec<u8>, program: &Program, value: &Expr) -> Result<(), NoMemory>
    ensures { OnOk result (text.new.items ≡ text.old.items ++ expr_text program.now value.now) }
{
    match value {
        Expr::Nil => text.extend_from_slice(b"nil")?,
        Expr::Bool(b) => push_truth(text, *b)?,
        Expr::Int(number) => push_int(text, *number)?,
        Expr::Text(place) => push_text(text, program, *place)?,
        Expr::Name(name) => push_name(text, program, *name)?,
        Expr::Rows => text.extend_from_slice(b"rows")?,
        Expr::Cols => text.extend_from_slice(b"cols")?,
        Expr::RowCount => text.extend_from_slice(b"rows()")?,
        Expr::Cell(row, column) => {
            text.extend_from_slice(b"cell(")?;
            push_expr(text, program, row.get())?;
            text.extend_from_slice(b", ")?;
            push_expr(text, program, column.get())?;
            text.push(b')')?;
        }
        Expr::Apply(op, args) => push_applied(text, program, *op, args.as_slice())?,
    }
    Ok(())
}

#[cycle(expression)]
fn push_applied(
    text: &mut Vec<u8>,
    program: &Program,
    op: Op,
    args: &[Expr],
) -> Result<(), NoMemory>
    ensures { OnOk result (text.new.items ≡ text.old.items ++ applied op (map (expr_text program.now) args.now)) }
{
    let name = spelling(op);
    if !stands_between(op, args) {
        return push_named(text, program, name, args);
    }
    text.push(b'(')?;
    push_expr(text, program, &args[0])?;
    push_spaced(text, name)?;
    push_expr(text, program, &args[1])?;
    text.push(b')')?;
    Ok(())
}

#[cycle(expression)]
fn push_named(
    text: &mut Vec<u8>,
    program: &Program,
    name: &[u8],
    args: &[Expr],
) -> Result<(), NoMemory>
    ensures { OnOk result (text.new.items ≡ text.old.items ++ named name.now (map (expr_text program.now) args.now)) }
{
    text.extend_from_slice(name)?;
    text.push(b'(')?;
    push_exprs(text, program, args)?;
    text.push(b')')?;
    Ok(())
}

/// Appends expressions, joined by a comma and a space.
#[cycle(expression)]
pub fn push_exprs(text: &mut Vec<u8>, program: &Program, values: &[Expr]) -> Result<(), NoMemory>
    ensures { OnOk result (text.new.items ≡ text.old.items ++ joined (map (expr_text program.now) values.now)) }
{
    let mut before: &[u8] = &[];
    for value in values {
        text.extend_from_slice(before)?;
        push_expr(text, program, value)?;
        before = b", ";
    }
    Ok(())
}
