// Operands that are put together.
ghost use Rattle.std.specs.Prelude.{◌≡◌, ◌+◌, ◌≤◌, [], ◌∷◌, max, IfOk};
ghost use Rattle.psac_grammar.specs.Marked.{max_depth};
ghost use Rattle.psac_grammar.specs.Grammar.{apply_one};
ghost use Rattle.psac_grammar.specs.Machine.{made_one, made_two};
ghost use Rattle.psac_lang.specs.Reads.{Joins, DepthGives, operand_item, pairing};

use crate::cursor::{Cursor, limit};
use crate::fault::Halt;
use psac_ops::Op;
use psac_syntax::Expr;
use sqlite_items::{Boxed, Items};
use std::alloc::{AllocError, Global};

const MAX_DEPTH: u8 = 64;

/// An expression and its depth.
#[derive(Drop)]
pub struct Operand {
    pub expr: Expr,
    pub depth: u8,
}

/// What is made of two expressions.
#[derive(Clone, Copy, Debug, PartialEq, Eq)]
pub enum Pairing {
    Cell,
    Apply(Op),
}

fn deeper(a: u8, b: u8) -> u8
    ensures { result ≡ max a b }
{
    a.max(b)
}

/// The depth above one or two operands, the last token of which stands in this line.
fn depth_above(below: u8, line: u32) -> Result<u8, Halt>
    requires { below ≤ max_depth }
    ensures { DepthGives (below + 1) line result }
{
    let depth = below + 1;
    if depth > MAX_DEPTH {
        return Err(limit(5, line));
    }
    Ok(depth)
}

/// The expression of an operator with one argument.
pub fn applied(
    alloc: Global,
    op: Op,
    argument: Operand,
    tokens: &Cursor<'_>,
) -> Result<Operand, Halt>
    requires { argument.depth ≤ max_depth }
    ensures joins { Joins (made_one (apply_one op)) (operand_item argument ∷ []) result tokens.now }
    ensures within { IfOk result (λ o. o.depth ≤ max_depth) }
{
    let depth = depth_above(argument.depth, tokens.line())?;
    let mut arguments = Items::new(alloc);
    arguments.push(argument.expr)?;
    Ok(Operand {
        expr: Expr::Apply(op, arguments),
        depth,
    })
}

fn paired(alloc: Global, pair: Pairing, first: Expr, second: Expr) -> Result<Expr, AllocError>
    ensures { IfOk result (λ made. made ≡ pairing pair first second) }
{
    match pair {
        Pairing::Cell => {
            let row = Boxed::new(alloc, first)?;
            let column = Boxed::new(alloc, second)?;
            Ok(Expr::Cell(row, column))
        }
        Pairing::Apply(op) => {
            let mut arguments = Items::new(alloc);
            arguments.push(first)?;
            arguments.push(second)?;
            Ok(Expr::Apply(op, arguments))
        }
    }
}

/// The expression that is made of two.
pub fn joined(
    alloc: Global,
    pair: Pairing,
    first: Operand,
    second: Operand,
    tokens: &Cursor<'_>,
) -> Result<Operand, Halt>
    requires first { first.depth ≤ max_depth }
    requires second { second.depth ≤ max_depth }
    ensures joins { Joins (made_two (pairing pair)) (operand_item second ∷ operand_item first ∷ []) result tokens.now }
    ensures within { IfOk result (λ o. o.depth ≤ max_depth) }
{
    let depth = depth_above(deeper(first.depth, second.depth), tokens.line())?;
    let expr = paired(alloc, pair, first.expr, second.expr)?;
    Ok(Operand { expr, depth })
}
