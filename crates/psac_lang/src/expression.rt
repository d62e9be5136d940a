// Expressions.
ghost use Rattle.std.specs.Prelude.{◌≡◌, ℕ, ◌<◌, ◌≤◌, ◌∷◌, [], length, OnOk, IfOk, OnSome};
ghost use Rattle.psac_grammar.specs.Marked.{max_parens, max_depth};
ghost use Rattle.psac_grammar.specs.Grammar.{start_of, top};
ghost use Rattle.psac_grammar.specs.Machine.{level, tail as one_tail, tails as all_tails, first};
ghost use Rattle.psac_lang.specs.Reads.{Reads, ReadsOperand, ReadsTails, ReadsValue, TakesOperator, begins, operand_item};

use crate::cursor::{Cursor, syntax};
use crate::fault::Halt;
use crate::marks::{Mark, by_parens, by_size};
use crate::operand::{Operand, Pairing, applied, joined};
use crate::reading::{expect, open_paren, pass};
use crate::start::{Start, TOP, beginning, is_chain, operator};
use psac_ops::Op;
use psac_syntax::Expr;
use psac_tokens::Kind;
use std::alloc::Global;

/// An operand of one token.
fn constant(tokens: &mut Cursor<'_>, expr: Expr, beyond: Mark) -> Result<Operand, Halt>
    requires { start_of (first tokens.old).kind (first tokens.old) ≡ begins (Start.Constant expr) }
    ensures reads { (p : ℕ) → ReadsOperand p beyond result tokens.old tokens.new }
    ensures shorter { OnOk result (length tokens.new.1 < length tokens.old.1) }
    ensures within { IfOk result (λ o. o.depth ≤ max_depth) }
{
    let mark = by_size(tokens.peek(), beyond);
    pass(tokens, mark)?;
    Ok(Operand { expr, depth: 1 })
}

/// `rows`, alone or with parentheses.
fn rows(tokens: &mut Cursor<'_>, parens: u8, beyond: Mark) -> Result<Operand, Halt>
    requires starts { start_of (first tokens.old).kind (first tokens.old) ≡ begins Start.Rows }
    requires parens { parens ≤ max_parens }
    ensures reads { ReadsOperand parens beyond result tokens.old tokens.new }
    ensures shorter { OnOk result (length tokens.new.1 < length tokens.old.1) }
    ensures within { IfOk result (λ o. o.depth ≤ max_depth) }
{
    pass(tokens, beyond)?;
    if tokens.peek().kind != Kind::LeftParen {
        return Ok(Operand {
            expr: Expr::Rows,
            depth: 1,
        });
    }
    pass(tokens, by_parens(parens, Mark::Fine))?;
    expect(tokens, Kind::RightParen)?;
    Ok(Operand {
        expr: Expr::RowCount,
        depth: 1,
    })
}

/// An expression in parentheses.
#[cycle(expr)]
fn inner(alloc: Global, tokens: &mut Cursor<'_>, parens: u8, beyond: Mark) -> Result<Operand, Halt>
    requires starts { start_of (first tokens.old).kind (first tokens.old) ≡ begins Start.Inner }
    requires parens { parens ≤ max_parens }
    ensures reads { ReadsOperand parens beyond result tokens.old tokens.new }
    ensures shorter { OnOk result (length tokens.new.1 < length tokens.old.1) }
    ensures within { IfOk result (λ o. o.depth ≤ max_depth) }
{
    pass(tokens, by_parens(parens, beyond))?;
    let inside = expr(alloc, tokens, TOP, parens + 1)?;
    expect(tokens, Kind::RightParen)?;
    Ok(inside)
}

/// An operator with one argument.
#[cycle(expr)]
fn one(
    alloc: Global,
    tokens: &mut Cursor<'_>,
    op: Op,
    parens: u8,
    beyond: Mark,
) -> Result<Operand, Halt>
    requires starts { start_of (first tokens.old).kind (first tokens.old) ≡ begins (Start.One op) }
    requires parens { parens ≤ max_parens }
    ensures reads { ReadsOperand parens beyond result tokens.old tokens.new }
    ensures shorter { OnOk result (length tokens.new.1 < length tokens.old.1) }
    ensures within { IfOk result (λ o. o.depth ≤ max_depth) }
{
    pass(tokens, beyond)?;
    open_paren(tokens, parens)?;
    let argument = expr(alloc, tokens, TOP, parens + 1)?;
    expect(tokens, Kind::RightParen)?;
    Ok(applied(alloc, op, argument, tokens)?)
}

/// `cell`, or an operator with two arguments in parentheses.
#[cycle(expr)]
fn two(
    alloc: Global,
    tokens: &mut Cursor<'_>,
    pair: Pairing,
    parens: u8,
    beyond: Mark,
) -> Result<Operand, Halt>
    requires starts { start_of (first tokens.old).kind (first tokens.old) ≡ begins (Start.Two pair) }
    requires parens { parens ≤ max_parens }
    ensures reads { ReadsOperand parens beyond result tokens.old tokens.new }
    ensures shorter { OnOk result (length tokens.new.1 < length tokens.old.1) }
    ensures within { IfOk result (λ o. o.depth ≤ max_depth) }
{
    pass(tokens, beyond)?;
    open_paren(tokens, parens)?;
    let first = expr(alloc, tokens, TOP, parens + 1)?;
    expect(tokens, Kind::Comma)?;
    let second = expr(alloc, tokens, TOP, parens + 1)?;
    expect(tokens, Kind::RightParen)?;
    Ok(joined(alloc, pair, first, second, tokens)?)
}

/// An operand inside this many parentheses. Its first token exceeds a limit that `beyond` says.
#[cycle(expr)]
fn fact(alloc: Global, tokens: &mut Cursor<'_>, parens: u8, beyond: Mark) -> Result<Operand, Halt>
    requires { parens ≤ max_parens }
    ensures reads { ReadsOperand parens beyond result tokens.old tokens.new }
    ensures shorter { OnOk result (length tokens.new.1 < length tokens.old.1) }
    ensures within { IfOk result (λ o. o.depth ≤ max_depth) }
{
    let token = tokens.peek();
    match beginning(token) {
        Start::Constant(expr) => constant(tokens, expr, beyond),
        Start::Rows => rows(tokens, parens, beyond),
        Start::Inner => inner(alloc, tokens, parens, beyond),
        Start::One(op) => one(alloc, tokens, op, parens, beyond),
        Start::Two(pair) => two(alloc, tokens, pair, parens, beyond),
        Start::Nothing => {
            tokens.settle()?;
            Err(syntax(token))
        }
    }
}

/// Goes past an operator of the level, if one is next.
fn take_operator(tokens: &mut Cursor<'_>, level: u8) -> Result<Option<Op>, Halt>
    ensures takes { TakesOperator level result tokens.old tokens.new }
    ensures shorter { IfOk result (λ found. OnSome found (length tokens.new.1 < length tokens.old.1)) }
    ensures some { IfOk result (λ found. OnSome found (0 < level)) }
    ensures keeps { OnOk result (length tokens.new.1 ≤ length tokens.old.1) }
{
    let Some(op) = operator(level, tokens.peek().kind) else {
        return Ok(None);
    };
    pass(tokens, Mark::Fine)?;
    Ok(Some(op))
}

/// Operators of one level behind an operand.
#[cycle(expr)]
fn tail(
    alloc: Global,
    tokens: &mut Cursor<'_>,
    left: Operand,
    level: u8,
    parens: u8,
) -> Result<Operand, Halt>
    requires level { level ≤ top }
    requires parens { parens ≤ max_parens }
    requires within { left.depth ≤ max_depth }
    ensures reads { ReadsTails left (one_tail level parens ∷ []) result tokens.old tokens.new }
    ensures shorter { OnOk result (length tokens.new.1 ≤ length tokens.old.1) }
    ensures within { IfOk result (λ o. o.depth ≤ max_depth) }
{
    let mut all = left;
    'more: while let Some(op) = take_operator(tokens, level)? {
        let right = expr(alloc, tokens, level - 1, parens)?;
        all = joined(alloc, Pairing::Apply(op), all, right, tokens)?;
        if !is_chain(level) {
            return Ok(all);
        }
    }
    Ok(all)
}

/// Operators of all levels up to one behind an operand.
#[cycle(expr)]
fn tails(
    alloc: Global,
    tokens: &mut Cursor<'_>,
    left: Operand,
    upto: u8,
    parens: u8,
) -> Result<Operand, Halt>
    requires level { upto ≤ top }
    requires parens { parens ≤ max_parens }
    requires within { left.depth ≤ max_depth }
    ensures reads { ReadsTails left (all_tails upto parens) result tokens.old tokens.new }
    ensures shorter { OnOk result (length tokens.new.1 ≤ length tokens.old.1) }
    ensures within { IfOk result (λ o. o.depth ≤ max_depth) }
{
    if upto == 0 {
        return Ok(left);
    }
    let inside = tails(alloc, tokens, left, upto - 1, parens)?;
    Ok(tail(alloc, tokens, inside, upto, parens)?)
}

/// Operands with operators up to a level between them.
#[cycle(expr)]
pub fn expr(alloc: Global, tokens: &mut Cursor<'_>, upto: u8, parens: u8) -> Result<Operand, Halt>
    requires level { upto ≤ top }
    requires parens { parens ≤ max_parens }
    ensures reads { Reads operand_item (level upto parens) result tokens.old tokens.new }
    ensures shorter { OnOk result (length tokens.new.1 < length tokens.old.1) }
    ensures within { IfOk result (λ o. o.depth ≤ max_depth) }
{
    let operand = fact(alloc, tokens, parens, Mark::Fine)?;
    Ok(tails(alloc, tokens, operand, upto, parens)?)
}

/// A value of a call. Its first token exceeds a limit that `beyond` says.
pub fn value(alloc: Global, tokens: &mut Cursor<'_>, beyond: Mark) -> Result<Expr, Halt>
    ensures reads { ReadsValue beyond result tokens.old tokens.new }
    ensures shorter { OnOk result (length tokens.new.1 < length tokens.old.1) }
{
    let operand = fact(alloc, tokens, 0, beyond)?;
    let whole = tails(alloc, tokens, operand, TOP, 0)?;
    Ok(whole.expr)
}
