// What an operand begins with.
ghost use Rattle.std.specs.Prelude.{◌≡◌, ◌<◌, OnSome};
ghost use Rattle.psac_grammar.specs.Grammar.{operator_at, start_of};
ghost use Rattle.psac_grammar.specs.Grammar as grammar;
ghost use Rattle.psac_lang.specs.Reads.{begins};

use crate::operand::Pairing;
use psac_ops::Op;
use psac_syntax::Expr;
use psac_tokens::{Kind, Token};

/// The loosest level of operators.
pub const TOP: u8 = 5;

const COMPARISONS: u8 = 3;

/// What an operand begins with.
#[derive(Drop)]
pub enum Start {
    /// It is this expression, and whole.
    Constant(Expr),
    /// `rows`, which is whole unless a parenthesis follows.
    Rows,
    Inner,
    One(Op),
    Two(Pairing),
    Nothing,
}

/// How an operand begins, by its first token.
pub fn beginning(token: Token) -> Start
    ensures { begins result ≡ start_of token.kind token }
{
    match token.kind {
        Kind::Int => Start::Constant(Expr::Int(token.number)),
        Kind::Name => Start::Constant(Expr::Name(token.index)),
        Kind::Text => Start::Constant(Expr::Text(token.index)),
        Kind::True => Start::Constant(Expr::Bool(true)),
        Kind::False => Start::Constant(Expr::Bool(false)),
        Kind::Nil => Start::Constant(Expr::Nil),
        Kind::Cols => Start::Constant(Expr::Cols),
        Kind::Rows => Start::Rows,
        Kind::LeftParen => Start::Inner,
        Kind::Not => Start::One(Op::Not),
        Kind::Neg => Start::One(Op::Neg),
        Kind::Abs => Start::One(Op::Abs),
        Kind::Len => Start::One(Op::Len),
        Kind::Fst => Start::One(Op::Fst),
        Kind::Snd => Start::One(Op::Snd),
        Kind::Cell => Start::Two(Pairing::Cell),
        Kind::Min => Start::Two(Pairing::Apply(Op::Min)),
        Kind::Max => Start::Two(Pairing::Apply(Op::Max)),
        Kind::Pair => Start::Two(Pairing::Apply(Op::Pair)),
        _ => Start::Nothing,
    }
}

fn product(kind: Kind) -> Option<Op>
    ensures { result ≡ grammar.product_of kind }
{
    match kind {
        Kind::Star => Some(Op::Mul),
        Kind::Slash => Some(Op::Div),
        Kind::Percent => Some(Op::Rem),
        _ => None,
    }
}

fn sum(kind: Kind) -> Option<Op>
    ensures { result ≡ grammar.sum_of kind }
{
    match kind {
        Kind::Plus => Some(Op::Add),
        Kind::Minus => Some(Op::Sub),
        _ => None,
    }
}

fn comparison(kind: Kind) -> Option<Op>
    ensures { result ≡ grammar.comparison_of kind }
{
    match kind {
        Kind::Equal => Some(Op::Eq),
        Kind::Unequal => Some(Op::Ne),
        Kind::Less => Some(Op::Lt),
        Kind::AtMost => Some(Op::Le),
        Kind::Greater => Some(Op::Gt),
        Kind::AtLeast => Some(Op::Ge),
        _ => None,
    }
}

fn conjunction(kind: Kind) -> Option<Op>
    ensures { result ≡ grammar.and_of kind }
{
    match kind {
        Kind::And => Some(Op::And),
        _ => None,
    }
}

fn disjunction(kind: Kind) -> Option<Op>
    ensures { result ≡ grammar.or_of kind }
{
    match kind {
        Kind::Or => Some(Op::Or),
        _ => None,
    }
}

/// The operator that the token is between operands of a level.
#[tactic(auto, unfolding(psac_grammar::specs::Grammar::operator_at))]
pub fn operator(level: u8, kind: Kind) -> Option<Op>
    ensures value { result ≡ operator_at level kind }
    ensures some { OnSome result (0 < level) }
{
    match level {
        1 => product(kind),
        2 => sum(kind),
        3 => comparison(kind),
        4 => conjunction(kind),
        5 => disjunction(kind),
        _ => None,
    }
}

/// Whether any number of operators of the level may stand side by side.
pub fn is_chain(level: u8) -> bool
    ensures { result ≡ grammar.is_chain level }
{
    level != COMPARISONS
}
