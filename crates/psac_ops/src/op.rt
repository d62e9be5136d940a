ghost use Rattle.std.specs.Prelude.{◌≡◌, length};
ghost use Rattle.psac_ops.specs.Table.{applied, arity, exactly, of_one, of_two, quotient_of, remainder_of};
ghost use Rattle.psac_ops.specs.Named.{value_of, values_of, result_of, same_handle};
ghost use Rattle.psac_ops.specs.Value.{int, bool, ref};

use crate::plain::{Handle, Plain};

/// An operator. It takes one argument or two, as its row of the table says.
#[derive(Clone, Copy, Debug, PartialEq, Eq)]
pub enum Op {
    Add,
    Sub,
    Mul,
    Div,
    Rem,
    Eq,
    Ne,
    Lt,
    Le,
    Gt,
    Ge,
    And,
    Or,
    Not,
    Neg,
    Abs,
    Min,
    Max,
    Len,
    Pair,
    Fst,
    Snd,
}

/// Why an operator gives no value.
#[derive(Clone, Copy, Debug, PartialEq, Eq)]
pub enum OpFault {
    /// An argument isn't of the kind that the operator takes. This goes before the other faults.
    Kind,
    /// The exact result isn't a signed number of 64 bits.
    Overflow,
    /// The divisor is 0.
    DivZero,
}

/// What the operator gives for these arguments. It allocates nothing.
pub fn apply(op: Op, args: &[Plain]) -> Result<Plain, OpFault>
    requires { length args.now ≡ arity op }
    ensures { result_of result ≡ applied same_handle op (values_of args.now) }
{
    match args {
        [v] => on_one(op, *v),
        [v, u] => on_two(op, *v, *u),
        _ => Err(OpFault::Kind),
    }
}

// What an operator of one argument gives.
fn on_one(op: Op, v: Plain) -> Result<Plain, OpFault>
    ensures { result_of result ≡ of_one op (value_of v) }
{
    match (op, v) {
        (Op::Not, Plain::Bool(b)) => Ok(Plain::Bool(!b)),
        (Op::Neg, Plain::Int(a)) => exact(a.checked_neg()),
        (Op::Abs, Plain::Int(a)) => exact(a.checked_abs()),
        (Op::Len, Plain::Text(t)) => Ok(Plain::Int(i64::from(t.len))),
        (Op::Fst, Plain::Pair(a, _)) => Ok(Plain::Ref(a)),
        (Op::Snd, Plain::Pair(_, b)) => Ok(Plain::Ref(b)),
        _ => Err(OpFault::Kind),
    }
}

// What an operator of two arguments gives.
fn on_two(op: Op, v: Plain, u: Plain) -> Result<Plain, OpFault>
    ensures { result_of result ≡ of_two same_handle op (value_of v) (value_of u) }
{
    match op {
        Op::Eq => Ok(Plain::Bool(v == u)),
        Op::Ne => Ok(Plain::Bool(!(v == u))),
        _ => match (v, u) {
            (Plain::Int(a), Plain::Int(b)) => on_numbers(op, a, b),
            (Plain::Bool(a), Plain::Bool(b)) => on_truths(op, a, b),
            (Plain::Ref(a), Plain::Ref(b)) => on_references(op, a, b),
            _ => Err(OpFault::Kind),
        },
    }
}

// What an operator gives for two numbers.
fn on_numbers(op: Op, a: i64, b: i64) -> Result<Plain, OpFault>
    ensures { result_of result ≡ of_two same_handle op (int a) (int b) }
{
    match op {
        Op::Add => exact(a.checked_add(b)),
        Op::Sub => exact(a.checked_sub(b)),
        Op::Mul => exact(a.checked_mul(b)),
        Op::Div => quotient(a, b),
        Op::Rem => remainder(a, b),
        Op::Eq => Ok(Plain::Bool(a == b)),
        Op::Ne => Ok(Plain::Bool(!(a == b))),
        Op::Lt => Ok(Plain::Bool(a < b)),
        Op::Le => Ok(Plain::Bool(a <= b)),
        Op::Gt => Ok(Plain::Bool(b < a)),
        Op::Ge => Ok(Plain::Bool(b <= a)),
        Op::Min => Ok(Plain::Int(if a <= b { a } else { b })),
        Op::Max => Ok(Plain::Int(if a <= b { b } else { a })),
        _ => Err(OpFault::Kind),
    }
}

// What an operator gives for two truths.
fn on_truths(op: Op, a: bool, b: bool) -> Result<Plain, OpFault>
    ensures { result_of result ≡ of_two same_handle op (bool a) (bool b) }
{
    match op {
        Op::And => Ok(Plain::Bool(a && b)),
        Op::Or => Ok(Plain::Bool(a || b)),
        Op::Eq => Ok(Plain::Bool(a == b)),
        Op::Ne => Ok(Plain::Bool(!(a == b))),
        _ => Err(OpFault::Kind),
    }
}

// What an operator gives for two references.
fn on_references(op: Op, a: Handle, b: Handle) -> Result<Plain, OpFault>
    ensures { result_of result ≡ of_two same_handle op (ref a) (ref b) }
{
    match op {
        Op::Pair => Ok(Plain::Pair(a, b)),
        Op::Eq => Ok(Plain::Bool(a == b)),
        Op::Ne => Ok(Plain::Bool(!(a == b))),
        _ => Err(OpFault::Kind),
    }
}

// The number, where there is one.
fn exact(n: Option<i64>) -> Result<Plain, OpFault>
    ensures { result_of result ≡ exactly n }
{
    match n {
        Some(n) => Ok(Plain::Int(n)),
        None => Err(OpFault::Overflow),
    }
}

// Truncated toward zero.
fn quotient(a: i64, b: i64) -> Result<Plain, OpFault>
    ensures { result_of result ≡ quotient_of a b }
{
    if b == 0 {
        return Err(OpFault::DivZero);
    }
    exact(a.checked_div(b))
}

// With the sign of the first number.
fn remainder(a: i64, b: i64) -> Result<Plain, OpFault>
    ensures { result_of result ≡ remainder_of a b }
{
    if b == 0 {
        return Err(OpFault::DivZero);
    }
    if b == -1 {
        return Ok(Plain::Int(0));
    }
    Ok(Plain::Int(a % b))
}
