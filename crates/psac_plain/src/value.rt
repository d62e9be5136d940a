// The value of an expression.
ghost use Rattle.std.specs.Prelude.{◌≡◌, ◌<◌, ◌≤◌, ◌*◌, ◌^◌, length, map, Result, Ok, slice_get};
ghost use Rattle.psac_ops.specs.Table.{applied, arity};
ghost use Rattle.psac_ops.specs.Named.{value_of as plain_value, values_of, same_handle};
ghost use Rattle.psac_model.specs.Expression.{value_of, cell_at, text_at, in_order, of_op};
ghost use Rattle.psac_plain.specs.Slots.{Gives, env_of, setting_by, map_plain};

use crate::binding::{Binding, lookup};
use crate::halt::Halt;
use crate::opening::Opening;
use psac_model::FaultKind;
use psac_ops::{Handle, Op, OpFault, Plain, TextId, apply};
use psac_syntax::Expr;
use sqlite_items::at;
use std::alloc::Global;

fn cell(opening: &Opening, row: Plain, col: Plain) -> Result<Plain, Halt>
    ensures { Gives plain_value result (cell_at (setting_by opening.now) (plain_value row) (plain_value col)) }
{
    let (Plain::Int(r), Plain::Int(c)) = (row, col) else {
        return Err(Halt::Fault(FaultKind::Kind));
    };
    if r < 0 || c < 0 || r >= i64::from(opening.room) || c >= i64::from(opening.cols) {
        return Err(Halt::Fault(FaultKind::Range));
    }
    Ok(Plain::Ref(Handle {
        slot: r as u32 * opening.cols + c as u32,
        generation: 0,
    }))
}

fn text(texts: &[TextId], k: u16) -> Result<Plain, Halt>
    ensures { Gives plain_value result (text_at (slice_get texts.now k)) }
{
    match at(texts, usize::from(k)).copied() {
        Some(t) => Ok(Plain::Text(t)),
        None => Err(Halt::Fault(FaultKind::Kind)),
    }
}

fn arity_of(op: Op) -> usize
    ensures { result ≡ arity op }
{
    match op {
        Op::Not | Op::Neg | Op::Abs | Op::Len | Op::Fst | Op::Snd => 1,
        _ => 2,
    }
}

#[tactic(auto, using(crate::proofs::Arity::applied_else))]
fn operator(op: Op, args: &[Plain]) -> Result<Plain, Halt>
    ensures { Gives plain_value result (of_op (applied same_handle op (values_of args.now))) }
{
    if args.len() != arity_of(op) {
        return Err(Halt::Fault(FaultKind::Kind));
    }
    match apply(op, args) {
        Ok(v) => Ok(v),
        Err(OpFault::Kind) => Err(Halt::Fault(FaultKind::Kind)),
        Err(OpFault::Overflow) => Err(Halt::Fault(FaultKind::Overflow)),
        Err(OpFault::DivZero) => Err(Halt::Fault(FaultKind::DivZero)),
    }
}

/// The value of an expression.
#[cycle(value)]
#[tactic(auto, using(psac_model::proofs::Valued::value_of_nil, psac_model::proofs::Valued::value_of_bool, psac_model::proofs::Valued::value_of_int, psac_model::proofs::Valued::value_of_text, psac_model::proofs::Valued::value_of_name, psac_model::proofs::Valued::value_of_rows, psac_model::proofs::Valued::value_of_cols, psac_model::proofs::Valued::value_of_row_count, psac_model::proofs::Valued::value_of_cell, psac_model::proofs::Valued::value_of_apply))]
pub fn value(alloc: Global, opening: &Opening, env: &[Binding], e: &Expr) -> Result<Plain, Halt>
    ensures { Gives plain_value result (value_of (setting_by opening.now) (env_of env.now) e.now) }
{
    match e {
        Expr::Nil => Ok(Plain::Nil),
        Expr::Bool(b) => Ok(Plain::Bool(*b)),
        Expr::Int(i) => Ok(Plain::Int(*i)),
        Expr::Text(k) => text(opening.texts, *k),
        Expr::Name(x) => match lookup(env, *x) {
            Some(v) => Ok(v),
            None => Err(Halt::Fault(FaultKind::Kind)),
        },
        Expr::Rows => Ok(Plain::Int(i64::from(opening.opened))),
        Expr::Cols => Ok(Plain::Int(i64::from(opening.cols))),
        Expr::RowCount => Ok(Plain::Ref(opening.row_count)),
        Expr::Cell(r, c) => {
            let row = value(alloc, opening, env, r.get())?;
            let col = value(alloc, opening, env, c.get())?;
            cell(opening, row, col)
        }
        Expr::Apply(op, args) => {
            let all = values(alloc, opening, env, args.as_slice())?;
            operator(*op, &all)
        }
    }
}

/// The values of expressions, in order.
#[cycle(value)]
pub fn values(
    alloc: Global,
    opening: &Opening,
    env: &[Binding],
    args: &[Expr],
) -> Result<Vec<Plain>, Halt>
    ensures { Gives (λ v. values_of v.items) result (in_order (map (value_of (setting_by opening.now) (env_of env.now)) args.now)) }
{
    let mut all = Vec::new(alloc);
    for arg in args {
        let v = value(alloc, opening, env, arg)?;
        all.push(v)?;
    }
    Ok(all)
}
