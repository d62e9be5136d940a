// What a statement asks for, once its expressions are evaluated.
ghost use Rattle.std.specs.Prelude.{◌≡◌, map};
ghost use Rattle.std.specs.Option.{option_copied};
ghost use Rattle.psac_ops.specs.Named.{value_of as plain_value, values_of};
ghost use Rattle.psac_syntax.specs.declared.program.Stmt.{out-Stmt};
ghost use Rattle.psac_ops.specs.declared.plain.Handle.{Handle};
ghost use Rattle.psac_model.specs.Names.{Env};
ghost use Rattle.psac_model.specs.Expression.{in_order};
ghost use Rattle.psac_model.specs.Run.{target, as_bool, destination, reference, read_of, func_named, call_of, action_of, line_of};
ghost use Rattle.psac_plain.specs.Slots.{Gives, env_of, setting_by, slots};
ghost use Rattle.psac_plain.specs.Running.{places_of, reads_view, action_view};

use crate::binding::{Binding, lookup, params_to};
use crate::halt::Halt;
use crate::opening::Opening;
use crate::places::held_at;
use crate::value::{value, values};
use psac_model::FaultKind;
use psac_ops::{Handle, Plain};
use psac_syntax::{Func, ReadItem, Stmt};
use std::alloc::Global;

/// One read: the modifiable and its value.
#[derive(Clone, Copy)]
pub struct Seen {
    pub from: Handle,
    pub value: Plain,
}

/// What a statement asks for, once its expressions are evaluated.
#[derive(Drop)]
pub enum Action<'a> {
    Bind(u16, Plain),
    Make(u16),
    Put(Handle, Plain),
    /// The chosen branch, under the environment of its statement.
    Branch(&'a [Stmt]),
    /// A function's body, under its parameters alone.
    Called(&'a [Stmt], Vec<Binding>),
    /// A read block, what it read, and the names that it binds.
    Block(u32, Vec<Seen>, &'a [ReadItem], &'a [Stmt]),
    Sides(&'a [Stmt], &'a [Stmt]),
}

pub fn target_of(v: Plain) -> Result<Handle, Halt>
    ensures { Gives (λ h. h) result (target (plain_value v)) }
{
    match v {
        Plain::Ref(h) => Ok(h),
        _ => Err(Halt::Fault(FaultKind::Kind)),
    }
}

pub fn destination_of(env: &[Binding], d: u16) -> Result<Handle, Halt>
    ensures { Gives (λ h. h) result (destination (env_of env.now) d) }
{
    match lookup(env, d) {
        Some(v) => target_of(v),
        None => Err(Halt::Fault(FaultKind::Kind)),
    }
}

fn seen_of(
    alloc: Global,
    opening: &Opening,
    env: &[Binding],
    heap: &[Option<Plain>],
    item: &ReadItem,
) -> Result<Seen, Halt>
    ensures { Gives (λ s. (s.from, plain_value s.value)) result (read_of slots (setting_by opening.now) (env_of env.now) (places_of heap.now) item.now) }
{
    let v = value(alloc, opening, env, &item.from)?;
    let from = target_of(v)?;
    let value = held_at(heap, from)?;
    Ok(Seen { from, value })
}

fn reads_of(
    alloc: Global,
    opening: &Opening,
    env: &[Binding],
    heap: &[Option<Plain>],
    items: &[ReadItem],
) -> Result<Vec<Seen>, Halt>
    ensures { Gives (λ v. reads_view v.items) result (in_order (map (read_of slots (setting_by opening.now) (env_of env.now) (places_of heap.now)) items.now)) }
{
    let mut all = Vec::new(alloc);
    for item in items {
        let seen = seen_of(alloc, opening, env, heap, item)?;
        all.push(seen)?;
    }
    Ok(all)
}

pub fn destinations_of(alloc: Global, env: &[Binding], dests: &[u16]) -> Result<Vec<Plain>, Halt>
    ensures { Gives (λ v. values_of v.items) result (in_order (map (reference (env_of env.now)) dests.now)) }
{
    let mut all = Vec::new(alloc);
    for d in dests {
        let h = destination_of(env, *d)?;
        all.push(Plain::Ref(h))?;
    }
    Ok(all)
}

fn func_of(funcs: &[Func], name: u16) -> Option<&Func>
    ensures { option_copied result ≡ func_named name funcs.now }
{
    for f in funcs {
        if f.name == name {
            return Some(f);
        }
    }
    None
}

/// What a call runs: the function's body, under its parameters alone.
pub fn called<'a>(
    alloc: Global,
    funcs: &'a [Func],
    func: u16,
    values: &[Plain],
    dests: &[Plain],
) -> Result<Action<'a>, Halt>
    ensures { (env : Env Handle) → Gives (action_view env) result (call_of (func_named func funcs.now) (values_of values.now) (values_of dests.now)) }
{
    match func_of(funcs, func) {
        Some(f) => {
            let mut env = Vec::new(alloc);
            params_to(&mut env, f.values.as_slice(), values)?;
            params_to(&mut env, f.dests.as_slice(), dests)?;
            Ok(Action::Called(f.body.as_slice(), env))
        }
        None => Err(Halt::Fault(FaultKind::Kind)),
    }
}

pub fn bool_of(v: Plain) -> Result<bool, Halt>
    ensures { Gives (λ b. b) result (as_bool (plain_value v)) }
{
    match v {
        Plain::Bool(b) => Ok(b),
        _ => Err(Halt::Fault(FaultKind::Kind)),
    }
}

pub fn line(s: &Stmt) -> u32
    ensures { result ≡ line_of (out-Stmt s.now) }
{
    match s {
        Stmt::Let { line, .. } => *line,
        Stmt::New { line, .. } => *line,
        Stmt::Write { line, .. } => *line,
        Stmt::Read { line, .. } => *line,
        Stmt::If { line, .. } => *line,
        Stmt::Par { line, .. } => *line,
        Stmt::Call { line, .. } => *line,
    }
}

/// What a statement asks for, once its expressions are evaluated.
pub fn asked<'a>(
    alloc: Global,
    opening: &Opening,
    funcs: &'a [Func],
    env: &[Binding],
    heap: &[Option<Plain>],
    s: &'a Stmt,
) -> Result<Action<'a>, Halt>
    ensures { Gives (action_view (env_of env.now)) result (action_of slots (setting_by opening.now) funcs.now (env_of env.now) (places_of heap.now) (out-Stmt s.now)) }
{
    match s {
        Stmt::Let { name, value: e, .. } => {
            let v = value(alloc, opening, env, e)?;
            Ok(Action::Bind(*name, v))
        }
        Stmt::New { name, .. } => Ok(Action::Make(*name)),
        Stmt::Write { dest, value: e, .. } => {
            let v = value(alloc, opening, env, e)?;
            let m = destination_of(env, *dest)?;
            Ok(Action::Put(m, v))
        }
        Stmt::Read {
            block,
            items,
            body,
            ..
        } => {
            let seen = reads_of(alloc, opening, env, heap, items.as_slice())?;
            Ok(Action::Block(*block, seen, items.as_slice(), body.as_slice()))
        }
        Stmt::If { cond, yes, no, .. } => {
            let v = value(alloc, opening, env, cond)?;
            let b = bool_of(v)?;
            Ok(Action::Branch(if b { yes.as_slice() } else { no.as_slice() }))
        }
        Stmt::Par { left, right, .. } => Ok(Action::Sides(left.as_slice(), right.as_slice())),
        Stmt::Call {
            func,
            values: given,
            dests,
            ..
        } => {
            let vs = values(alloc, opening, env, given.as_slice())?;
            let ds = destinations_of(alloc, env, dests.as_slice())?;
            called(alloc, funcs, *func, &vs, &ds)
        }
    }
}
