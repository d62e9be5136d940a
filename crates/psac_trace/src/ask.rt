//! What a statement asks for, its reads taken from the table of values.
ghost use Rattle.std.specs.Prelude.{◌≡◌, ◌+◌, length, map, IfOk, OnErr};
ghost use Rattle.psac_ops.specs.declared.plain.Handle.{Handle};
ghost use Rattle.psac_ops.specs.Value.{Value};
ghost use Rattle.psac_ops.specs.Named.{value_of as plain_value, values_of};
ghost use Rattle.psac_syntax.specs.declared.program.Stmt.{out-Stmt};
ghost use Rattle.psac_model.specs.Expression.{in_order};
ghost use Rattle.psac_model.specs.Names.{Env as Names};
ghost use Rattle.psac_model.specs.Run.{read_of, func_named, call_of, action_of};
ghost use Rattle.psac_plain.specs.Slots.{Gives, env_of, setting_by};
ghost use Rattle.psac_plain.specs.Running.{reads_view, action_view};
ghost use Rattle.psac_traced.specs.Traced.{listed};
ghost use Rattle.psac_trace.specs.Rights.{Heap, Sees};
ghost use Rattle.psac_trace.specs.Asking.{AllSought, Readable, source, sources_in, AllSeen, SeenFirst, looked_by, Looked, looks_for, setting_on};

use crate::ground::Ground;
use psac_ops::{Handle, Plain, TextId, from_words};
use psac_plain::ask::{Action, Seen, bool_of, called, destination_of, destinations_of, target_of};
use psac_plain::binding::Binding;
use psac_plain::halt::Halt;
use psac_plain::opening::Opening;
use psac_plain::value::{value, values as values_in};
use psac_syntax::{Func, ReadItem, Stmt};
use psac_values::{ValuePass, Values};
use std::alloc::Global;

// The modifiable that a read names.
fn source_of(
    alloc: Global,
    opening: &Opening,
    env: &[Binding],
    item: &ReadItem,
) -> Result<Handle, Halt>
    ensures { Gives (λ m. m) result (source (setting_by opening.now) (env_of env.now) item.now) }
{
    let v = value(alloc, opening, env, &item.from)?;
    target_of(v)
}

// What a block's reads name, each with no value yet. All that can stop a statement comes before its first look: so a run looks at
// nothing that it doesn't record.
fn sources_of(
    alloc: Global,
    opening: &Opening,
    env: &[Binding],
    items: &[ReadItem],
) -> Result<Vec<Seen>, Halt>
    ensures { Gives (λ v. sources_in v.items) result (in_order (map (source (setting_by opening.now) (env_of env.now)) items.now)) }
{
    let mut all = Vec::new(alloc);
    for item in items {
        let from = source_of(alloc, opening, env, item)?;
        all.push(Seen {
            from,
            value: Plain::Nil,
        })?;
    }
    Ok(all)
}

fn seen_at(values: &Values, pass: &mut ValuePass, from: Handle) -> Seen
    requires table { pass.old.table ≡ values.now }
    requires sees { (x : Value Handle) × Sees pass.old.knows from x }
    ensures table { pass.new.table ≡ pass.old.table }
    ensures looked { pass.new.knows ≡ looked_by 1 pass.old.knows }
    ensures from { result.from ≡ from }
    ensures value { (x : Value Handle) → Sees pass.old.knows from x → plain_value result.value ≡ x }
{
    let words = values.read(pass, from);
    let Some(value) = from_words(words) else {
        unreachable!()
    };
    Seen { from, value }
}

// The value of each, by one look at it.
fn look_at(values: &Values, pass: &mut ValuePass, all: &mut Vec<Seen>)
    requires table { pass.old.table ≡ values.now }
    requires sees { AllSeen pass.old.knows all.old.items }
    ensures table { pass.new.table ≡ pass.old.table }
    ensures looked { pass.new.knows ≡ looked_by (length all.old.items) pass.old.knows }
    ensures seen { SeenFirst pass.old.knows (length all.old.items) all.old.items all.new.items }
{
    let count = all.len();
    for i in 0..count {
        let seen = seen_at(values, pass, all[i].from);
        all[i] = seen;
    }
}

fn reads_of(
    alloc: Global,
    opening: &Opening,
    env: &[Binding],
    values: &Values,
    pass: &mut ValuePass,
    items: &[ReadItem],
) -> Result<Vec<Seen>, Halt>
    requires table { pass.old.table ≡ values.now }
    requires sought { (heap : Heap) × AllSought (setting_by opening.now) (env_of env.now) pass.old.knows heap items.now }
    ensures table { pass.new.table ≡ pass.old.table }
    ensures ok { IfOk result (λ all. pass.new.knows ≡ looked_by (length all.items) pass.old.knows) }
    ensures err { OnErr result (pass.new.knows ≡ pass.old.knows) }
    ensures seen { (heap : Heap) → AllSought (setting_by opening.now) (env_of env.now) pass.old.knows heap items.now → Gives (λ v. reads_view v.items) result (in_order (map (read_of (listed (setting_by opening.now)) (setting_by opening.now) (env_of env.now) heap) items.now)) }
{
    match sources_of(alloc, opening, env, items) {
        Ok(sources) => {
            let mut all = sources;
            look_at(values, pass, &mut all);
            Ok(all)
        }
        Err(halt) => Err(halt),
    }
}

// What a call runs, which reads nothing by itself.
fn called_by<'a>(
    alloc: Global,
    funcs: &'a [Func],
    func: u16,
    values: &[Plain],
    dests: &[Plain],
) -> Result<Action<'a>, Halt>
    ensures called { (env : Names Handle) → Gives (action_view env) result (call_of (func_named func funcs.now) (values_of values.now) (values_of dests.now)) }
    ensures looks { (env : Names Handle) → IfOk result (λ a. looks_for (action_view env a) ≡ 0) }
{
    called(alloc, funcs, func, values, dests)
}

/// What a statement asks for, once its expressions are evaluated.
#[tactic(auto, using(crate::proofs::Asked::looked_same, crate::proofs::Asked::looked_is))]
pub fn asked<'a>(
    alloc: Global,
    ground: &Ground,
    texts: &[TextId],
    funcs: &'a [Func],
    env: &[Binding],
    values: &Values,
    pass: &mut ValuePass,
    s: &'a Stmt,
) -> Result<Action<'a>, Halt>
    requires table { pass.old.table ≡ values.now }
    requires readable { (heap : Heap) × Readable (setting_on ground.now texts.now) (env_of env.now) pass.old.knows heap (out-Stmt s.now) }
    ensures table { pass.new.table ≡ pass.old.table }
    ensures looked { Looked pass.old.knows pass.new.knows }
    ensures looks { IfOk result (λ a. pass.new.knows.looks ≡ pass.old.knows.looks + looks_for (action_view (env_of env.now) a)) }
    ensures unlooked { OnErr result (pass.new.knows.looks ≡ pass.old.knows.looks) }
    ensures asked { (heap : Heap) → Readable (setting_on ground.now texts.now) (env_of env.now) pass.old.knows heap (out-Stmt s.now) → Gives (action_view (env_of env.now)) result (action_of (listed (setting_on ground.now texts.now)) (setting_on ground.now texts.now) funcs.now (env_of env.now) heap (out-Stmt s.now)) }
{
    let opening = Opening {
        opened: ground.opened,
        room: ground.room,
        cols: ground.cols,
        row_count: ground.row_count,
        texts,
    };
    match s {
        Stmt::Let { name, value: e, .. } => {
            let v = value(alloc, &opening, env, e)?;
            Ok(Action::Bind(*name, v))
        }
        Stmt::New { name, .. } => Ok(Action::Make(*name)),
        Stmt::Write { dest, value: e, .. } => {
            let v = value(alloc, &opening, env, e)?;
            let m = destination_of(env, *dest)?;
            Ok(Action::Put(m, v))
        }
        Stmt::Read {
            block,
            items,
            body,
            ..
        } => {
            match reads_of(alloc, &opening, env, values, pass, items.as_slice()) {
                Ok(seen) => Ok(Action::Block(*block, seen, items.as_slice(), body.as_slice())),
                Err(halt) => Err(halt),
            }
        }
        Stmt::If { cond, yes, no, .. } => {
            let v = value(alloc, &opening, env, cond)?;
            let b = bool_of(v)?;
            Ok(Action::Branch(if b { yes.as_slice() } else { no.as_slice() }))
        }
        Stmt::Par { left, right, .. } => Ok(Action::Sides(left.as_slice(), right.as_slice())),
        Stmt::Call {
            func,
            values: given,
            dests,
            ..
        } => {
            let vs = values_in(alloc, &opening, env, given.as_slice())?;
            let ds = destinations_of(alloc, env, dests.as_slice())?;
            called_by(alloc, funcs, *func, &vs, &ds)
        }
    }
}
