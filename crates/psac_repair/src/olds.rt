//! The destinations that a block is to write again.
ghost use Rattle.std.specs.Prelude.{◌≡◌, ℕ, true, Some, IfOk, OnOk};
ghost use Rattle.psac_ops.specs.Value.{ref};
ghost use Rattle.psac_ops.specs.Named.{value_of};
ghost use Rattle.psac_model.specs.Names.{bound};
ghost use Rattle.psac_plain.specs.Slots.{env_of};
ghost use Rattle.psac_record.specs.Shown.{kept_of};
ghost use Rattle.psac_repair.specs.Rebuilt.{Gathers, Olds};

use psac_ops::{Handle, Plain};
use psac_plain::binding::Binding;
use psac_record::{Look, Record};
use std::alloc::{AllocError, Global};

fn is_ref(value: Plain, m: Handle) -> bool
    ensures { value_of value ≡ ref m → result ≡ true }
{
    match value {
        Plain::Ref(other) => other.slot == m.slot && other.generation == m.generation,
        _ => false,
    }
}

// Whether a name is bound to the modifiable.
#[tactic(auto, using(crate::proofs::Gathering::bound_front))]
fn is_bound(env: &[Binding], m: Handle) -> bool
    ensures { (n : ℕ) → bound n (env_of env.now) ≡ Some (ref m) → result ≡ true }
{
    let [first, rest @ ..] = env else {
        return false;
    };
    is_ref(first.value, m) || is_bound(rest, m)
}

fn add_olds(env: &[Binding], tree: &Record, olds: &mut Vec<Handle>) -> Result<(), AllocError>
    ensures { OnOk result (Gathers (env_of env.now) (kept_of tree.now) olds.old.items olds.new.items) }
{
    match tree.look() {
        Look::End => {}
        Look::Made(_, rest) => add_olds(env, rest, olds)?,
        Look::Wrote(m, _, rest) => {
            if is_bound(env, m) {
                olds.push(m)?;
            }
            add_olds(env, rest, olds)?;
        }
        Look::Step(_, inner, rest) => {
            add_olds(env, inner, olds)?;
            add_olds(env, rest, olds)?;
        }
        Look::Both(_, left, right) => {
            add_olds(env, left, olds)?;
            add_olds(env, right, olds)?;
        }
        Look::Block(_, inner) => add_olds(env, inner, olds)?,
    }
    Ok(())
}

/// The modifiables that a record wrote and that stand in an environment that is older than the record.
pub fn olds_of(alloc: Global, env: &[Binding], tree: &Record) -> Result<Vec<Handle>, AllocError>
    ensures { IfOk result (λ olds. Olds olds.items (env_of env.now) (kept_of tree.now)) }
{
    let mut olds = Vec::new(alloc);
    add_olds(env, tree, &mut olds)?;
    Ok(olds)
}
