// Names of the program with their values.
ghost use Rattle.std.specs.Prelude.{◌≡◌, ◌<◌, length, Result, Ok, OnOk, IfOk};
ghost use Rattle.psac_ops.specs.Named.{value_of as plain_value, values_of};
ghost use Rattle.psac_model.specs.Names.{bound, bind};
ghost use Rattle.psac_model.specs.Run.{bound_to, with_reads};
ghost use Rattle.psac_plain.specs.Slots.{Binds, IsKept, env_of, map_plain};
ghost use Rattle.psac_plain.specs.Running.{reads_view};

use crate::ask::Seen;
use crate::halt::Halt;
use psac_model::FaultKind;
use psac_ops::Plain;
use psac_syntax::{ReadItem, Stmt};
use std::alloc::{AllocError, Global};

/// A name with its value.
#[derive(Clone, Copy, Debug, PartialEq, Eq)]
pub struct Binding {
    pub name: u16,
    pub value: Plain,
}

/// The value that a name is bound to.
pub fn lookup(env: &[Binding], name: u16) -> Option<Plain>
    ensures { map_plain result ≡ bound name (env_of env.now) }
{
    for b in env {
        if b.name == name {
            return Some(b.value);
        }
    }
    None
}

/// Binds a name; one that is bound already keeps its place.
pub fn bind_to(env: &mut Vec<Binding>, name: u16, value: Plain) -> Result<(), AllocError>
    ensures { OnOk result (env_of env.new.items ≡ bind name (plain_value value) (env_of env.old.items)) }
{
    let count = env.len();
    for i in 0..count {
        if env[i].name == name {
            env[i] = Binding { name, value };
            return Ok(());
        }
    }
    env.push(Binding { name, value })?;
    Ok(())
}

/// Binds parameters to their values, where there are as many.
#[tactic(auto, using(crate::proofs::Uneven::bound_uneven))]
pub fn params_to(env: &mut Vec<Binding>, names: &[u16], all: &[Plain]) -> Result<(), Halt>
    ensures { Binds result (bound_to names.now (values_of all.now) (env_of env.old.items)) (env_of env.new.items) }
{
    if names.len() != all.len() {
        return Err(Halt::Fault(FaultKind::Kind));
    }
    for i in 0..names.len() {
        bind_to(env, names[i], all[i])?;
    }
    Ok(())
}

/// Binds the names of reads to the values that were read.
#[tactic(auto, using(crate::proofs::Uneven::reads_over))]
pub fn bind_seen(
    env: &mut Vec<Binding>,
    items: &[ReadItem],
    seen: &[Seen],
) -> Result<(), AllocError>
    ensures { OnOk result (env_of env.new.items ≡ with_reads (env_of env.old.items) items.now (reads_view seen.now)) }
{
    let count = items.len().min(seen.len());
    for i in 0..count {
        bind_to(env, items[i].bound, seen[i].value)?;
    }
    Ok(())
}

/// The environment for an inner body: moved where no statement follows it, and else a copy.
pub fn inner_env(
    alloc: Global,
    env: &mut Vec<Binding>,
    rest: &[Stmt],
) -> Result<Vec<Binding>, AllocError>
    ensures inner { IfOk result (λ inner. inner.items ≡ env.old.items) }
    ensures kept { OnOk result (IsKept rest.now env.old.items env.new.items) }
{
    if rest.is_empty() {
        return Ok(std::mem::replace(env, Vec::new(alloc)));
    }
    Vec::from_slice(alloc, env)
}
