//! What a block that runs again begins with.
ghost use Rattle.std.specs.Prelude.{◌≡◌, IfOk, OnOk};
ghost use Rattle.psac_model.specs.Run.{with_reads};
ghost use Rattle.psac_plain.specs.Slots.{env_of};
ghost use Rattle.psac_record.specs.Kept.{reads_of, env_of as kept_env_of};

use psac_plain::binding::{Binding, bind_to};
use psac_record::{Binding as Bound, Seen};
use psac_syntax::ReadItem;
use std::alloc::{AllocError, Global};

// The names that were in scope.
fn names_of(alloc: Global, env: &[Bound]) -> Result<Vec<Binding>, AllocError>
    ensures { IfOk result (λ all. env_of all.items ≡ kept_env_of env.now) }
{
    let mut all = Vec::new(alloc);
    for b in env {
        all.push(Binding {
            name: b.name,
            value: b.value,
        })?;
    }
    Ok(all)
}

fn bind_reads(env: &mut Vec<Binding>, items: &[ReadItem], seen: &[Seen]) -> Result<(), AllocError>
    ensures { OnOk result (env_of env.new.items ≡ with_reads (env_of env.old.items) items.now (reads_of seen.now)) }
{
    let [item, items @ ..] = items else {
        return Ok(());
    };
    let [first, seen @ ..] = seen else {
        return Ok(());
    };
    bind_to(env, item.bound, first.value)?;
    bind_reads(env, items, seen)
}

/// The names that were in scope at a read block, and those of its reads.
pub fn entered(
    alloc: Global,
    env: &[Bound],
    items: &[ReadItem],
    seen: &[Seen],
) -> Result<Vec<Binding>, AllocError>
    ensures { IfOk result (λ more. env_of more.items ≡ with_reads (kept_env_of env.now) items.now (reads_of seen.now)) }
{
    let mut more = names_of(alloc, env)?;
    bind_reads(&mut more, items, seen)?;
    Ok(more)
}
