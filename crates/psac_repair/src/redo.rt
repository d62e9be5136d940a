//! A read block that runs again.
ghost use Rattle.std.specs.Prelude.{◌≡◌, ℕ, List, Option, IfOk};
ghost use Rattle.psac_ops.specs.declared.plain.Handle.{Handle};
ghost use Rattle.psac_fork.specs.Whole.{IsOf};
ghost use Rattle.psac_model.specs.Run.{with_reads};
ghost use Rattle.psac_plain.specs.Slots.{env_of};
ghost use Rattle.psac_record.specs.declared.parts.Reading.{Reading as Read};
ghost use Rattle.psac_record.specs.Kept as kept;
ghost use Rattle.psac_record.specs.Kept.{reads_of, env_of as kept_env_of};
ghost use Rattle.psac_record.specs.Shown.{kept_of};
ghost use Rattle.psac_repair.specs.Planted.{Planted};
ghost use Rattle.psac_repair.specs.Linked.{Linked, LinksOnce};
ghost use Rattle.psac_repair.specs.Rebuilt.{Olds, TakenOff, Replaces};
ghost use Rattle.psac_repair.specs.Changing.{Changed};
ghost use Rattle.psac_repair.specs.Outcomes.{Counts};
ghost use Rattle.psac_repair.specs.Repairing.{BeginsPart, LeftPart, SparesAgain};

use crate::entry::entered;
use crate::olds::olds_of;
use crate::outcome::{Outcome, Stop};
use crate::take::{detach_nodes, leave_links};
use crate::tally::Tally;
use crate::world::World;
use psac_fork::{Gate, Pass, Tables};
use psac_ops::Handle as Node;
use psac_plain::binding::Binding;
use psac_record::{Block, Dropped, Part, Reading, Record, Seen};
use psac_syntax::ReadItem;
use psac_trace::halt::Halt;
use psac_trace::run::run_block;
use sqlite_items::Items;
use std::alloc::{AllocError, Global};
use std::thread::Threads;

// The environment of a block's body, and what the body wrote of it.
fn begun(
    alloc: Global,
    items: &[ReadItem],
    reading: &Reading,
    again: &[Seen],
    inner: &Record,
) -> Result<(Vec<Binding>, Vec<Node>), AllocError>
    ensures { IfOk result (λ r. (env_of r.0.items ≡ with_reads (kept_env_of reading.now.env) items.now (reads_of again.now)) × Olds r.1.items (env_of r.0.items) (kept_of inner.now)) }
{
    let env = entered(alloc, reading.env.as_slice(), items, again)?;
    let olds = olds_of(alloc, &env, inner)?;
    Ok((env, olds))
}

// Takes off what a block ran: its links are left, its nodes are dropped, and the block isn't marked any more.
fn bared(tables: &Tables, node: Node, inner: &Record, mut pass: Pass) -> Pass
    requires of { IsOf pass tables.now }
    requires stands { (us : List ℕ) × (above : Option Handle) × (b : Read) × (b.node ≡ node) × Planted pass.marks.knows us above (kept.R b (kept_of inner.now)) }
    requires linked { Linked pass.readers.knows (kept_of inner.now) }
    requires once { LinksOnce pass.readers.knows }
    ensures of { IsOf result tables.now }
    ensures off { (b : Read) → b.node ≡ node → TakenOff pass result b (kept_of inner.now) }
{
    leave_links(&tables.readers, &mut pass.readers, inner);
    detach_nodes(&tables.marks, &mut pass.marks, inner);
    tables.marks.clear(&mut pass.marks, node);
    pass
}

// What the body ran now in the place of what it ran before.
fn replaced(
    mut place: Box<Block<Record>>,
    again: Items<Seen>,
    inner: Record,
    ran: Result<Record, Halt>,
) -> Outcome
    ensures { Replaces place.value.reading again (kept_of inner) ran result }
{
    let removed = inner.size();
    let mut dropped = Dropped::new();
    dropped.add(inner);
    place.reading.reads = again;
    match ran {
        Ok(new) => {
            let added = new.size();
            Outcome {
                tree: Part::Block(place, new).together(),
                dropped,
                told: Ok(Tally::anew(removed, added)),
            }
        }
        Err(halt) => Outcome {
            tree: Part::Block(place, Record::empty()).together(),
            dropped,
            told: Err(Stop::Halt(halt)),
        },
    }
}

/// Takes off what a block ran, and runs it again with what it reads now. The rest of the body that the block stands in is there for
/// the contract alone.
#[inline(never)]
pub fn redo_block<Rt: Threads + Sync, G: Gate + Sync>(
    rt: &Rt,
    alloc: Global,
    world: &World,
    gate: &G,
    place: Box<Block<Record>>,
    again: Items<Seen>,
    inner: Record,
    rest: &Record,
    pass: Pass,
) -> (Outcome, Pass)
    requires of { IsOf pass world.now.tables.now }
    requires begins { BeginsPart world.now (kept.R place.value.reading (kept_of inner)) (kept_of rest.now) pass }
    requires changed { Changed pass.values.knows place.value.reading.reads again }
    ensures of { IsOf result.1 world.now.tables.now }
    ensures left { LeftPart world.now (kept.R place.value.reading (kept_of inner)) (kept_of rest.now) pass result.1 result.0 }
    ensures spares { SparesAgain world.now place.value.reading (kept_of inner) (kept_of rest.now) pass result.1 result.0 }
    ensures counts { Counts (kept.R place.value.reading (kept_of inner)) result.0 }
{
    let _ = rest;
    let code = world.blocks[place.reading.block as usize];
    let (items, body) = code;
    let Ok((env, olds)) = begun(alloc, items, &place.reading, again.as_slice(), &inner) else {
        return (
            Outcome::no_memory(Part::Block(place, inner).together()),
            pass,
        );
    };
    let node = place.reading.node;
    let pass = bared(world.tables, node, &inner, pass);
    let (ran, pass) = run_block(
        rt,
        alloc,
        world.crew,
        gate,
        world.tables,
        &world.ground,
        world.texts,
        world.funcs,
        &olds,
        place.reading.level,
        body,
        &env,
        Some(node),
        pass,
    );
    (replaced(place, again, inner, ran), pass)
}
