//! Parts put round the records of what was run.
ghost use Rattle.std.specs.Prelude.{◌≡◌, IfOk};
ghost use Rattle.psac_ops.specs.Named.{value_of as plain_value};
ghost use Rattle.psac_model.specs.Names.{bind};
ghost use Rattle.psac_model.specs.Run.{with_reads};
ghost use Rattle.psac_plain.specs.Slots.{env_of};
ghost use Rattle.psac_plain.specs.Running.{reads_view};
ghost use Rattle.psac_record.specs.Kept.{Kept, E, A, W, S, P, R};
ghost use Rattle.psac_record.specs.Shown.{kept_of};
ghost use Rattle.psac_trace.specs.Raising.{olds_after};
ghost use Rattle.psac_trace.specs.Told.{did, ended_of, both_ended, then_ended, Follows, is_other, halted, stop_ended};

use crate::halt::Halt;
use psac_ops::{Handle, Plain};
use psac_plain::ask::Seen;
use psac_plain::binding::{Binding, bind_seen, bind_to};
use psac_plain::halt::Halt as Stop;
use psac_record::{Reading, Record};
use psac_syntax::ReadItem;
use std::alloc::{AllocError, Global};

/// The record of both sides, or the halt that goes first.
pub fn paired(
    alloc: Global,
    par: Handle,
    l: Result<Record, Halt>,
    r: Result<Record, Halt>,
) -> Result<Record, Halt>
    ensures { (j k : Kept) → Follows (both_ended (P par) (ended_of j l) (ended_of k r)) (ended_of (P par (did j l) (did k r)) result) }
{
    match l {
        Ok(l) => match r {
            Ok(r) => match Record::both(alloc, par, l, r) {
                Ok(t) => Ok(t),
                Err(_) => Err(Halt::NoMemory),
            },
            Err(h) => Err(h),
        },
        Err(Halt::NoMemory) => Err(Halt::NoMemory),
        Err(Halt::Full(which, full)) => match r {
            Err(Halt::NoMemory) => Err(Halt::NoMemory),
            _ => Err(Halt::Full(which, full)),
        },
        Err(Halt::Fault(kind, line)) => match r {
            Err(Halt::NoMemory) => Err(Halt::NoMemory),
            Err(Halt::Full(which, full)) => Err(Halt::Full(which, full)),
            _ => Err(Halt::Fault(kind, line)),
        },
    }
}

/// Why a statement at a line stops.
pub fn stopped(halt: Stop, line: u32) -> Halt
    ensures { halted E result ≡ stop_ended halt line }
{
    match halt {
        Stop::Fault(kind) => Halt::Fault(kind, line),
        Stop::NoMemory => Halt::NoMemory,
    }
}

/// Whether memory or a table ran out.
pub fn ran_out(t: &Result<Record, Halt>) -> bool
    ensures { (k : Kept) → result ≡ is_other (ended_of k t.now) }
{
    match t {
        Ok(_) => false,
        Err(Halt::Fault(..)) => false,
        Err(_) => true,
    }
}

/// The old destinations of a side that runs after another one on its pass. After a fault the record is thrown away, and nobody
/// has to be marked.
pub fn still_old<'a>(olds: &'a [Handle], t: &Result<Record, Halt>) -> &'a [Handle]
    ensures { (k : Kept) → result.now ≡ olds_after olds.now (ended_of k t.now) }
{
    match t {
        Ok(_) => olds,
        Err(_) => &[],
    }
}

/// Puts what was made before the rest.
pub fn after_made(alloc: Global, m: Handle, rest: Result<Record, Halt>) -> Result<Record, Halt>
    ensures { (k : Kept) → Follows (then_ended (A m) (ended_of k rest)) (ended_of (A m (did k rest)) result) }
{
    match rest {
        Ok(r) => match Record::made(alloc, m, r) {
            Ok(t) => Ok(t),
            Err(_) => Err(Halt::NoMemory),
        },
        Err(h) => Err(h),
    }
}

/// Puts a write before the rest.
pub fn after_wrote(
    alloc: Global,
    m: Handle,
    v: Plain,
    rest: Result<Record, Halt>,
) -> Result<Record, Halt>
    ensures { (k : Kept) → Follows (then_ended (W m v) (ended_of k rest)) (ended_of (W m v (did k rest)) result) }
{
    match rest {
        Ok(r) => match Record::wrote(alloc, m, v, r) {
            Ok(t) => Ok(t),
            Err(_) => Err(Halt::NoMemory),
        },
        Err(h) => Err(h),
    }
}

/// Puts a compound statement before the rest.
pub fn after_step(
    alloc: Global,
    node: Handle,
    t: Record,
    rest: Result<Record, Halt>,
) -> Result<Record, Halt>
    ensures { (k : Kept) → Follows (then_ended (S node (kept_of t)) (ended_of k rest)) (ended_of (S node (kept_of t) (did k rest)) result) }
{
    match rest {
        Ok(r) => match Record::step(alloc, node, t, r) {
            Ok(t) => Ok(t),
            Err(_) => Err(Halt::NoMemory),
        },
        Err(h) => Err(h),
    }
}

/// Puts a read block round its body.
pub fn in_block(alloc: Global, reading: Reading, body: Result<Record, Halt>) -> Result<Record, Halt>
    ensures { (k : Kept) → Follows (then_ended (R reading) (ended_of k body)) (ended_of (R reading (did k body)) result) }
{
    match body {
        Ok(t) => match Record::block(alloc, reading, t) {
            Ok(t) => Ok(t),
            Err(_) => Err(Halt::NoMemory),
        },
        Err(h) => Err(h),
    }
}

/// The environment with a name bound.
pub fn bound_in(
    alloc: Global,
    env: &[Binding],
    name: u16,
    value: Plain,
) -> Result<Vec<Binding>, AllocError>
    ensures { IfOk result (λ more. env_of more.items ≡ bind name (plain_value value) (env_of env.now)) }
{
    let mut more = Vec::from_slice(alloc, env)?;
    bind_to(&mut more, name, value)?;
    Ok(more)
}

/// The environment with the names of reads bound.
pub fn entered(
    alloc: Global,
    env: &[Binding],
    items: &[ReadItem],
    seen: &[Seen],
) -> Result<Vec<Binding>, AllocError>
    ensures { IfOk result (λ more. env_of more.items ≡ with_reads (env_of env.now) items.now (reads_view seen.now)) }
{
    let mut more = Vec::from_slice(alloc, env)?;
    bind_seen(&mut more, items, seen)?;
    Ok(more)
}
