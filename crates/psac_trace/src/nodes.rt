//! Nodes and links that are claimed before a body runs.
ghost use Rattle.std.specs.Prelude.{◌≡◌, List, [], ◌∷◌, map, IfOk, IfErr};
ghost use Rattle.psac_ops.specs.declared.plain.Handle.{Handle};
ghost use Rattle.psac_readers.specs.declared.readers.Link.{Link as Entered};
ghost use Rattle.psac_fork.specs.Whole.{IsOf, HasRoom};
ghost use Rattle.psac_marks.specs.Passes.{Keeps};
ghost use Rattle.psac_traced.specs.Holds.{EachOf};
ghost use Rattle.psac_record.specs.declared.parts.Reading.{Reading as Begun};
ghost use Rattle.psac_record.specs.declared.parts.Seen.{Seen as Linked};
ghost use Rattle.psac_record.specs.Kept.{reads_of, stands, env_of as kept_env_of};
ghost use Rattle.psac_plain.specs.Slots.{env_of};
ghost use Rattle.psac_plain.specs.Running.{reads_view};
ghost use Rattle.psac_trace.specs.Fit.{Fit, ParentKept, AtHand};
ghost use Rattle.psac_trace.specs.Rights.{Sees, Tidy};
ghost use Rattle.psac_trace.specs.Running.{Opens, HaltsFor, nodes_only, links_only, Began, read_made};

use crate::halt::Halt;
use psac_fork::{Pass, Tables};
use psac_model::CapKind;
use psac_ops::Handle;
use psac_plain::ask::Seen;
use psac_plain::binding::Binding;
use psac_readers::Link;
use psac_record::{Binding as Bound, Reading, Seen as Saw};
use std::alloc::{AllocError, Global};

/// A node below its parent.
pub fn stepped(
    tables: &Tables,
    parent: Option<Handle>,
    mut pass: Pass,
) -> (Result<Handle, Halt>, Pass)
    requires of { IsOf pass tables.now }
    requires room { HasRoom pass }
    requires tidy { Tidy pass.values.knows }
    requires fit { Fit pass }
    requires parent { ParentKept parent pass.marks.knows }
    ensures ok { IfOk result.0 (λ h. Opens tables.now pass result.1 (nodes_only ((h, parent) ∷ [])) × Keeps result.1.marks.knows h) }
    ensures err { (h : Handle) → IfErr result.0 (HaltsFor tables.now pass result.1 (nodes_only ((h, parent) ∷ []))) }
{
    match tables.marks.claim(&mut pass.marks, parent) {
        Ok(node) => (Ok(node), pass),
        Err(full) => (Err(Halt::Full(CapKind::Nodes, full)), pass),
    }
}

// A link in the set of a modifiable.
fn entered(
    tables: &Tables,
    node: Handle,
    from: Handle,
    mut pass: Pass,
) -> (Result<Link, Halt>, Pass)
    requires of { IsOf pass tables.now }
    requires room { HasRoom pass }
    requires tidy { Tidy pass.values.knows }
    requires fit { Fit pass }
    requires hand { AtHand from.slot pass.readers.knows }
    ensures ok { IfOk result.0 (λ l. Opens tables.now pass result.1 (links_only (record { link = l; of = from; node = node } ∷ []))) }
    ensures err { (l : Entered) → IfErr result.0 (HaltsFor tables.now pass result.1 (links_only (record { link = l; of = from; node = node } ∷ []))) }
{
    match tables.readers.enter(&mut pass.readers, from, node) {
        Ok(link) => (Ok(link), pass),
        Err(full) => (Err(Halt::Full(CapKind::Links, full)), pass),
    }
}

// A link for each read, in the set of the modifiable that was read.
fn linked(
    alloc: Global,
    tables: &Tables,
    node: Handle,
    seen: &[Seen],
    pass: Pass,
) -> (Result<Vec<Saw>, Halt>, Pass)
    requires of { IsOf pass tables.now }
    requires room { HasRoom pass }
    requires tidy { Tidy pass.values.knows }
    requires fit { Fit pass }
    requires sights { EachOf (Sees pass.values.knows) (reads_view seen.now) }
    ensures ok { IfOk result.0 (λ all. Opens tables.now pass result.1 (links_only (map (stands node) all.items)) × (reads_of all.items ≡ reads_view seen.now)) }
    ensures err { IfErr result.0 (λ halt. (all : List Linked) × (reads_of all ≡ reads_view seen.now) × HaltsFor tables.now pass result.1 (links_only (map (stands node) all)) halt) }
{
    let mut all = Vec::new(alloc);
    let mut pass = pass;
    for s in seen {
        let (entry, after) = entered(tables, node, s.from, pass);
        pass = after;
        match entry {
            Ok(link) => {
                let saw = Saw {
                    from: s.from,
                    link,
                    value: s.value,
                };
                match all.push(saw) {
                    Ok(()) => {}
                    Err(_) => return (Err(Halt::NoMemory), pass),
                }
            }
            Err(halt) => return (Err(halt), pass),
        }
    }
    (Ok(all), pass)
}

// The environment as a record keeps it: when it is looked at again, none of its modifiables is of that commit.
fn kept_env(alloc: Global, env: &[Binding]) -> Result<Vec<Bound>, AllocError>
    ensures { IfOk result (λ all. kept_env_of all.items ≡ env_of env.now) }
{
    let mut all = Vec::new(alloc);
    for b in env {
        all.push(Bound {
            name: b.name,
            made: false,
            value: b.value,
        })?;
    }
    Ok(all)
}

// What a read block began with.
fn begun(
    alloc: Global,
    node: Handle,
    number: u32,
    level: u32,
    env: &[Binding],
    reads: &[Saw],
) -> Result<Reading, AllocError>
    ensures { IfOk result (λ r. Began level number (env_of env.now) (reads_of reads.now) r × (r.node ≡ node) × (r.reads ≡ reads.now)) }
{
    let env = kept_env(alloc, env)?;
    Reading::new(alloc, node, number, level, &env, reads)
}

/// The nodes of a read statement and of its block, and the links of its reads.
pub fn opened(
    alloc: Global,
    tables: &Tables,
    parent: Option<Handle>,
    level: u32,
    number: u32,
    env: &[Binding],
    seen: &[Seen],
    pass: Pass,
) -> (Result<(Handle, Reading), Halt>, Pass)
    requires of { IsOf pass tables.now }
    requires room { HasRoom pass }
    requires tidy { Tidy pass.values.knows }
    requires fit { Fit pass }
    requires parent { ParentKept parent pass.marks.knows }
    requires sights { EachOf (Sees pass.values.knows) (reads_view seen.now) }
    ensures ok { IfOk result.0 (λ r. Opens tables.now pass result.1 (read_made parent r.0 r.1) × Keeps result.1.marks.knows r.0 × Keeps result.1.marks.knows r.1.node × Began level number (env_of env.now) (reads_view seen.now) r.1) }
    ensures err { IfErr result.0 (λ halt. (h : Handle) × (r : Begun) × Began level number (env_of env.now) (reads_view seen.now) r × HaltsFor tables.now pass result.1 (read_made parent h r) halt) }
{
    let (first, pass) = stepped(tables, parent, pass);
    let node = match first {
        Ok(node) => node,
        Err(halt) => return (Err(halt), pass),
    };
    let (second, pass) = stepped(tables, Some(node), pass);
    let block = match second {
        Ok(block) => block,
        Err(halt) => return (Err(halt), pass),
    };
    let (all, pass) = linked(alloc, tables, block, seen, pass);
    match all {
        Ok(all) => match begun(alloc, block, number, level, env, &all) {
            Ok(reading) => (Ok((node, reading)), pass),
            Err(_) => (Err(Halt::NoMemory), pass),
        },
        Err(halt) => (Err(halt), pass),
    }
}
