ghost use Rattle.std.specs.Prelude.{◌≡◌, ◌<◌, [], true};
ghost use Rattle.psac_slots.specs.Handles.{Member};
ghost use Rattle.psac_readers.specs.Chained.{mods_of};
ghost use Rattle.psac_readers.specs.Steps.{Has};
ghost use Rattle.psac_values.specs.Knowing.{Has as HasMod};
ghost use Rattle.psac_fork.specs.Whole.{IsOf, HasRoom, AreOfOne};
ghost use Rattle.psac_fork.specs.Parts.{lists, AreParts};

use crate::*;
use psac_marks::MarksSplit;
use psac_model::Caps;
use psac_ops::Handle;
use psac_readers::ReadersSplit;
use psac_values::ValuesSplit;
use std::alloc::Global;
use std::marker::Brand;
use std::sync::atomic::AtomicU64;
use std::sync::atomic::Ordering::SeqCst;
use std::test::Fail;
use std::thread::Threads;

const TURNS: u64 = 100_000_000;

// Holds the left job until the right one has entered.
#[derive(Drop)]
struct Holds {
    right_in: AtomicU64,
    saw_right: AtomicU64,
}

impl Gate for Holds {
    fn enter(&self, side: Side) {
        if side == Side::Right {
            self.right_in.store(1, SeqCst);
            return;
        }
        for _ in 0..TURNS {
            if self.right_in.load(SeqCst) == 1 {
                self.saw_right.store(1, SeqCst);
                return;
            }
        }
    }
}

#[test]
fn both_sides_run_at_once(rt: HostRuntime) -> Result<(), Fail> {
    let crew = Crew::new(2);
    let gate = Holds {
        right_in: AtomicU64::new(0),
        saw_right: AtomicU64::new(0),
    };
    let (a, b) = both(&rt, &crew, &gate, || 1u32 + 1, || 3u32);
    assert!(rt; a == 2 && b == 3 && gate.saw_right.load(SeqCst) == 1);
    Ok(())
}

#[test]
fn one_worker_runs_them_in_turn(rt: HostRuntime) -> Result<(), Fail> {
    let crew = Crew::new(1);
    let (a, b) = both(&rt, &crew, &NoGate, || 1u32, || 2u32);
    assert!(rt; a == 1 && b == 2);
    Ok(())
}

#[test]
fn a_pass_is_split_and_joined(rt: HostRuntime) -> Result<(), Fail> {
    let caps = Caps {
        nodes: 8,
        mods: 2,
        links: 4,
    };
    let (tables, pass) = Tables::new(rt.alloc(), 1, caps)?;
    let (left, mut right) = pass.fork::<Brand>(&tables);
    let claimed = tables.values.claim(&mut right.values).ok();
    let mut pass = Pass::join(left, right, &tables).regain(&tables);
    let m = claimed.expect(&rt, "a slot");
    let live = tables.values.is_live(&mut pass.values, m);
    assert!(rt; live && m.slot == 1 && pass.depth == 0);
    Ok(())
}

const INPUT: Handle = Handle {
    slot: 0,
    generation: 0,
};

// A division by which both sides may enter each set, and the left one keeps all else.
struct SharesSets;

impl ValuesSplit for SharesSets {
    ghost use Rattle.std.specs.Prelude.{false};

    ghost shared = { λ _. false };

    ghost to_right = { λ _. false };
}

impl ReadersSplit for SharesSets {
    ghost use Rattle.std.specs.Prelude.{true, false};

    ghost set_shared = { λ _. true };

    ghost set_right = { λ _. false };

    ghost link_right = { λ _. false };
}

impl MarksSplit for SharesSets {
    ghost use Rattle.std.specs.Prelude.{false};

    ghost node_shared = { λ _. false };

    ghost node_right = { λ _. false };
}

impl PassSplit for SharesSets {}

// Makes a modifiable, and a node that reads the input and is marked.
fn make(tables: &Tables, mut pass: Pass) -> (bool, Pass)
    requires of { IsOf pass tables.now }
    requires room { HasRoom pass }
    requires inside { 0 < pass.readers.knows.mods }
    requires set { Has 0 pass.readers.knows }
    ensures of { AreOfOne pass result.1 }
    ensures branch { result.1.values.knows.claims.branch ≡ pass.values.knows.claims.branch }
    ensures shared { result.1.readers.knows.shared ≡ pass.readers.knows.shared }
    ensures mods { result.1.readers.knows.mods ≡ pass.readers.knows.mods }
{
    let Ok(_) = tables.values.claim(&mut pass.values) else {
        return (false, pass);
    };
    let Ok(node) = tables.marks.claim(&mut pass.marks, None) else {
        return (false, pass);
    };
    tables.marks.raise(&mut pass.marks, node);
    let marked = tables.marks.is_marked(&mut pass.marks, node);
    let entered = tables.readers.enter(&mut pass.readers, INPUT, node).is_ok();
    (marked && entered, pass)
}

// Both sides of a fork make what the one above does.
fn both_make(rt: &(impl Threads + Sync), tables: &Tables, pass: Pass) -> (bool, Pass)
    requires of { IsOf pass tables.now }
    requires room { HasRoom pass }
    requires top { pass.depth ≡ 0 }
    requires inside { 0 < pass.readers.knows.mods }
    requires mine { Member 0 (mods_of pass.readers.knows.walk) }
    ensures of { IsOf result.1 tables.now }
    ensures inside { 0 < result.1.readers.knows.mods }
    ensures walk { Member 0 (mods_of result.1.readers.knows.walk) }
{
    let (left, right) = pass.fork::<SharesSets>(tables);
    let crew = Crew::new(2);
    let ((lefts, left), (rights, right)) = both(
        rt,
        &crew,
        &NoGate,
        move || -> (bool, Pass)
            requires { IsOf left tables.now × HasRoom left × (0 < left.readers.knows.mods) × Has 0 left.readers.knows }
            ensures { AreOfOne left result.1 × (result.1.values.knows.claims.branch ≡ left.values.knows.claims.branch) × (result.1.readers.knows.shared ≡ left.readers.knows.shared) × (result.1.readers.knows.mods ≡ left.readers.knows.mods) }
        { make(tables, left) },
        move || -> (bool, Pass)
            requires { IsOf right tables.now × HasRoom right × (0 < right.readers.knows.mods) × Has 0 right.readers.knows }
            ensures { AreOfOne right result.1 × (result.1.values.knows.claims.branch ≡ right.values.knows.claims.branch) }
        { make(tables, right) },
    );
    (
        lefts && rights,
        Pass::join(left, right, tables).regain(tables),
    )
}

// How many links a walk of the input's set gives, of two at most.
fn links(tables: &Tables, pass: &mut Pass) -> u32
    requires of { IsOf pass.old tables.now }
    requires inside { 0 < pass.old.readers.knows.mods }
    requires walk { Member 0 (mods_of pass.old.readers.knows.walk) }
{
    let Some(first) = tables.readers.first(&mut pass.readers, INPUT) else {
        return 0;
    };
    match tables.readers.next(&mut pass.readers, first) {
        Some(_) => 2,
        None => 1,
    }
}

#[test]
fn both_sides_use_all_tables(rt: HostRuntime) -> Result<(), Fail> {
    let caps = Caps {
        nodes: 8,
        mods: 2,
        links: 4,
    };
    let (tables, pass) = Tables::new(rt.alloc(), 1, caps)?;
    let (made, mut pass) = both_make(&rt, &tables, pass);
    let links = links(&tables, &mut pass);
    assert!(rt; made && links == 2 && pass.depth == 0);
    Ok(())
}

// What is read of a modifiable once the right side of a tree, which has it, wrote it.
fn written_on_the_right(
    tables: &Tables,
    pass: Pass,
    left: &Part,
    right: &Part,
    m: Handle,
) -> [u64; 3]
    requires of { IsOf pass tables.now }
    requires room { HasRoom pass }
    requires top { pass.depth ≡ 0 }
    requires parts { AreParts left.now.nodes.items right.now.nodes.items pass.marks.knows }
    requires mine { HasMod pass.values.knows m }
    requires goes { lists right.now.mods.items m.slot ≡ true }
{
    let (_left, mut right) = fork_sides(tables, pass, left, right);
    tables.values.write(&mut right.values, m, [7, 8, 9]);
    tables.values.read(&mut right.values, m)
}

#[test]
fn a_side_writes_what_it_has(rt: HostRuntime) -> Result<(), Fail> {
    let caps = Caps {
        nodes: 8,
        mods: 2,
        links: 4,
    };
    let (tables, pass) = Tables::new(rt.alloc(), 1, caps)?;
    let mut right = nothing(rt.alloc());
    right.mods.push(INPUT)?;
    let left = nothing(rt.alloc());
    assert!(rt; written_on_the_right(&tables, pass, &left, &right, INPUT) == [7, 8, 9]);
    Ok(())
}

// A part with nothing in it.
fn nothing(alloc: Global) -> Part
    ensures { (result.nodes.items ≡ []) × (result.mods.items ≡ []) }
{
    Part {
        nodes: Vec::new(alloc),
        links: Vec::new(alloc),
        mods: Vec::new(alloc),
    }
}
