ghost use Rattle.std.specs.Prelude.{◌≡◌, ℕ, [], ◌<◌, ◌≤◌, length, IfSome};
ghost use Rattle.psac_slots.specs.Handles.{Member};
ghost use Rattle.psac_readers.specs.Chained.{mods_of};
ghost use Rattle.psac_readers.specs.Steps.{Has};
ghost use Rattle.psac_readers.specs.Passes.{OnWalk};

use psac_readers::*;
use std::test::Fail;
use std::thread::{Threads, join};

const SET: Handle = Handle {
    slot: 1,
    generation: 1,
};

// A division by which both sides may enter each set.
struct SharesAll;

impl ReadersSplit for SharesAll {
    ghost use Rattle.std.specs.Prelude.{true, false};

    ghost set_shared = { λ _. true };

    ghost set_right = { λ _. false };

    ghost link_right = { λ _. false };
}

fn handle(slot: u32) -> Handle {
    Handle {
        slot,
        generation: 1,
    }
}

// Enters two nodes, and says whether both went in.
fn enter_two(
    readers: &Readers,
    mut pass: ReadersPass,
    m: Handle,
    nodes: [Handle; 2],
) -> (bool, ReadersPass)
    requires table { pass.table ≡ readers.now }
    requires room { pass.knows.claims.over ≡ 0 }
    requires inside { m.slot < pass.knows.mods }
    requires set { Has m.slot pass.knows }
    ensures table { result.1.table ≡ pass.table }
    ensures branch { result.1.knows.claims.branch ≡ pass.knows.claims.branch }
    ensures shared { result.1.knows.shared ≡ pass.knows.shared }
    ensures walk { mods_of result.1.knows.walk ≡ mods_of pass.knows.walk }
    ensures mods { result.1.knows.mods ≡ pass.knows.mods }
{
    let [first, second] = nodes;
    let Ok(_) = readers.enter(&mut pass, m, first) else {
        return (false, pass);
    };
    let Ok(_) = readers.enter(&mut pass, m, second) else {
        return (false, pass);
    };
    (true, pass)
}

// The slot of a link's node, and the next link.
fn step(
    readers: &Readers,
    pass: &mut ReadersPass,
    m: Handle,
    at: Option<Link>,
) -> (Option<u32>, Option<Link>)
    requires table { pass.old.table ≡ readers.now }
    requires on { IfSome at (λ l. OnWalk pass.old.knows m.slot l.index) }
    ensures same { pass.new ≡ pass.old }
    ensures next { IfSome result.1 (λ l. OnWalk pass.old.knows m.slot l.index) }
{
    let Some(link) = at else {
        return (None, None);
    };
    let node = readers.node(pass, link);
    let next = readers.next(pass, link);
    (Some(node.slot), next)
}

// The nodes' slots of a walk's first five links.
fn walked(readers: &Readers, pass: &mut ReadersPass, m: Handle) -> [Option<u32>; 5]
    requires table { pass.old.table ≡ readers.now }
    requires inside { m.slot < pass.old.knows.mods }
    requires walk { Member m.slot (mods_of pass.old.knows.walk) }
    ensures table { pass.new.table ≡ pass.old.table }
    ensures inside { m.slot < pass.new.knows.mods }
    ensures walk { Member m.slot (mods_of pass.new.knows.walk) }
{
    let at = readers.first(pass, m);
    let (one, at) = step(readers, pass, m, at);
    let (two, at) = step(readers, pass, m, at);
    let (three, at) = step(readers, pass, m, at);
    let (four, at) = step(readers, pass, m, at);
    let (five, _at) = step(readers, pass, m, at);
    [one, two, three, four, five]
}

// Leaves the first link of a walk.
fn leave_first(readers: &Readers, pass: &mut ReadersPass, m: Handle)
    requires table { pass.old.table ≡ readers.now }
    requires inside { m.slot < pass.old.knows.mods }
    requires walk { Member m.slot (mods_of pass.old.knows.walk) }
    ensures table { pass.new.table ≡ pass.old.table }
    ensures branch { pass.new.knows.claims.branch ≡ pass.old.knows.claims.branch }
    ensures mods { pass.new.knows.mods ≡ pass.old.knows.mods }
    ensures walk { mods_of pass.new.knows.walk ≡ mods_of pass.old.knows.walk }
{
    if let Some(link) = readers.first(pass, m) {
        readers.leave(pass, link);
    }
}

// Of two links one is left, and the set is swept.
fn swept(readers: &Readers, pass: ReadersPass, m: Handle) -> [Option<u32>; 5]
    requires table { pass.table ≡ readers.now }
    requires room { pass.knows.claims.over ≡ 0 }
    requires top { pass.knows.claims.branch ≡ [] }
    requires inside { m.slot < pass.knows.mods }
    requires mine { Member m.slot (mods_of pass.knows.walk) }
{
    let (_entered, mut pass) = enter_two(readers, pass, m, [handle(11), handle(12)]);
    leave_first(readers, &mut pass, m);
    let mut pass = readers.regain(pass);
    readers.sweep(&mut pass, m);
    walked(readers, &mut pass, m)
}

// Of two links one is left, and all are given back.
fn given(readers: &Readers, pass: ReadersPass, m: Handle) -> [Option<u32>; 5]
    requires table { pass.table ≡ readers.now }
    requires room { pass.knows.claims.over ≡ 0 }
    requires top { pass.knows.claims.branch ≡ [] }
    requires inside { m.slot < pass.knows.mods }
    requires sets { (x : ℕ) → x < pass.knows.mods → Member x (mods_of pass.knows.walk) }
{
    let (_entered, mut pass) = enter_two(readers, pass, m, [handle(11), handle(12)]);
    leave_first(readers, &mut pass, m);
    let mut pass = readers.regain(pass);
    readers.give_all(&mut pass);
    walked(readers, &mut pass, m)
}

#[test]
fn a_walk_gives_the_live_links(rt: HostRuntime) -> Result<(), Fail> {
    let (readers, pass) = Readers::new(rt.alloc(), 2, 8)?;
    let (entered, mut pass) = enter_two(&readers, pass, SET, [handle(11), handle(12)]);
    let found = walked(&readers, &mut pass, SET);
    assert!(rt; entered && found == [Some(12), Some(11), None, None, None]);
    leave_first(&readers, &mut pass, SET);
    let found = walked(&readers, &mut pass, SET);
    assert!(rt; found == [Some(11), None, None, None, None]);
    Ok(())
}

#[test]
fn dead_links_are_swept(rt: HostRuntime) -> Result<(), Fail> {
    let (readers, pass) = Readers::new(rt.alloc(), 2, 8)?;
    assert!(rt; swept(&readers, pass, SET) == [Some(11), None, None, None, None]);
    let (readers, pass) = Readers::new(rt.alloc(), 2, 8)?;
    assert!(rt; given(&readers, pass, SET) == [None, None, None, None, None]);
    Ok(())
}

// Both sides of a fork enter two nodes each, in two threads.
fn both_enter(
    rt: &impl Threads,
    readers: &Readers,
    pass: ReadersPass,
    m: Handle,
) -> (bool, ReadersPass)
    requires table { pass.table ≡ readers.now }
    requires room { pass.knows.claims.over ≡ 0 }
    requires top { pass.knows.claims.branch ≡ [] }
    requires inside { m.slot < pass.knows.mods }
    requires mine { Member m.slot (mods_of pass.knows.walk) }
    ensures table { result.1.table ≡ pass.table }
    ensures inside { m.slot < result.1.knows.mods }
    ensures walk { Member m.slot (mods_of result.1.knows.walk) }
{
    let (left, right) = readers.fork::<SharesAll>(pass);
    let ((lefts, left), (rights, right)) = join(
        rt,
        move || -> (bool, ReadersPass)
            requires { (left.table ≡ readers.now) × (left.knows.claims.over ≡ 0) × (m.slot < left.knows.mods) × Has m.slot left.knows }
            ensures { (result.1.table ≡ left.table) × (result.1.knows.claims.branch ≡ left.knows.claims.branch) × (result.1.knows.shared ≡ left.knows.shared) × (result.1.knows.mods ≡ left.knows.mods) }
        { enter_two(readers, left, m, [handle(11), handle(12)]) },
        move || -> (bool, ReadersPass)
            requires { (right.table ≡ readers.now) × (right.knows.claims.over ≡ 0) × (m.slot < right.knows.mods) × Has m.slot right.knows }
            ensures { (result.1.table ≡ right.table) × (result.1.knows.claims.branch ≡ right.knows.claims.branch) }
        { enter_two(readers, right, m, [handle(13), handle(14)]) },
    );
    (lefts && rights, readers.regain(readers.join(left, right)))
}

#[test]
fn two_sides_enter_one_set(rt: HostRuntime) -> Result<(), Fail> {
    let (readers, pass) = Readers::new(rt.alloc(), 2, 8)?;
    let (entered, mut pass) = both_enter(&rt, &readers, pass, SET);
    let found = walked(&readers, &mut pass, SET);
    assert!(rt; entered && found[4] == None);
    for slot in [11, 12, 13, 14] {
        assert!(rt; found.contains(&Some(slot)));
    }
    Ok(())
}
