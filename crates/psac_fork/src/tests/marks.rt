ghost use Rattle.std.specs.Prelude.{◌≡◌, ℕ, List, [], ◌∷◌, true, Some, None, IfSome};
ghost use Rattle.psac_slots.specs.Claiming as claiming;
ghost use Rattle.psac_marks.specs.Marked.{Place};
ghost use Rattle.psac_marks.specs.Passes.{Owns, Keeps, Leads};

use psac_marks::*;
use std::test::Fail;
use std::thread::{Threads, join};

// A division that shares all nodes.
struct SharesAll;

impl MarksSplit for SharesAll {
    ghost use Rattle.std.specs.Prelude.{true, false};

    ghost node_shared = { λ _. true };

    ghost node_right = { λ _. false };
}

// How two sides take their turns.
#[derive(Clone, Copy)]
enum Turns {
    LeftFirst,
    RightFirst,
    Threads,
}

// A root and a child of it.
fn root_and_child(marks: &Marks, mut pass: MarksPass) -> Option<(Handle, Handle, MarksPass)>
    requires table { pass.table ≡ marks.now }
    requires room { pass.knows.claims.over ≡ 0 }
    requires kept { pass.knows.dropped ≡ [] }
    ensures table { IfSome result (λ r. r.2.table ≡ pass.table) }
    ensures room { IfSome result (λ r. r.2.knows.claims.over ≡ 0) }
    ensures kept { IfSome result (λ r. r.2.knows.dropped ≡ []) }
    ensures branch { IfSome result (λ r. r.2.knows.claims.branch ≡ pass.knows.claims.branch) }
    ensures own { IfSome result (λ r. r.2.knows.own ≡ record { node = r.1; parent = Some r.0.slot } ∷ record { node = r.0; parent = None } ∷ pass.knows.own) }
{
    let Ok(root) = marks.claim(&mut pass, None) else {
        return None;
    };
    let Ok(child) = marks.claim(&mut pass, Some(root)) else {
        return None;
    };
    Some((root, child, pass))
}

// Whether these four nodes are marked.
fn asked(
    marks: &Marks,
    pass: &mut MarksPass,
    root: Handle,
    child: Handle,
    one: Handle,
    two: Handle,
) -> [bool; 4]
    requires table { pass.old.table ≡ marks.now }
    requires root { Owns pass.old.knows root }
    requires child { Owns pass.old.knows child }
    requires one { Owns pass.old.knows one }
    requires two { Owns pass.old.knows two }
    ensures table { pass.new.table ≡ pass.old.table }
    ensures own { pass.new.knows.own ≡ pass.old.knows.own }
    ensures dropped { pass.new.knows.dropped ≡ pass.old.knows.dropped }
    ensures shared { pass.new.knows.shared ≡ pass.old.knows.shared }
    ensures claims { pass.new.knows.claims ≡ pass.old.knows.claims }
    ensures marked { pass.new.knows.marked ≡ pass.old.knows.marked }
    ensures busy { pass.new.knows.busy ≡ pass.old.knows.busy }
{
    let at_root = marks.is_marked(pass, root);
    let at_child = marks.is_marked(pass, child);
    let at_one = marks.is_marked(pass, one);
    let at_two = marks.is_marked(pass, two);
    [at_root, at_child, at_one, at_two]
}

// Below a root's child are two nodes. What is marked after a raise of the first, and then of the second.
fn raise_two(marks: &Marks, pass: MarksPass) -> Option<([bool; 4], [bool; 4])>
    requires table { pass.table ≡ marks.now }
    requires room { pass.knows.claims.over ≡ 0 }
    requires kept { pass.knows.dropped ≡ [] }
{
    let (root, child, mut pass) = root_and_child(marks, pass)?;
    let Ok(one) = marks.claim(&mut pass, Some(child)) else {
        return None;
    };
    let Ok(two) = marks.claim(&mut pass, Some(child)) else {
        return None;
    };
    marks.raise(&mut pass, one);
    let first = asked(marks, &mut pass, root, child, one, two);
    marks.raise(&mut pass, two);
    let second = asked(marks, &mut pass, root, child, one, two);
    Some((first, second))
}

#[test]
fn a_raise_stops_at_a_mark(rt: HostRuntime) -> Result<(), Fail> {
    let (marks, pass) = Marks::new(rt.alloc(), 4)?;
    let (first, second) = raise_two(&marks, pass).expect(&rt, "four nodes");
    assert!(rt; first == [true, true, true, false]);
    assert!(rt; second == [true, true, true, true]);
    Ok(())
}

// Claims a node below one that the pass has, and raises it.
fn raise_below(marks: &Marks, mut pass: MarksPass, parent: Handle) -> (Option<Handle>, MarksPass)
    requires table { pass.table ≡ marks.now }
    requires room { pass.knows.claims.over ≡ 0 }
    requires parent { Keeps pass.knows parent }
    requires path { (path : List Place) × Leads pass.knows parent.slot path }
    ensures table { result.1.table ≡ pass.table }
    ensures branch { result.1.knows.claims.branch ≡ pass.knows.claims.branch }
    ensures shared { result.1.knows.shared ≡ pass.knows.shared }
    ensures own { IfSome result.0 (λ h. Owns result.1.knows h) }
{
    let Ok(node) = marks.claim(&mut pass, Some(parent)) else {
        return (None, pass);
    };
    marks.raise(&mut pass, node);
    (Some(node), pass)
}

// Two sides raise a node each below a shared one.
fn raise_both(
    rt: &impl Threads,
    marks: &Marks,
    left: MarksPass,
    right: MarksPass,
    parent: Handle,
    turns: Turns,
) -> ((Option<Handle>, MarksPass), (Option<Handle>, MarksPass))
    requires table { (left.table ≡ marks.now) × (right.table ≡ marks.now) }
    requires room { (left.knows.claims.over ≡ 0) × (right.knows.claims.over ≡ 0) }
    requires parent { Keeps left.knows parent × Keeps right.knows parent }
    requires path { ((path : List Place) × Leads left.knows parent.slot path) × ((path : List Place) × Leads right.knows parent.slot path) }
    ensures table { (result.0.1.table ≡ left.table) × (result.1.1.table ≡ right.table) }
    ensures branch { (result.0.1.knows.claims.branch ≡ left.knows.claims.branch) × (result.1.1.knows.claims.branch ≡ right.knows.claims.branch) }
    ensures shared { result.0.1.knows.shared ≡ left.knows.shared }
    ensures one { IfSome result.0.0 (λ h. Owns result.0.1.knows h) }
    ensures two { IfSome result.1.0 (λ h. Owns result.1.1.knows h) }
{
    match turns {
        Turns::LeftFirst => {
            let first = raise_below(marks, left, parent);
            let second = raise_below(marks, right, parent);
            (first, second)
        }
        Turns::RightFirst => {
            let first = raise_below(marks, right, parent);
            let second = raise_below(marks, left, parent);
            (second, first)
        }
        Turns::Threads => join(
            rt,
            move || -> (Option<Handle>, MarksPass)
                requires { (left.table ≡ marks.now) × (left.knows.claims.over ≡ 0) × Keeps left.knows parent × ((path : List Place) × Leads left.knows parent.slot path) }
                ensures { (result.1.table ≡ left.table) × (result.1.knows.claims.branch ≡ left.knows.claims.branch) × (result.1.knows.shared ≡ left.knows.shared) × IfSome result.0 (λ h. Owns result.1.knows h) }
            { raise_below(marks, left, parent) },
            move || -> (Option<Handle>, MarksPass)
                requires { (right.table ≡ marks.now) × (right.knows.claims.over ≡ 0) × Keeps right.knows parent × ((path : List Place) × Leads right.knows parent.slot path) }
                ensures { (result.1.table ≡ right.table) × (result.1.knows.claims.branch ≡ right.knows.claims.branch) × IfSome result.0 (λ h. Owns result.1.knows h) }
            { raise_below(marks, right, parent) },
        ),
    }
}

// What is marked of a shared root, its shared child, and a node that each side had below that.
fn marked_by_both(
    rt: &impl Threads,
    marks: &Marks,
    pass: MarksPass,
    turns: Turns,
) -> Option<[bool; 4]>
    requires table { pass.table ≡ marks.now }
    requires room { pass.knows.claims.over ≡ 0 }
    requires top { pass.knows.claims.branch ≡ [] }
    requires kept { pass.knows.dropped ≡ [] }
{
    let (root, child, pass) = root_and_child(marks, pass)?;
    let (left, right) = marks.fork::<SharesAll>(pass);
    let ((one, left), (two, right)) = raise_both(rt, marks, left, right, child, turns);
    let (one, two) = (one?, two?);
    let mut pass = marks.join(left, right);
    Some(asked(marks, &mut pass, root, child, one, two))
}

#[test]
fn both_raises_leave_all_four_marked(rt: HostRuntime) -> Result<(), Fail> {
    for turns in [Turns::LeftFirst, Turns::RightFirst, Turns::Threads] {
        let (marks, pass) = Marks::new(rt.alloc(), 4)?;
        let marked = marked_by_both(&rt, &marks, pass, turns).expect(&rt, "four nodes");
        assert!(rt; marked == [true, true, true, true]);
    }
    Ok(())
}

// A raised root: whether it is marked, and whether it still is once it was cleared.
fn raise_and_clear(marks: &Marks, pass: &mut MarksPass) -> Option<(bool, bool)>
    requires table { pass.old.table ≡ marks.now }
    requires room { pass.old.knows.claims.over ≡ 0 }
    requires kept { pass.old.knows.dropped ≡ [] }
    requires empty { pass.old.knows.own ≡ [] }
{
    let Ok(root) = marks.claim(pass, None) else {
        return None;
    };
    marks.raise(pass, root);
    let raised = marks.is_marked(pass, root);
    marks.clear(pass, root);
    let cleared = marks.is_marked(pass, root);
    Some((raised, cleared))
}

#[test]
fn a_clear_takes_the_mark(rt: HostRuntime) -> Result<(), Fail> {
    let (marks, mut pass) = Marks::new(rt.alloc(), 4)?;
    assert!(rt; raise_and_clear(&marks, &mut pass) == Some((true, false)));
    Ok(())
}

// Claims a root and raises it, and gives it back alone or with all others, of which there are none.
fn raise_and_give(marks: &Marks, pass: &mut MarksPass, all: bool) -> bool
    requires table { pass.old.table ≡ marks.now }
    requires sole { claiming.IsSole pass.old.knows.claims }
    requires room { pass.old.knows.claims.over ≡ 0 }
    requires held { pass.old.knows.claims.held ≡ [] }
    requires kept { pass.old.knows.dropped ≡ [] }
    requires empty { pass.old.knows.own ≡ [] }
    ensures table { pass.new.table ≡ pass.old.table }
    ensures room { result ≡ true → pass.new.knows.claims.over ≡ 0 }
    ensures kept { result ≡ true → pass.new.knows.dropped ≡ [] }
{
    let Ok(root) = marks.claim(pass, None) else {
        return false;
    };
    if root.generation == u32::MAX {
        return false;
    }
    marks.raise(pass, root);
    if all {
        marks.give_all(pass);
    } else {
        marks.detach(pass, root);
        marks.release(pass, root);
    }
    true
}

// Two roots, whether the second is marked, and what a third claim says.
fn claim_past_two(marks: &Marks, pass: &mut MarksPass) -> Option<([Handle; 2], bool, Full)>
    requires table { pass.old.table ≡ marks.now }
    requires room { pass.old.knows.claims.over ≡ 0 }
{
    let Ok(first) = marks.claim(pass, None) else {
        return None;
    };
    let Ok(second) = marks.claim(pass, None) else {
        return None;
    };
    let marked = marks.is_marked(pass, second);
    let Err(full) = marks.claim(pass, None) else {
        return None;
    };
    Some(([first, second], marked, full))
}

#[test]
fn what_was_given_comes_back_later(rt: HostRuntime) -> Result<(), Fail> {
    for all in [false, true] {
        let (marks, mut pass) = Marks::new(rt.alloc(), 2)?;
        let gave = raise_and_give(&marks, &mut pass, all);
        assert!(rt; gave);
        let ([first, second], marked, full) = claim_past_two(&marks, &mut pass).expect(&rt, "two");
        assert!(rt; first.slot == 1 && first.generation == 1);
        assert!(rt; second.slot == 0 && second.generation == 2 && !marked);
        assert!(rt; full.index == 2 && full.room == 2);
    }
    Ok(())
}

// A division that sends all nodes to the right.
struct SendsAll;

impl MarksSplit for SendsAll {
    ghost use Rattle.std.specs.Prelude.{true, false};

    ghost node_shared = { λ _. false };

    ghost node_right = { λ _. true };
}

// Whether a root that was raised on the right is marked once both sides have joined, with the pass, which is sole again.
fn raise_on_the_right(marks: &Marks, mut pass: MarksPass) -> Option<(bool, MarksPass)>
    requires table { pass.table ≡ marks.now }
    requires room { pass.knows.claims.over ≡ 0 }
    requires top { pass.knows.claims.branch ≡ [] }
    requires kept { pass.knows.dropped ≡ [] }
    ensures table { IfSome result (λ r. r.1.table ≡ pass.table) }
    ensures sole { IfSome result (λ r. claiming.IsSole r.1.knows.claims) }
{
    let Ok(root) = marks.claim(&mut pass, None) else {
        return None;
    };
    let (left, mut right) = marks.fork::<SendsAll>(pass);
    marks.raise(&mut right, root);
    let mut pass = marks.regain(marks.join(left, right));
    let marked = marks.is_marked(&mut pass, root);
    Some((marked, pass))
}

#[test]
fn a_mark_of_the_right_side_stays(rt: HostRuntime) -> Result<(), Fail> {
    let (marks, pass) = Marks::new(rt.alloc(), 2)?;
    let (marked, mut pass) = raise_on_the_right(&marks, pass).expect(&rt, "two nodes");
    assert!(rt; marked);
    marks.rewind(&mut pass);
    Ok(())
}
