ghost use Rattle.std.specs.Prelude.{◌≡◌, [], true};
ghost use Rattle.psac_slots.specs.Claiming as claiming;
ghost use Rattle.psac_values.specs.Knowing.{Has};

use psac_values::*;
use std::marker::Brand;
use std::test::Fail;
use std::thread::join;

// Three claims, or nothing where the table has no three left.
fn claim_three(values: &Values, mut pass: ValuePass) -> (Option<[Handle; 3]>, ValuePass)
    requires table { pass.table ≡ values.now }
    requires room { pass.knows.claims.over ≡ 0 }
    ensures table { result.1.table ≡ pass.table }
    ensures branch { result.1.knows.claims.branch ≡ pass.knows.claims.branch }
{
    let Ok(first) = values.claim(&mut pass) else {
        return (None, pass);
    };
    let Ok(second) = values.claim(&mut pass) else {
        return (None, pass);
    };
    let Ok(third) = values.claim(&mut pass) else {
        return (None, pass);
    };
    (Some([first, second, third]), pass)
}

fn all_live(values: &Values, pass: &mut ValuePass, handles: [Handle; 3]) -> bool
    requires table { pass.old.table ≡ values.now }
    requires sole { claiming.IsSole pass.old.knows.claims }
    ensures same { pass.new ≡ pass.old }
{
    let [first, second, third] = handles;
    let one = values.is_live(pass, first);
    let two = values.is_live(pass, second);
    let three = values.is_live(pass, third);
    one && two && three
}

#[test]
fn two_sides_claim_six_slots(rt: HostRuntime) -> Result<(), Fail> {
    let (table, pass) = Values::new(rt.alloc(), 1, 8)?;
    let values = &table;
    let (left, right) = values.fork::<Brand>(pass);
    let ((lefts, left), (rights, right)) = join(
        &rt,
        move || -> (Option<[Handle; 3]>, ValuePass)
            requires { (left.table ≡ values.now) × (left.knows.claims.over ≡ 0) }
            ensures { (result.1.table ≡ left.table) × (result.1.knows.claims.branch ≡ left.knows.claims.branch) }
        { claim_three(values, left) },
        move || -> (Option<[Handle; 3]>, ValuePass)
            requires { (right.table ≡ values.now) × (right.knows.claims.over ≡ 0) }
            ensures { (result.1.table ≡ right.table) × (result.1.knows.claims.branch ≡ right.knows.claims.branch) }
        { claim_three(values, right) },
    );
    let mut pass = values.regain(values.join(left, right));
    let (lefts, rights) = (lefts.expect(&rt, "three"), rights.expect(&rt, "three"));
    for l in lefts {
        for r in rights {
            assert!(rt; l.slot != r.slot && l.slot > 0 && l.slot < 7 && r.slot < 7);
        }
    }
    let live = all_live(values, &mut pass, lefts) && all_live(values, &mut pass, rights);
    assert!(rt; live);
    Ok(())
}

// A division that shares all that a pass has.
struct SharesAll;

impl ValuesSplit for SharesAll {
    ghost use Rattle.std.specs.Prelude.{true, false};

    ghost shared = { λ s. true };

    ghost to_right = { λ s. false };
}

// What the right side reads of a modifiable that was written before the fork.
fn read_on_the_right(values: &Values, mut pass: ValuePass, m: Handle) -> [u64; 3]
    requires table { pass.table ≡ values.now }
    requires room { pass.knows.claims.over ≡ 0 }
    requires top { pass.knows.claims.branch ≡ [] }
    requires mine { Has pass.knows m }
{
    values.write(&mut pass, m, [7, 8, 9]);
    let (_left, mut right) = values.fork::<SharesAll>(pass);
    values.read(&mut right, m)
}

#[test]
fn a_side_reads_what_was_written_before(rt: HostRuntime) -> Result<(), Fail> {
    let (values, pass) = Values::new(rt.alloc(), 1, 0)?;
    let input = Handle {
        slot: 0,
        generation: 0,
    };
    assert!(rt; read_on_the_right(&values, pass, input) == [7, 8, 9]);
    Ok(())
}

// Claims a slot, and gives it back alone or with all others, of which there are none.
fn claim_and_give(values: &Values, pass: &mut ValuePass, all: bool) -> bool
    requires table { pass.old.table ≡ values.now }
    requires sole { claiming.IsSole pass.old.knows.claims }
    requires room { pass.old.knows.claims.over ≡ 0 }
    requires empty { pass.old.knows.claims.held ≡ [] }
    ensures table { pass.new.table ≡ pass.old.table }
    ensures sole { result ≡ true → claiming.IsSole pass.new.knows.claims }
    ensures room { result ≡ true → pass.new.knows.claims.over ≡ 0 }
{
    let Ok(m) = values.claim(pass) else {
        return false;
    };
    if m.generation == u32::MAX {
        return false;
    }
    if all {
        values.give_all(pass);
    } else {
        values.give(pass, m);
    }
    true
}

// Two claims, and what a third one says.
fn claim_past_two(values: &Values, pass: &mut ValuePass) -> Option<([Handle; 2], Full)>
    requires table { pass.old.table ≡ values.now }
    requires room { pass.old.knows.claims.over ≡ 0 }
{
    let Ok(first) = values.claim(pass) else {
        return None;
    };
    let Ok(second) = values.claim(pass) else {
        return None;
    };
    let Err(full) = values.claim(pass) else {
        return None;
    };
    Some(([first, second], full))
}

#[test]
fn what_was_given_comes_back_later(rt: HostRuntime) -> Result<(), Fail> {
    for all in [false, true] {
        let (values, mut pass) = Values::new(rt.alloc(), 1, 2)?;
        let gave = claim_and_give(&values, &mut pass, all);
        assert!(rt; gave);
        values.rewind(&mut pass);
        let ([first, second], full) = claim_past_two(&values, &mut pass).expect(&rt, "two");
        assert!(rt; first.slot == 2 && first.generation == 1);
        assert!(rt; second.slot == 1 && second.generation == 2);
        assert!(rt; full.index == 2 && full.room == 2);
    }
    Ok(())
}
