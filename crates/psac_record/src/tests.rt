use super::*;
use psac_model::Size;
use psac_ops::{Handle, Plain};
use psac_readers::Link;
use std::alloc::{AllocError, Global};
use std::test::Fail;

fn handle(slot: u32) -> Handle {
    Handle {
        slot,
        generation: 1,
    }
}

// A block that reads so many modifiables, and writes one.
fn block(alloc: Global, reads: &[Seen]) -> Result<Record, AllocError> {
    let bound = Binding {
        name: 0,
        made: false,
        value: Plain::Int(7),
    };
    let mut env = Env::new();
    env.push(bound);
    let reading = Reading::new(alloc, handle(5), 0, 3, env.as_slice(), reads)?;
    let write = Record::wrote(alloc, handle(9), Plain::Int(7), Record::empty())?;
    let inner = Record::block(alloc, reading, write)?;
    Record::step(alloc, handle(4), inner, Record::empty())
}

const SEEN: Seen = Seen {
    from: Handle {
        slot: 0,
        generation: 0,
    },
    link: Link { index: 0 },
    value: Plain::Nil,
};

// The sum of two cells: a call with an `if` for each, and one for both.
fn sum_of_two(alloc: Global) -> Result<Record, AllocError> {
    let inner = Record::step(alloc, handle(1), block(alloc, &[SEEN])?, Record::empty())?;
    let left = Record::step(alloc, handle(2), inner, Record::empty())?;
    let inner = Record::step(alloc, handle(1), block(alloc, &[SEEN])?, Record::empty())?;
    let right = Record::step(alloc, handle(2), inner, Record::empty())?;
    let sides = Record::both(alloc, handle(3), left, right)?;
    let par = Record::step(alloc, handle(4), sides, block(alloc, &[SEEN, SEEN])?)?;
    let second = Record::made(alloc, handle(7), par)?;
    let first = Record::made(alloc, handle(6), second)?;
    let chosen = Record::step(alloc, handle(1), first, Record::empty())?;
    Record::step(alloc, handle(0), chosen, Record::empty())
}

const SIZE: Size = Size {
    s: 10,
    p: 1,
    r: 3,
    mods: 2,
    links: 4,
};

#[test]
fn the_sum_of_two_cells_has_fourteen_nodes(rt: HostRuntime) -> Result<(), Fail> {
    let tree = sum_of_two(rt.alloc())?;
    assert!(rt; tree.size() == SIZE && !tree.is_empty());
    assert!(rt; Record::empty().is_empty());
    Ok(())
}

fn sent<T: Send>(value: T) -> T {
    value
}

// Takes both sides of the first `par` out, and puts them back.
fn lifted(tree: Record) -> Record {
    match tree.apart() {
        Part::Step(place, inner, rest) => match inner.apart() {
            Part::Both(sides, left, right) => {
                let both = Part::Both(sides, sent(left), sent(right)).together();
                Part::Step(place, both, rest).together()
            }
            other => Part::Step(place, other.together(), rest).together(),
        },
        other => other.together(),
    }
}

#[test]
fn sides_are_taken_out_and_put_back(rt: HostRuntime) -> Result<(), Fail> {
    let alloc = rt.alloc();
    let left = Record::made(alloc, handle(1), Record::empty())?;
    let sides = Record::both(alloc, handle(2), left, Record::empty())?;
    let tree = Record::step(alloc, handle(3), sides, Record::empty())?;
    let size = tree.size();
    assert!(rt; lifted(tree).size() == size);
    Ok(())
}

fn slot_of(part: &Part) -> Option<u32> {
    match part {
        Part::Made(place, _) => Some(place.modifiable.slot),
        Part::Step(place, _, _) => Some(place.node.slot),
        _ => None,
    }
}

fn first_slot(dropped: &mut Dropped) -> Option<u32> {
    slot_of(&dropped.take()?.apart())
}

#[test]
fn subtrees_come_in_order(rt: HostRuntime) -> Result<(), Fail> {
    let alloc = rt.alloc();
    let mut front = Dropped::new();
    front.add(Record::made(alloc, handle(2), Record::empty())?);
    front.add(Record::made(alloc, handle(1), Record::empty())?);
    let mut back = Dropped::new();
    back.add(Record::empty());
    back.add(Record::made(alloc, handle(3), Record::empty())?);
    let list = front.join(back);
    let mut more = Dropped::new();
    more.add(Record::made(alloc, handle(0), Record::empty())?);
    let mut list = more.join(list);
    assert!(rt; !list.is_empty());
    for slot in 0..4u32 {
        assert!(rt; first_slot(&mut list) == Some(slot));
    }
    assert!(rt; list.is_empty() && list.take().is_none());
    Ok(())
}

#[test]
fn a_subtree_is_taken_part_by_part(rt: HostRuntime) -> Result<(), Fail> {
    let alloc = rt.alloc();
    let rest = Record::made(alloc, handle(2), Record::empty())?;
    let inner = Record::made(alloc, handle(1), Record::empty())?;
    let mut list = Dropped::new();
    list.add(Record::step(alloc, handle(0), inner, rest)?);
    for slot in 0..3u32 {
        let part = list.take_part();
        assert!(rt; part.as_ref().and_then(slot_of) == Some(slot));
    }
    assert!(rt; list.take_part().is_none());
    Ok(())
}

// A list is dropped one by one: as deep as the list is long, the stack would not suffice.
#[test]
fn a_long_list_is_joined_and_let_go(rt: HostRuntime) -> Result<(), Fail> {
    let alloc = rt.alloc();
    let mut list = Dropped::new();
    for slot in 0..300_000u32 {
        let mut one = Dropped::new();
        one.add(Record::made(alloc, handle(slot), Record::empty())?);
        list = list.join(one);
    }
    assert!(rt; first_slot(&mut list) == Some(0));
    Ok(())
}
