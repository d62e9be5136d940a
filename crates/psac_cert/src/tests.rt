use super::*;
use psac_base::MemSink;
use psac_inputs::{Interner, load_lines};
use psac_lang::parse;
use psac_ops::{Handle, Plain};
use psac_readers::Link;
use psac_record::{Binding, Reading, Record, Seen};
use std::alloc::{AllocError, Global};
use std::test::Fail;

const DOUBLE: &str = "func main(; out) { read cell(0, 0) as x { write out = x * 2; } }";

fn fixed(slot: u32) -> Handle {
    Handle {
        slot,
        generation: 0,
    }
}

fn made(slot: u32) -> Handle {
    Handle {
        slot,
        generation: 1,
    }
}

fn bound(name: u16, value: Plain) -> Binding {
    Binding {
        name,
        made: false,
        value,
    }
}

fn seen(from: Handle, value: Plain) -> Seen {
    Seen {
        from,
        link: Link { index: 0 },
        value,
    }
}

// What the doubling program does over one cell; the output has the slot behind the cell.
fn doubled(alloc: Global) -> Result<Record, AllocError> {
    let env = [bound(1, Plain::Ref(fixed(1)))];
    let reads = [seen(fixed(0), Plain::Int(21))];
    let reading = Reading::new(alloc, made(0), 0, 1, &env, &reads)?;
    let write = Record::wrote(alloc, fixed(1), Plain::Int(42), Record::empty())?;
    let block = Record::block(alloc, reading, write)?;
    Record::step(alloc, made(0), block, Record::empty())
}

// Two modifiables made, one before a `par` and one on its right side, with values of each kind.
fn sides(alloc: Global) -> Result<Record, AllocError> {
    let pair = Plain::Pair(made(4), made(3));
    let write = Record::wrote(alloc, made(4), pair, Record::empty())?;
    let right = Record::made(alloc, made(4), write)?;
    let env = [bound(1, Plain::Nil), bound(0, Plain::Bool(true))];
    let reads = [
        seen(fixed(2), Plain::Int(-1)),
        seen(made(3), Plain::Ref(fixed(0))),
    ];
    let reading = Reading::new(alloc, made(0), 7, 1, &env, &reads)?;
    let left = Record::block(alloc, reading, Record::empty())?;
    let both = Record::both(alloc, made(1), left, right)?;
    let par = Record::step(alloc, made(2), both, Record::empty())?;
    Record::made(alloc, made(3), par)
}

// What the text is found to be beside the record of the doubling program over one cell.
fn found(alloc: Global, text: &[u8]) -> Result<Verdict, Fail> {
    let mut texts = Interner::new(alloc)?;
    let Ok(grid) = load_lines(alloc, b"21\n", &mut texts) else {
        return Err("no input")?;
    };
    let Ok(program) = parse(alloc, DOUBLE.as_bytes()) else {
        return Err("no program")?;
    };
    let record = doubled(alloc)?;
    Ok(compare(alloc, &record, &program, &grid, &texts, text)?)
}

// The dump of a record of the doubling program over one cell.
fn dump_of(alloc: Global, record: &Record) -> Result<MemSink, Fail> {
    let mut texts = Interner::new(alloc)?;
    let Ok(grid) = load_lines(alloc, b"21\n", &mut texts) else {
        return Err("no input")?;
    };
    let Ok(program) = parse(alloc, DOUBLE.as_bytes()) else {
        return Err("no program")?;
    };
    let mut out = MemSink::new(alloc, 1000, 7, Vec::new(alloc))?;
    match dump(alloc, record, &program, &grid, &texts, &mut out) {
        Ok(()) => Ok(out),
        Err(_) => Err("no dump")?,
    }
}

fn holds(out: &MemSink, text: &[u8]) -> bool {
    match out.bytes() {
        Some(bytes) => bytes == text,
        None => false,
    }
}

#[test]
fn dumps_the_doubling_program(rt: HostRuntime) -> Result<(), Fail> {
    let alloc = rt.alloc();
    let record = doubled(alloc)?;
    let out = dump_of(alloc, &record)?;
    assert!(rt;
        holds(
            &out,
            b"psac record 1\nS\nR 0 out=&o/0 | c/0/0=21\nW o/0 42\nE\nE\n"
        )
    );
    Ok(())
}

#[test]
fn names_what_was_made_by_its_turns(rt: HostRuntime) -> Result<(), Fail> {
    let alloc = rt.alloc();
    let record = sides(alloc)?;
    let out = dump_of(alloc, &record)?;
    assert!(rt;
        holds(
            &out,
            b"psac record 1\nA\nS\nP\nR 7 out=nil main=true | r=-1 m/=&c/0/0\nE\nA\nW m/301 &m/301,m/\nE\nE\n"
        )
    );
    Ok(())
}

#[test]
fn finds_its_dump_and_where_others_part_from_it(rt: HostRuntime) -> Result<(), Fail> {
    let alloc = rt.alloc();
    let whole = b"psac record 1\nS\nR 0 out=&o/0 | c/0/0=21\nW o/0 42\nE\nE\n";
    assert!(rt; found(alloc, whole)? == Verdict::Yes);
    assert!(rt; found(alloc, &whole[..52])? == Verdict::No { at: 52 });
    let other = b"psac record 1\nS\nR 0 out=&o/0 | c/0/0=21\nW o/0 43\nE\nE\n";
    assert!(rt; found(alloc, other)? == Verdict::No { at: 47 });
    let longer = b"psac record 1\nS\nR 0 out=&o/0 | c/0/0=21\nW o/0 42\nE\nE\n\n";
    assert!(rt; found(alloc, longer)? == Verdict::No { at: 53 });
    assert!(rt; found(alloc, b"psac 1\n")? == Verdict::No { at: 5 });
    assert!(rt; found(alloc, b"")? == Verdict::No { at: 0 });
    Ok(())
}
