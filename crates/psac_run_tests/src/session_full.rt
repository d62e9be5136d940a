use crate::opening::{CAPS, Opening, crew, opened};
use psac_cases::programs::SUM;
use psac_engine::{Answer, Engine};
use psac_fork::NoGate;
use psac_inputs::{Batch, Interner};
use psac_model::{CapKind, Caps, Mode, Shown, Work};
use std::alloc::Global;
use std::test::Fail;
use std::thread::Threads;

type Commit = Result<Work, Answer>;

// What two commits, one after the other, come to over the sum of four cells.
fn two_commits<Rt: Threads + Sync>(
    rt: &Rt,
    alloc: Global,
    caps: Caps,
) -> Result<(Commit, Commit, Engine), Fail> {
    let Ok(mut texts) = Interner::new(alloc) else {
        return Err("memory")?;
    };
    let opening = Opening {
        program: SUM,
        input: "1\n2\n3\n4\n",
        room: 4,
        caps,
        workers: 2,
    };
    let mut engine = opened(alloc, &opening, &mut texts)?;
    let crew = crew(2)?;
    let Ok(mut batch) = Batch::new(alloc, engine.grid()) else {
        return Err("memory")?;
    };
    let first = engine.commit(rt, &mut batch, &crew, &NoGate);
    let second = engine.commit(rt, &mut batch, &crew, &NoGate);
    Ok((first, second, engine))
}

fn is_full(commit: Commit, wanted: CapKind) -> bool {
    match commit {
        Err(Answer::Full { which }) => which == wanted,
        _ => false,
    }
}

// Whether both commits are too large in this.
fn are_full<Rt: Threads + Sync>(
    rt: &Rt,
    alloc: Global,
    caps: Caps,
    wanted: CapKind,
) -> Result<bool, Fail> {
    let (first, second, _) = two_commits(rt, alloc, caps)?;
    Ok(is_full(first, wanted) && is_full(second, wanted))
}

// The sum of four cells has 34 nodes, 6 modifiables and 10 reads.
const ENOUGH: Caps = Caps {
    nodes: 34,
    mods: 6,
    links: 10,
};

#[test]
fn one_too_few(rt: HostRuntime) -> Result<(), Fail> {
    let alloc = rt.alloc();
    let nodes = Caps {
        nodes: 33,
        ..ENOUGH
    };
    assert!(rt; are_full(&rt, alloc, nodes, CapKind::Nodes)?);
    let mods = Caps { mods: 5, ..ENOUGH };
    assert!(rt; are_full(&rt, alloc, mods, CapKind::Mods)?);
    let links = Caps { links: 9, ..ENOUGH };
    assert!(rt; are_full(&rt, alloc, links, CapKind::Links)?);
    Ok(())
}

// The mode of a commit that ended well. Other commits may only be out of memory.
fn mode(commit: Commit) -> Result<Option<Mode>, Fail> {
    match commit {
        Ok(work) => Ok(Some(work.mode)),
        Err(Answer::NoMemory) => Ok(None),
        Err(_) => Err("another answer")?,
    }
}

// Whether the engine shows the sum; nothing where it keeps no run.
fn shows_ten(engine: &mut Engine) -> Result<Option<bool>, Fail> {
    match engine.shown() {
        Ok(Some(values)) => Ok(Some(values.as_slice() == [Shown::Int(10)].as_slice())),
        Ok(None) => Ok(None),
        Err(_) => Err("memory")?,
    }
}

// Whether the commit after one that memory failed runs anew, and any second commit shows what a fresh run gives.
fn is_right(first: Option<Mode>, second: Option<Mode>, shown: Option<bool>) -> bool {
    match second {
        Some(mode) => (first.is_some() || mode == Mode::Anew) && shown == Some(true),
        None => shown.is_none(),
    }
}

// Made for `rt try --test --fail-alloc N`, under which only what the test itself asks for may fail it.
#[test]
fn after_refused_memory(rt: HostRuntime) -> Result<(), Fail> {
    let (first, second, mut engine) = two_commits(&rt, rt.alloc(), CAPS)?;
    assert!(rt; is_right(mode(first)?, mode(second)?, shows_ten(&mut engine)?));
    Ok(())
}
