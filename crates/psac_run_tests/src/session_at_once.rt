// Both sides of a `par` at once, in a run and in a repair.
ghost use Rattle.std.specs.Prelude.{◌≡◌};
ghost use Rattle.psac_engine.specs.Engine.{commits_in};

use crate::opening::{Opening, crew, opened};
use psac_cases::programs::SUM;
use psac_engine::{Answer, Engine};
use psac_fork::{Crew, Gate, NoGate, Side};
use psac_inputs::{Batch, Interner};
use psac_model::{Caps, Mode, Shown, Work};
use psac_ops::Plain;
use psac_session::once;
use std::alloc::Global;
use std::sync::atomic::AtomicU64;
use std::sync::atomic::Ordering::SeqCst;
use std::test::Fail;
use std::thread::Threads;

const TURNS: u64 = 100_000_000;

// Holds the left side until the right one has entered, for so many turns.
#[derive(Drop)]
struct Holds {
    right_in: AtomicU64,
    saw_right: AtomicU64,
}

impl Holds {
    fn new() -> Holds {
        Holds {
            right_in: AtomicU64::new(0),
            saw_right: AtomicU64::new(0),
        }
    }

    fn has_seen_right(&self) -> bool {
        self.saw_right.load(SeqCst) == 1
    }
}

impl Gate for Holds {
    fn enter(&self, side: Side) {
        if side == Side::Right {
            self.right_in.store(1, SeqCst);
            return;
        }
        for _ in 0..TURNS {
            if self.right_in.load(SeqCst) == 1 {
                self.saw_right.store(1, SeqCst);
                return;
            }
        }
    }
}

// Two cells, with room for the record of their sum and no more.
fn of_two<'a>(program: &'a str, input: &'a str) -> Opening<'a> {
    Opening {
        program,
        input,
        room: 2,
        caps: Caps {
            nodes: 14,
            mods: 2,
            links: 4,
        },
        workers: 2,
    }
}

fn is_text(bytes: &Vec<u8>, text: &str) -> bool {
    bytes.as_slice() == text.as_bytes()
}

// With two workers the right side of a par begins while the left one waits for it.
#[test]
fn both_sides_run_at_once(rt: HostRuntime) -> Result<(), Fail> {
    let alloc = rt.alloc();
    let Ok(mut texts) = Interner::new(alloc) else {
        return Err("memory")?;
    };
    let mut engine = opened(alloc, &of_two(SUM, "1\n2\n"), &mut texts)?;
    let gate = Holds::new();
    let Ok(text) = once(&rt, alloc, &mut engine, &texts, &crew(2)?, &gate) else {
        return Err("memory")?;
    };
    assert!(rt; is_text(&text, "out = 3\n"));
    assert!(rt; gate.has_seen_right());
    Ok(())
}

// The engine's first commit, and a second one in which both cells change, under the gate.
fn repaired<Rt: Threads + Sync>(
    rt: &Rt,
    alloc: Global,
    engine: &mut Engine,
    crew: &Crew,
    gate: &Holds,
) -> Result<Result<Work, Answer>, Fail>
    requires { commits_in engine.old ≡ 0 }
{
    let Ok(mut batch) = Batch::new(alloc, engine.grid()) else {
        return Err("memory")?;
    };
    if engine.commit(rt, &mut batch, crew, &NoGate).is_err() {
        return Err("the first commit")?;
    }
    if batch.set(0, 0, Plain::Int(10)).is_err() || batch.set(1, 0, Plain::Int(20)).is_err() {
        return Err("no such cells")?;
    }
    Ok(engine.commit(rt, &mut batch, crew, gate))
}

// The same in a repair, whose walk comes to both sides.
#[test]
fn both_sides_are_repaired_at_once(rt: HostRuntime) -> Result<(), Fail> {
    let alloc = rt.alloc();
    let Ok(mut texts) = Interner::new(alloc) else {
        return Err("memory")?;
    };
    let mut engine = opened(alloc, &of_two(SUM, "1\n2\n"), &mut texts)?;
    let gate = Holds::new();
    let told = repaired(&rt, alloc, &mut engine, &crew(2)?, &gate)?;
    let Ok(work) = told else {
        return Err("the second commit")?;
    };
    assert!(rt; work.mode == Mode::Repair && work.rerun == 3);
    let Ok(Some(shown)) = engine.shown() else {
        return Err("memory")?;
    };
    assert!(rt; shown.as_slice() == [Shown::Int(30)].as_slice());
    assert!(rt; gate.has_seen_right());
    Ok(())
}
