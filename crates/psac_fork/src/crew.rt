//! A crew's permits, and two jobs run under them.
ghost use Rattle.std.specs.Prelude.{◌≡◌, ℕ, ◌+◌, ◌<◌, ◌≤◌};

use std::sync::atomic::AtomicU64;
use std::sync::atomic::Ordering::SeqCst;
use std::thread::{Threads, join};

/// Which of two jobs.
#[derive(Clone, Copy, Debug, PartialEq, Eq)]
pub enum Side {
    Left,
    Right,
}

/// What each job enters before it begins. A gate has no answer, and changes nothing that a clause names.
pub trait Gate {
    fn enter(&self, side: Side);
}

/// A gate that holds nobody.
#[derive(Clone, Copy, Debug, Drop)]
pub struct NoGate;

impl Gate for NoGate {
    fn enter(&self, _side: Side) {}
}

/// How many jobs may run beside their left neighbours: one fewer than there are workers.
#[derive(Drop)]
pub struct Crew {
    permits: AtomicU64,
}

impl Crew {
    /// A crew of 1 to 64 workers.
    pub fn new(workers: u32) -> Crew
        requires { (1 ≤ workers) × (workers ≤ 64) }
    {
        Crew {
            permits: AtomicU64::new(u64::from(workers - 1)),
        }
    }

    // One compare_exchange tries for a permit; where another thread was faster the job runs without one.
    fn take(&self) -> bool {
        let seen = self.permits.load(SeqCst);
        seen > 0
            && self
                .permits
                .compare_exchange(seen, seen - 1, SeqCst, SeqCst)
                .is_ok()
    }

    fn give_back(&self) {
        self.permits.fetch_add(1, SeqCst);
    }
}

/// The answers of both jobs. They run at once, as two joined threads, where a permit is free, and else the left
/// one before the right one. Each enters the gate first.
pub fn both<
    Rt: Threads + Sync,
    G: Gate + Sync,
    A: Send,
    B: Send,
    F: FnOnce() -> A + Send,
    H: FnOnce() -> B + Send,
>(rt: &Rt, crew: &Crew, gate: &G, f: F, h: H) -> (A, B)
    requires { F.pre f × H.pre h }
    ensures left { F.post f result.0 }
    ensures right { H.post h result.1 }
{
    if crew.take() {
        let answers = join(
            rt,
            || {
                gate.enter(Side::Left);
                f()
            },
            || {
                gate.enter(Side::Right);
                h()
            },
        );
        crew.give_back();
        return answers;
    }
    gate.enter(Side::Left);
    let left = f();
    gate.enter(Side::Right);
    (left, h())
}
