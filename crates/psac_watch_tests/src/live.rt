// A commit is shown while the session goes on.
ghost use Rattle.std.specs.Prelude.{◌≤◌, None};

use crate::outside::{shelf, words};
use psac_base::{MemSink, Source, SourceFailed};
use psac_fork::NoGate;
use psac_publish::Seen;
use psac_watch::{Eye, watch};
use std::sync::atomic::AtomicBool;
use std::sync::atomic::Ordering::SeqCst;
use std::test::Fail;

const TURNS: u32 = 100_000_000;

// Tells that it was shown the value of the first commit.
#[derive(Drop)]
struct Marks<'a> {
    first: &'a AtomicBool,
}

impl Eye for Marks<'_> {
    ghost shown = { λ _. None };

    fn saw(&mut self, seen: &Seen) {
        if seen.commit == 1 {
            self.first.store(true, SeqCst);
        }
    }
}

// Gives one commit, and holds the read behind it until the eye was shown that commit, for so many turns.
#[derive(Drop)]
struct Holds<'a> {
    first: &'a AtomicBool,
    at: usize,
    was_shown: bool,
    ghost within: { at ≤ 7 },
}

impl Holds<'_> {
    // Holds until the eye was shown that commit, and says whether it was.
    fn hold(&self) -> bool {
        for _ in 0..TURNS {
            if self.first.load(SeqCst) {
                return true;
            }
        }
        false
    }
}

impl Source for Holds<'_> {
    ghost left = { λ _. None };

    ghost taken = { λ s. s.at };

    ghost faults = { λ _. 0 };

    fn read(&mut self, into: &mut [u8]) -> Result<usize, SourceFailed> {
        let count = into.len().min(7 - self.at);
        if count == 0 {
            self.was_shown = self.hold();
        }
        let line = *b"commit\n";
        into[..count].copy_from_slice(&line[self.at..self.at + count]);
        self.at += count;
        Ok(count)
    }
}

#[test]
fn a_commit_is_shown_while_the_session_goes_on(rt: HostRuntime) -> Result<(), Fail> {
    let alloc = rt.alloc();
    let words = words(alloc)?;
    let mut shelf = shelf(&rt, alloc, "1\n2\n")?;
    let first = AtomicBool::new(false);
    let mut script = Holds {
        first: &first,
        at: 0,
        was_shown: false,
    };
    let Ok(mut out) = MemSink::new(alloc, 1000, 1000, Vec::new(alloc)) else {
        return Err("memory")?;
    };
    let (status, _) = watch(
        &rt,
        alloc,
        &words,
        &mut shelf,
        &mut script,
        &mut out,
        &NoGate,
        Marks { first: &first },
    );
    let report =
        "mode=anew visited=0 rerun=0 inside=3 dropped=0 nodes=14 mods=2 links=4\nwatched 1\n";
    assert!(rt; status.code == 0 && script.was_shown);
    assert_eq!(rt; out.bytes(), Some(report.as_bytes()));
    Ok(())
}
