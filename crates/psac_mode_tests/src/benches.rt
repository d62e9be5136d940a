use crate::whole::{USAGE, gives, tells};
use psac_cases::programs::{DOUBLE, SUM, TWO_FAULTS};
use psac_cases::{Case, Outside, SMALL, SOUND, run_of};
use std::alloc::Global;
use std::thread::Threads;

const FOUR: &str = "psac bench p.psac 4x1";

const REPAIRED: &str =
    "cells=4 batches=1 repaired=1 anew=1 failed=0 visited=34 rerun=7 inside=7 dropped=0\nout = 1042\n";

const NO_BATCH: &str =
    "cells=1 batches=0 repaired=0 anew=1 failed=0 visited=0 rerun=0 inside=1 dropped=0\nout = 22\n";

const FAULTY: &str =
    "cells=4 batches=2 repaired=0 anew=0 failed=3 visited=0 rerun=0 inside=0 dropped=0\nnone\n";

const FULL: &str =
    "cells=4 batches=1 repaired=0 anew=0 failed=2 visited=0 rerun=0 inside=0 dropped=0\nnone\n";

const NO_PROGRAM: &str = "program line 1 column 1 syntax\n";

// Whether the bench of a program ends with the status and writes the text.
fn ends<Rt: Threads + Sync>(
    rt: &Rt,
    alloc: Global,
    words: &str,
    program: &str,
    code: u8,
    text: &str,
) -> bool {
    tells(rt, alloc, words, (program, "", ""), code, text)
}

#[test]
fn benches(rt: HostRuntime) {
    let alloc = rt.alloc();
    assert!(rt; ends(&rt, alloc, FOUR, SUM, 0, REPAIRED));
    assert!(rt; ends(&rt, alloc, "psac bench p.psac 1x0", DOUBLE, 0, NO_BATCH));
    assert!(rt; ends(&rt, alloc, "psac bench p.psac 4x2", TWO_FAULTS, 0, FAULTY));
}

// Whether a bench whose record has a node too much ends so.
fn is_full<Rt: Threads + Sync>(rt: &Rt, alloc: Global) -> bool {
    let case = Case {
        options: "--nodes 33 --mods 100 --links 100",
        ..run_of(FOUR, SUM, "", "")
    };
    gives(rt, alloc, &case, 0, FULL)
}

#[test]
fn benches_over_a_cap(rt: HostRuntime) {
    assert!(rt; is_full(&rt, rt.alloc()));
}

#[test]
fn benches_that_give_no_report(rt: HostRuntime) {
    let alloc = rt.alloc();
    assert!(rt; ends(&rt, alloc, "psac bench p.psac i.txt", DOUBLE, 2, USAGE));
    assert!(rt; ends(&rt, alloc, "psac bench p.psac 65537x1", DOUBLE, 2, USAGE));
    assert!(rt; ends(&rt, alloc, "psac bench q.psac 4x1", DOUBLE, 3, ""));
    assert!(rt; ends(&rt, alloc, FOUR, "", 4, NO_PROGRAM));
}

// Whether a bench in this outside ends with the status and writes nothing.
fn stops<Rt: Threads + Sync>(rt: &Rt, alloc: Global, outside: Outside, code: u8) -> bool {
    let case = Case {
        options: SMALL,
        outside,
        ..run_of(FOUR, DOUBLE, "", "")
    };
    gives(rt, alloc, &case, code, "")
}

#[test]
fn benches_whose_outside_fails(rt: HostRuntime) {
    let alloc = rt.alloc();
    assert!(rt; stops(&rt, alloc, Outside { load: 1, ..SOUND }, 3));
    assert!(rt; stops(&rt, alloc, Outside { write: 1, ..SOUND }, 7));
}
