// Texts that are compared with the record of a run.
use crate::whole::{CUT, CUT_LINE, FAULT_LINE, RAGGED, RAGGED_LINE, USAGE, gives, tells};
use psac_cases::programs::{DOUBLE, TWO_FAULTS};
use psac_cases::{Case, Outside, SMALL, SOUND, run_of};
use std::alloc::Global;
use std::thread::Threads;

const CERTIFY: &str = "psac certify p.psac i.txt";

const DUMP: &str = "psac record 1\nS\nR 0 out=&o/0 | c/0/0=21\nW o/0 42\nE\nE\n";

fn certify<'a>(program: &'a str, input: &'a str, text: &'a str) -> Case<'a> {
    Case {
        options: SMALL,
        ..run_of(CERTIFY, program, input, text)
    }
}

const OTHER: &str = "psac record 1\nS\nR 0 out=&o/0 | c/0/0=21\nW o/0 43\nE\nE\n";

const SHORTER: &str = "psac record 1\nS\nR 0 out=&o/0 | c/0/0=21\nW o/0 42\nE\nE";

const LONGER: &str = "psac record 1\nS\nR 0 out=&o/0 | c/0/0=21\nW o/0 42\nE\nE\n\n";

#[test]
fn verdicts(rt: HostRuntime) {
    let alloc = rt.alloc();
    assert!(rt; tells(&rt, alloc, CERTIFY, (DOUBLE, "21\n", DUMP), 0, "yes\n"));
    assert!(rt; tells(&rt, alloc, CERTIFY, (DOUBLE, "21\n", OTHER), 0, "no 47\n"));
    assert!(rt; tells(&rt, alloc, CERTIFY, (DOUBLE, "21\n", SHORTER), 0, "no 52\n"));
    assert!(rt; tells(&rt, alloc, CERTIFY, (DOUBLE, "21\n", LONGER), 0, "no 53\n"));
    assert!(rt; tells(&rt, alloc, CERTIFY, (DOUBLE, "21\n", ""), 0, "no 0\n"));
    assert!(rt; tells(&rt, alloc, CERTIFY, (DOUBLE, "22\n", DUMP), 0, "no 38\n"));
}

// Whether a run whose record is too large has no verdict.
fn is_full<Rt: Threads + Sync>(rt: &Rt, alloc: Global) -> bool {
    let case = Case {
        options: "--nodes 1",
        ..certify(DOUBLE, "21\n", DUMP)
    };
    gives(rt, alloc, &case, 0, "full\n")
}

#[test]
fn runs_without_a_verdict(rt: HostRuntime) {
    let alloc = rt.alloc();
    assert!(rt; tells(&rt, alloc, CERTIFY, (TWO_FAULTS, "", DUMP), 0, FAULT_LINE));
    assert!(rt; tells(&rt, alloc, CERTIFY, (TWO_FAULTS, "", ""), 0, FAULT_LINE));
    assert!(rt; is_full(&rt, alloc));
}

// Whether the dump is found to be so in this outside.
fn ends<Rt: Threads + Sync>(
    rt: &Rt,
    alloc: Global,
    outside: Outside,
    code: u8,
    text: &str,
) -> bool {
    let case = Case {
        outside,
        ..certify(DOUBLE, "21\n", DUMP)
    };
    gives(rt, alloc, &case, code, text)
}

#[test]
fn reads_that_fail(rt: HostRuntime) {
    let alloc = rt.alloc();
    let by_byte = Outside {
        by_byte: true,
        ..SOUND
    };
    assert!(rt; ends(&rt, alloc, by_byte, 0, "yes\n"));
    assert!(rt; ends(&rt, alloc, Outside { read: 1, ..SOUND }, 6, ""));
    assert!(rt; ends(&rt, alloc, Outside { read: 2, ..SOUND }, 6, ""));
    assert!(rt; ends(&rt, alloc, Outside { read: 5, ..by_byte }, 6, ""));
}

#[test]
fn loads_and_writes_that_fail(rt: HostRuntime) {
    let alloc = rt.alloc();
    assert!(rt; ends(&rt, alloc, Outside { load: 1, ..SOUND }, 3, ""));
    assert!(rt; ends(&rt, alloc, Outside { load: 2, ..SOUND }, 3, ""));
    assert!(rt; ends(&rt, alloc, Outside { write: 1, ..SOUND }, 7, ""));
    let cut = Outside {
        by_byte: true,
        write: 3,
        ..SOUND
    };
    assert!(rt; ends(&rt, alloc, cut, 7, "ye"));
}

#[test]
fn other_words_and_files(rt: HostRuntime) {
    let alloc = rt.alloc();
    let sound = (DOUBLE, "21\n", DUMP);
    let ragged = (DOUBLE, RAGGED, DUMP);
    assert!(rt; tells(&rt, alloc, "psac certify p.psac", sound, 2, USAGE));
    assert!(rt;
        tells(
            &rt,
            alloc,
            "psac certify p.psac i.txt more",
            sound,
            2,
            USAGE
        )
    );
    assert!(rt;
        tells(
            &rt,
            alloc,
            "psac certify p.psac i.csv",
            ragged,
            5,
            RAGGED_LINE
        )
    );
    assert!(rt; tells(&rt, alloc, CERTIFY, (CUT, "", DUMP), 4, CUT_LINE));
}
