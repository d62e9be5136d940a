// The record of one run as text.
use crate::whole::{CUT, CUT_LINE, FAULT_LINE, RAGGED, RAGGED_LINE, USAGE, gives, tells};
use psac_cases::programs::{DOUBLE, TWO_FAULTS};
use psac_cases::{Case, Outside, SMALL, SOUND, run_of};
use std::alloc::Global;
use std::thread::Threads;

const WORDS: &str = "psac dump p.psac i.txt";

const DUMP: &str = "psac record 1\nS\nR 0 out=&o/0 | c/0/0=21\nW o/0 42\nE\nE\n";

fn dump<'a>(program: &'a str, input: &'a str) -> Case<'a> {
    Case {
        options: SMALL,
        ..run_of(WORDS, program, input, "")
    }
}

// Whether a run whose record is too large has no dump.
fn is_full<Rt: Threads + Sync>(rt: &Rt, alloc: Global) -> bool {
    let case = Case {
        options: "--nodes 1",
        ..dump(DOUBLE, "21\n")
    };
    gives(rt, alloc, &case, 0, "full\n")
}

#[test]
fn records_of_runs(rt: HostRuntime) {
    let alloc = rt.alloc();
    let empty = ("func main(;) { }", "", "");
    assert!(rt; tells(&rt, alloc, WORDS, (DOUBLE, "21\n", ""), 0, DUMP));
    assert!(rt; tells(&rt, alloc, WORDS, empty, 0, "psac record 1\nE\n"));
    assert!(rt; tells(&rt, alloc, WORDS, (TWO_FAULTS, "", ""), 0, FAULT_LINE));
    assert!(rt; is_full(&rt, alloc));
}

// Whether a dump in this outside ends so.
fn ends<Rt: Threads + Sync>(
    rt: &Rt,
    alloc: Global,
    outside: Outside,
    code: u8,
    text: &str,
) -> bool {
    let case = Case {
        outside,
        ..dump(DOUBLE, "21\n")
    };
    gives(rt, alloc, &case, code, text)
}

#[test]
fn outsides_that_fail(rt: HostRuntime) {
    let alloc = rt.alloc();
    let by_byte = Outside {
        by_byte: true,
        ..SOUND
    };
    assert!(rt; ends(&rt, alloc, by_byte, 0, DUMP));
    assert!(rt; ends(&rt, alloc, Outside { load: 1, ..SOUND }, 3, ""));
    assert!(rt; ends(&rt, alloc, Outside { load: 2, ..SOUND }, 3, ""));
    assert!(rt; ends(&rt, alloc, Outside { write: 1, ..SOUND }, 7, ""));
    assert!(rt;
        ends(
            &rt,
            alloc,
            Outside { write: 2, ..SOUND },
            7,
            "psac record 1\n"
        )
    );
    let cut = Outside {
        write: 4,
        ..by_byte
    };
    assert!(rt; ends(&rt, alloc, cut, 7, "psa"));
}

#[test]
fn other_words_and_files(rt: HostRuntime) {
    let alloc = rt.alloc();
    let sound = (DOUBLE, "21\n", "");
    let ragged = (DOUBLE, RAGGED, "");
    assert!(rt; tells(&rt, alloc, "psac dump p.psac", sound, 2, USAGE));
    assert!(rt; tells(&rt, alloc, "psac dump p.psac i.txt more", sound, 2, USAGE));
    assert!(rt; tells(&rt, alloc, "psac dump p.psac i.csv", ragged, 5, RAGGED_LINE));
    assert!(rt; tells(&rt, alloc, WORDS, (CUT, "", ""), 4, CUT_LINE));
}
