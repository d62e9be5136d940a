// The outside fails in turn, files and scripts are as bad as can be, and memory is refused.
use crate::whole::{ends, gives};
use psac_cases::programs::{COPY, DOUBLE, INNER, SUM};
use psac_cases::{Case, Outside, SOUND, run_of};
use std::alloc::{AllocError, Global};
use std::thread::Threads;

const SESSION: &str = "psac session p.psac i.txt";

// The report of a session over the sum of two cells, whose replies end at 71, 79 and 107 bytes.
const REPORT: &str =
    "mode=anew visited=0 rerun=0 inside=3 dropped=0 nodes=14 mods=2 links=4\nout = 3\nS=10 P=1 R=3 mods=2 links=4\n";

// Whether that session ends so in this outside, and writes so many bytes of the report.
fn stops<Rt: Threads + Sync>(
    rt: &Rt,
    alloc: Global,
    outside: Outside,
    code: u8,
    count: usize,
) -> bool {
    let case = Case {
        options: "--nodes 14 --mods 2 --links 4",
        outside,
        ..run_of(SESSION, SUM, "1\n2\n", "commit\nshow\ntree\n")
    };
    match ends(rt, alloc, &case) {
        Ok((status, parts)) => status == code
            && parts.out.bytes() == REPORT.as_bytes().get(..count),
        Err(_) => false,
    }
}

// The same where this write of a whole reply fails.
fn stops_at_write<Rt: Threads + Sync>(
    rt: &Rt,
    alloc: Global,
    write: u64,
    code: u8,
    count: usize,
) -> bool {
    stops(rt, alloc, Outside { write, ..SOUND }, code, count)
}

#[test]
fn failing_writes_of_replies(rt: HostRuntime) {
    assert!(rt; stops_at_write(&rt, rt.alloc(), 0, 0, 107));
    assert!(rt; stops_at_write(&rt, rt.alloc(), 1, 7, 0));
    assert!(rt; stops_at_write(&rt, rt.alloc(), 2, 7, 71));
    assert!(rt; stops_at_write(&rt, rt.alloc(), 3, 7, 79));
}

#[test]
fn failing_writes_of_bytes(rt: HostRuntime) {
    for written in 0..107usize {
        let outside = Outside {
            by_byte: true,
            write: written as u64 + 1,
            ..SOUND
        };
        assert!(rt;
            stops(&rt, rt.alloc(), outside, 7, written),
            "after {written}"
        );
    }
}

// What is answered where this read of a single byte fails: the script's lines end with reads 7, 12 and 17.
fn answered_before(read: u64) -> usize {
    match read {
        1..=7 => 0,
        8..=12 => 71,
        13..=17 => 79,
        _ => 107,
    }
}

#[test]
fn failing_reads(rt: HostRuntime) {
    for read in 1..19u64 {
        let outside = Outside {
            by_byte: true,
            read,
            ..SOUND
        };
        let stopped = stops(&rt, rt.alloc(), outside, 6, answered_before(read));
        assert!(rt; stopped, "at call {read}");
    }
}

const CUT: &str = "func main(; out) { write out = ; }";

const LINE: &str = "program line 1 column 32 syntax\n";

// Whether a run with this load and this write failing ends so.
fn fails<Rt: Threads + Sync>(
    rt: &Rt,
    alloc: Global,
    run: (&str, &str),
    load: u64,
    write: u64,
    end: (u8, &str),
) -> bool {
    let (words, program) = run;
    let case = Case {
        options: "--nodes 14 --mods 2 --links 4",
        outside: Outside {
            load,
            write,
            ..SOUND
        },
        ..run_of(words, program, "1\n2\n", "commit\n")
    };
    let (code, text) = end;
    gives(rt, alloc, &case, code, text)
}

#[test]
fn failures_before_a_script(rt: HostRuntime) {
    let alloc = rt.alloc();
    assert!(rt; fails(&rt, alloc, (SESSION, SUM), 1, 0, (3, "")));
    assert!(rt; fails(&rt, alloc, (SESSION, SUM), 2, 0, (3, "")));
    assert!(rt; fails(&rt, alloc, (SESSION, CUT), 1, 0, (3, "")));
    assert!(rt; fails(&rt, alloc, (SESSION, CUT), 2, 0, (4, LINE)));
    assert!(rt; fails(&rt, alloc, (SESSION, CUT), 0, 1, (7, "")));
    assert!(rt; fails(&rt, alloc, ("psac session p.psac", SUM), 0, 1, (7, "")));
}

#[test]
fn failures_of_one_run(rt: HostRuntime) {
    let alloc = rt.alloc();
    let once = "psac once p.psac i.txt";
    assert!(rt; fails(&rt, alloc, (once, DOUBLE), 1, 0, (3, "")));
    assert!(rt; fails(&rt, alloc, (once, DOUBLE), 2, 0, (3, "")));
    assert!(rt; fails(&rt, alloc, (once, CUT), 2, 0, (4, LINE)));
    assert!(rt; fails(&rt, alloc, (once, DOUBLE), 0, 1, (7, "")));
}

#[test]
fn files_past_a_limit(rt: HostRuntime) -> Result<(), AllocError> {
    let alloc = rt.alloc();
    let large = vec![in alloc; b' '; 16_777_217]?;
    let long = vec![in alloc; b' '; 65_537]?;
    let case = Case {
        options: "--nodes 2 --mods 1 --links 1",
        ..run_of(SESSION, COPY, "7\n", "commit\n")
    };
    let program = Case {
        program: large.as_slice(),
        ..case
    };
    assert!(rt; gives(&rt, alloc, &program, 3, ""));
    let program = Case {
        program: long.as_slice(),
        ..case
    };
    assert!(rt; gives(&rt, alloc, &program, 4, "program line 1 limit 1\n"));
    let input = Case {
        input: large.as_slice(),
        ..case
    };
    assert!(rt; gives(&rt, alloc, &input, 3, ""));
    let script = Case {
        script: large.as_slice(),
        ..case
    };
    assert!(rt; gives(&rt, alloc, &script, 8, ""));
    Ok(())
}

// Whether the whole text is written, or a first part of it where memory ran out. What the test itself asks for may
// be refused too.
fn gives_part<Rt: Threads + Sync>(rt: &Rt, alloc: Global, case: &Case<'_>, text: &str) -> bool {
    let Ok((code, parts)) = ends(rt, alloc, case) else {
        return true;
    };
    let Some(written) = parts.out.bytes() else {
        return false;
    };
    match code {
        0 => written == text.as_bytes(),
        9 => text.as_bytes().get(..written.len()) == Some(written),
        _ => false,
    }
}

// A session with room for the sum of four cells and no more.
fn tight<'a>(program: &'a str, input: &'a str, script: &'a str) -> Case<'a> {
    Case {
        options: "--nodes 34 --mods 6 --links 10",
        ..run_of(SESSION, program, input, script)
    }
}

// Holds whichever request for memory is refused: `rt try --test --fail-alloc N`.
#[test]
fn refused_memory(rt: HostRuntime) {
    let case = Case {
        options: "--nodes 34 --mods 6 --links 10",
        ..run_of("psac once p.psac i.txt", DOUBLE, "21\n", "")
    };
    assert!(rt; gives_part(&rt, rt.alloc(), &case, "out = 42\n"));
    let case = tight(SUM, "1\n2\n3\n4\n", "commit\nshow\ntree\n");
    let text =
        "mode=anew visited=0 rerun=0 inside=7 dropped=0 nodes=34 mods=6 links=10\nout = 10\nS=24 P=3 R=7 mods=6 links=10\n";
    assert!(rt; gives_part(&rt, rt.alloc(), &case, text));
}

// The same with a repair.
#[test]
fn refused_memory_of_repairs(rt: HostRuntime) {
    let case = tight(SUM, "1\n2\n3\n4\n", "commit\nset 0 0 5\ncommit\nshow\n");
    let text =
        "mode=anew visited=0 rerun=0 inside=7 dropped=0 nodes=34 mods=6 links=10\nmode=repair visited=16 rerun=3 inside=0 dropped=0 nodes=0 mods=0 links=0\nout = 14\n";
    assert!(rt; gives_part(&rt, rt.alloc(), &case, text));
    let case = tight(INNER, "11\n", "commit\nshow\nset 0 0 12\ncommit\nshow\n");
    let text =
        "mode=anew visited=0 rerun=0 inside=3 dropped=0 nodes=6 mods=2 links=3\nout = 1\nmode=repair visited=4 rerun=2 inside=1 dropped=1 nodes=2 mods=1 links=1\nout = 1\n";
    assert!(rt; gives_part(&rt, rt.alloc(), &case, text));
}
