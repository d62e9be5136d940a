use crate::opening::{CAPS, Opening, carried};
use psac_cases::programs::{COUPLE, REFERENCE, SUM};
use psac_session::SessionEnd;
use std::alloc::Global;
use std::process::Abort;
use std::test::Fail;
use std::thread::Threads;

const MADE: &str = "mode=anew visited=0 rerun=0 inside=2 dropped=0 nodes=4 mods=1 links=2\n";

// The block that makes a modifiable runs again, and makes another one.
const REPLACED: &str = "mode=repair visited=2 rerun=1 inside=0 dropped=0 nodes=0 mods=1 links=0\n";

const OTHER: &str = "mode=repair visited=3 rerun=1 inside=0 dropped=0 nodes=0 mods=0 links=0\n";

// A session that ends well writes this.
fn writes<Rt: Threads + Abort + Sync>(
    rt: &Rt,
    alloc: Global,
    program: &str,
    input: &str,
    script: &[&str],
    report: &[&str],
) -> Result<(), Fail> {
    let mut lines = String::new(alloc);
    for line in script {
        lines.push_str(line)?;
    }
    let opening = Opening {
        program,
        input,
        room: 4,
        caps: CAPS,
        workers: 1,
    };
    let (end, written) = carried(rt, alloc, opening, &lines)?;
    assert_eq!(rt; end, SessionEnd::Done);
    let mut wanted = Vec::new(alloc);
    for text in report {
        wanted.extend_from_slice(text.as_bytes())?;
    }
    assert_eq!(rt; written.as_slice(), wanted.as_slice());
    Ok(())
}

#[test]
fn places_turn_stale(rt: HostRuntime) -> Result<(), Fail> {
    let alloc = rt.alloc();
    let script = [
        "commit\nhold 0 out 0\nhold 1 ref 0\nheld 1\n",
        "set 1 0 9\ncommit\nheld 1\n",
        "set 0 0 5\ncommit\nheld 1\nhold 2 ref 0\nheld 2\n",
        "set 0 0 6\ncommit\nheld 1\nheld 2\nheld 0\n",
    ];
    let report = [
        MADE,
        "held 1 = 7\n",
        OTHER,
        "held 1 = 7\n",
        REPLACED,
        "stale\nheld 2 = 5\n",
        REPLACED,
        "stale\nstale\nheld 0 = ref\n",
    ];
    writes(&rt, alloc, REFERENCE, "7\n8\n", &script, &report)
}

#[test]
fn parts_of_a_pair_are_held(rt: HostRuntime) -> Result<(), Fail> {
    let alloc = rt.alloc();
    let script = [
        "commit\nhold 0 out 0\nhold 1 fst 0\nhold 2 snd 0\nhold 3 ref 0\nhold 3 fst 9\n",
        "held 0\nheld 1\nheld 2\n",
        "set 0 0 8\ncommit\nheld 2\n",
    ];
    let report = [
        "mode=anew visited=0 rerun=0 inside=0 dropped=0 nodes=0 mods=1 links=0\n",
        "refused kind\nrefused empty\nheld 0 = pair\nheld 1 = 5\nheld 2 = 7\n",
        "mode=repair visited=0 rerun=0 inside=0 dropped=0 nodes=0 mods=0 links=0\n",
        "held 2 = 8\n",
    ];
    writes(&rt, alloc, COUPLE, "7\n", &script, &report)
}

#[test]
fn places_before_a_commit(rt: HostRuntime) -> Result<(), Fail> {
    let alloc = rt.alloc();
    let script = ["show\ntree\nset 4 0 1\nheld 5\nhold 64 out 0\nhold 5 out 0\nheld 5\n"];
    let report = ["none\nnone\nrefused range\nrefused empty\nrefused range\nnone\n"];
    writes(&rt, alloc, SUM, "1\n2\n3\n4\n", &script, &report)
}
