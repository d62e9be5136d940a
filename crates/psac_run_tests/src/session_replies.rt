use crate::opening::{CAPS, Opening, carried};
use psac_cases::programs::DOUBLE;
use psac_session::SessionEnd;
use std::alloc::Global;
use std::process::Abort;
use std::test::Fail;
use std::thread::Threads;

const ONE: &str = "mode=anew visited=0 rerun=0 inside=1 dropped=0 nodes=2 mods=0 links=1\n";

// The one block runs again, and makes what it made before.
const AGAIN: &str = "mode=repair visited=2 rerun=1 inside=0 dropped=0 nodes=0 mods=0 links=0\n";

// A session that ends well writes this.
fn writes<Rt: Threads + Abort + Sync>(
    rt: &Rt,
    alloc: Global,
    opening: Opening<'_>,
    script: &str,
    report: &[&str],
) -> Result<(), Fail> {
    let (end, written) = carried(rt, alloc, opening, script)?;
    assert_eq!(rt; end, SessionEnd::Done);
    let mut wanted = Vec::new(alloc);
    for text in report {
        wanted.extend_from_slice(text.as_bytes())?;
    }
    assert_eq!(rt; written.as_slice(), wanted.as_slice());
    Ok(())
}

fn over<'a>(program: &'a str, input: &'a str) -> Opening<'a> {
    Opening {
        program,
        input,
        room: 4,
        caps: CAPS,
        workers: 1,
    }
}

#[test]
fn commits_and_shows(rt: HostRuntime) -> Result<(), Fail> {
    let alloc = rt.alloc();
    let script = "show\ncommit\nshow\nset 0 0 5\nshow\ncommit\nshow\nquit\nshow\n";
    let report = [
        "none\n",
        ONE,
        "out = 42\n",
        "out = 42\n",
        AGAIN,
        "out = 10\n",
    ];
    writes(&rt, alloc, over(DOUBLE, "21\n"), script, &report)
}
