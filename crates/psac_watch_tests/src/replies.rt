// What is written of a session that is watched, and what its eye was shown.
use crate::notes::Notes;
use crate::outside::{shelf, words};
use psac_base::{MemSink, MemSource};
use psac_fork::NoGate;
use psac_model::Shown;
use psac_publish::Seen;
use psac_watch::watch;
use std::test::Fail;

const SCRIPT: &str = "commit\nshow\ntree\nset 0 0 5\ncommit\nshow\n";

const REPORT: &str =
    "mode=anew visited=0 rerun=0 inside=7 dropped=0 nodes=34 mods=6 links=10\nout = 10\nS=24 P=3 R=7 mods=6 links=10\nmode=repair visited=16 rerun=3 inside=0 dropped=0 nodes=0 mods=0 links=0\nout = 14\nwatched 2\n";

// Whether the value is that of so many commits, with this one output.
fn shows(seen: &Seen, commit: u64, sum: i64) -> bool {
    match &seen.outputs {
        Some(outputs) => {
            let first = outputs.as_slice().first().copied();
            seen.commit == commit && first == Some(Shown::Int(sum))
        }
        None => false,
    }
}

#[test]
fn replies_and_the_number_of_commits(rt: HostRuntime) -> Result<(), Fail> {
    let alloc = rt.alloc();
    let words = words(alloc)?;
    let mut shelf = shelf(&rt, alloc, "1\n2\n3\n4\n")?;
    let bytes = Vec::from_slice(alloc, SCRIPT.as_bytes())?;
    let mut script = MemSource::new(bytes, 4096, Vec::new(alloc));
    let Ok(mut out) = MemSink::new(alloc, 1000, 1000, Vec::new(alloc)) else {
        return Err("memory")?;
    };
    let eye = Notes::new(alloc, 3)?;
    let (status, eye) = watch(
        &rt,
        alloc,
        &words,
        &mut shelf,
        &mut script,
        &mut out,
        &NoGate,
        eye,
    );
    assert_eq!(rt; status.code, 0);
    assert_eq!(rt; out.bytes(), Some(REPORT.as_bytes()));
    let Some(last) = eye.values.last() else {
        return Err("nothing was shown")?;
    };
    assert!(rt; !eye.is_over && shows(last, 2, 14));
    Ok(())
}
