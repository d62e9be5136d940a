use crate::opening::{CAPS, Opening, run};
use psac_base::{MemSink, MemSource};
use psac_cases::programs::DOUBLE;
use psac_session::SessionEnd;
use std::alloc::Global;
use std::process::Abort;
use std::test::Fail;
use std::thread::Threads;

// The call of the source that fails and that of the sink, the script, the end and what is written.
fn ends<Rt: Threads + Abort + Sync>(
    rt: &Rt,
    alloc: Global,
    fails: (u64, u64),
    script: Vec<u8>,
    told: (SessionEnd, &str),
) -> Result<(), Fail> {
    let mut script = MemSource::new(script, 4096, vec![in alloc; fails.0]?);
    let Ok(mut out) = MemSink::new(alloc, 1000, 1000, vec![in alloc; fails.1]?) else {
        return Err("memory")?;
    };
    let opening = Opening {
        program: DOUBLE,
        input: "21\n",
        room: 1,
        caps: CAPS,
        workers: 1,
    };
    let end = run(rt, alloc, opening, &mut script, &mut out)?;
    assert_eq!(rt; end, told.0);
    assert_eq!(rt; out.bytes(), Some(told.1.as_bytes()));
    Ok(())
}

#[test]
fn failures(rt: HostRuntime) -> Result<(), Fail> {
    let alloc = rt.alloc();
    let work = "mode=anew visited=0 rerun=0 inside=1 dropped=0 nodes=2 mods=0 links=1\nout = 42\n";
    let bytes = Vec::from_slice(alloc, b"commit\nshow\nshow\n")?;
    ends(&rt, alloc, (1, 0), bytes, (SessionEnd::SourceFailed, ""))?;
    let bytes = Vec::from_slice(alloc, b"commit\nshow\nshow\n")?;
    ends(&rt, alloc, (0, 3), bytes, (SessionEnd::SinkFailed, work))?;
    let bytes = Vec::from_slice(alloc, b"commit\nshow\nsho")?;
    ends(&rt, alloc, (2, 0), bytes, (SessionEnd::SourceFailed, work))
}
