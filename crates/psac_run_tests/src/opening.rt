// A session over a column of fields.
ghost use Rattle.std.specs.Prelude.{◌≡◌, IfOk, true};
ghost use Rattle.psac_engine.specs.Commit.{IsCap};
ghost use Rattle.psac_engine.specs.Engine.{commits_in};

use psac_base::{MemSink, MemSource, Sink, Source};
use psac_check::{Checked, check};
use psac_engine::Engine;
use psac_fork::{Crew, NoGate};
use psac_inputs::{Grid, Interner, load_lines};
use psac_lang::parse;
use psac_model::Caps;
use psac_session::{SessionEnd, session};
use std::alloc::Global;
use std::test::Fail;
use std::thread::Threads;

/// What a session runs over: a program, a column, the room for rows, the caps, and how many threads may run.
#[derive(Clone, Copy)]
pub struct Opening<'a> {
    pub program: &'a str,
    pub input: &'a str,
    pub room: u32,
    pub caps: Caps,
    pub workers: u32,
}

/// Caps that most runs keep within. Small ones make an engine's tables quickly.
pub const CAPS: Caps = Caps {
    nodes: 400,
    mods: 100,
    links: 100,
};

fn widened(grid: Grid, room: u32) -> Result<Grid, Fail> {
    if room < grid.rows() || u64::from(room) * u64::from(grid.cols()) > 65_536 {
        return Err("no such room")?;
    }
    match grid.widen(room) {
        Ok(grid) => Ok(grid),
        Err(_) => Err("memory")?,
    }
}

fn checked(alloc: Global, program: &str) -> Result<Checked, Fail> {
    let Ok(program) = parse(alloc, program.as_bytes()) else {
        return Err("no program")?;
    };
    match check(alloc, program) {
        Ok(checked) => Ok(checked),
        Err(_) => Err("it breaks the series rule")?,
    }
}

fn is_cap(most: u32) -> bool
    ensures { result ≡ true → IsCap most }
{
    1 <= most && most <= 1_048_576
}

/// An engine over the opening's column, in which nothing has run.
pub fn opened(alloc: Global, opening: &Opening<'_>, texts: &mut Interner) -> Result<Engine, Fail>
    ensures { IfOk result (λ e. commits_in e ≡ 0) }
{
    let Ok(grid) = load_lines(alloc, opening.input.as_bytes(), texts) else {
        return Err("no input")?;
    };
    let grid = widened(grid, opening.room)?;
    let program = checked(alloc, opening.program)?;
    let caps = opening.caps;
    if program.program().texts.len() > 0 {
        return Err("it has texts")?;
    }
    if !is_cap(caps.nodes) || !is_cap(caps.mods) || !is_cap(caps.links) {
        return Err("no such caps")?;
    }
    match Engine::open(alloc, program, Vec::new(alloc), grid, caps) {
        Ok(engine) => Ok(engine),
        Err(_) => Err("memory")?,
    }
}

/// A crew of so many workers.
pub fn crew(workers: u32) -> Result<Crew, Fail> {
    if workers == 0 || workers > 64 {
        return Err("no such crew")?;
    }
    Ok(Crew::new(workers))
}

/// Carries out the script of a source, and writes to a sink.
pub fn run<Rt: Threads + Sync, S: Source, K: Sink>(
    rt: &Rt,
    alloc: Global,
    opening: Opening<'_>,
    script: &mut S,
    out: &mut K,
) -> Result<SessionEnd, Fail> {
    let Ok(mut texts) = Interner::new(alloc) else {
        return Err("memory")?;
    };
    let mut engine = opened(alloc, &opening, &mut texts)?;
    let crew = crew(opening.workers)?;
    Ok(session(
        rt,
        alloc,
        &mut engine,
        &mut texts,
        &crew,
        script,
        out,
        &NoGate,
    ))
}

/// Carries out a script of memory, in small pieces, and gives the end and what was written.
pub fn carried<Rt: Threads + Sync>(
    rt: &Rt,
    alloc: Global,
    opening: Opening<'_>,
    script: &str,
) -> Result<(SessionEnd, Vec<u8>), Fail> {
    let bytes = Vec::from_slice(alloc, script.as_bytes())?;
    let mut script = MemSource::new(bytes, 7, Vec::new(alloc));
    let Ok(mut out) = MemSink::new(alloc, 1000, 11, Vec::new(alloc)) else {
        return Err("memory")?;
    };
    let end = run(rt, alloc, opening, &mut script, &mut out)?;
    let Some(written) = out.bytes() else {
        return Err("too much was written")?;
    };
    Ok((end, Vec::from_slice(alloc, written)?))
}
