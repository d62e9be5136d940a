// A text that is checked against the fresh run.
ghost use Rattle.std.specs.Prelude.{◌≡◌, ◌<◌, IfOk, IfErr, is_some, true};
ghost use Rattle.psac_model.specs.Fresh.{outcome};
ghost use Rattle.psac_report.specs.Dump.{verdict};
ghost use Rattle.psac_engine.specs.Commit.{most_commits};
ghost use Rattle.psac_engine.specs.Engine.{caps_in, commits_in, grid_in, kept_in, world_in};
ghost use Rattle.psac_cert.specs.Compared.{IsUndecided, verdict_view};

use crate::verdict::{Verdict, compare};
use psac_base::NoMemory;
use psac_engine::{Answer, Engine};
use psac_fork::{Crew, Gate};
use psac_inputs::{Batch, Interner};
use psac_model::CapKind;
use std::alloc::Global;
use std::thread::Threads;

/// Why nothing is found of a text.
#[derive(Clone, Copy, Debug, PartialEq, Eq)]
pub enum CertifyFault {
    /// The record of the run has more of this than the engine's cap; also where the run stops.
    Full { which: CapKind },
    NoMemory,
}

impl From<NoMemory> for CertifyFault {
    ghost use Rattle.psac_cert.specs.declared.judge.CertifyFault.TheVariants as fault;

    ghost from_gives = { λ _ e. e ≡ fault.NoMemory };

    fn from(_: NoMemory) -> CertifyFault {
        CertifyFault::NoMemory
    }
}

// Compares the dump of the record that an engine keeps with a text.
fn judge(alloc: Global, engine: &Engine, texts: &Interner, text: &[u8]) -> Result<Verdict, NoMemory>
    requires { is_some (kept_in engine.now) ≡ true }
    ensures { IfOk result (λ v. verdict_view v ≡ verdict (world_in engine.now) (grid_in engine.now) texts.now text.now) }
{
    let Some(tree) = engine.record() else {
        unreachable!()
    };
    let grid = engine.grid();
    let program = engine.program();
    compare(alloc, tree, program, grid, texts, text)
}

/// Commits nothing, which runs the program over the present grid, and checks a text against that run: `Yes` comes exactly where the run
/// ends well and the text is the dump of its tree, `Stopped` exactly where it stops, and else `No` with the place where the two part.
///
/// A run whose record has more than the engine's caps isn't decided: then the answer is `Full`.
pub fn certify<Rt: Threads + Sync, G: Gate + Sync>(
    rt: &Rt,
    alloc: Global,
    engine: &mut Engine,
    texts: &Interner,
    text: &[u8],
    crew: &Crew,
    gate: &G,
) -> Result<Verdict, CertifyFault>
    requires { commits_in engine.old < most_commits }
    ensures verdict { IfOk result (λ v. verdict_view v ≡ verdict (world_in engine.old) (grid_in engine.old) texts.now text.now) }
    ensures undecided { IfErr result (IsUndecided (outcome (world_in engine.old) (caps_in engine.old) (grid_in engine.old))) }
    ensures world { world_in engine.new ≡ world_in engine.old }
    ensures grid { grid_in engine.new ≡ grid_in engine.old }
{
    let mut batch = Batch::new(alloc, engine.grid())?;
    match engine.commit(rt, &mut batch, crew, gate) {
        Ok(_) => Ok(judge(alloc, engine, texts, text)?),
        Err(Answer::Fault { kind, line }) => Ok(Verdict::Stopped { kind, line }),
        Err(Answer::Full { which }) => Err(CertifyFault::Full { which }),
        Err(Answer::NoMemory) => Err(CertifyFault::NoMemory),
    }
}
