//! The tracing run of a whole program.
ghost use Rattle.std.specs.Prelude.{◌≡◌, ◌+◌, ◌<◌, List, [], length, IfOk};
ghost use Rattle.psac_ops.specs.declared.plain.TextId.{TextId};
ghost use Rattle.psac_plain.specs.Slots.{env_of};
ghost use Rattle.psac_plain.specs.Opened.{first_output, output_env, setting_over};
ghost use Rattle.psac_record.specs.Kept.{Kept};
ghost use Rattle.psac_trace.specs.Asking.{setting_on};
ghost use Rattle.psac_trace.specs.Told.{ended_of};
ghost use Rattle.psac_engine.specs.Tracing.{MainBegins, MainLeaves};

use psac_fork::{Crew, Gate, Pass, Tables};
use psac_inputs::Grid;
use psac_ops::{Handle, Plain, TextId};
use psac_plain::binding::{Binding, bind_to};
use psac_record::Record;
use psac_syntax::Func;
use psac_trace::ground::Ground;
use psac_trace::halt::Halt;
use psac_trace::run::run_block;
use std::alloc::{AllocError, Global};
use std::thread::Threads;

/// Destinations, each a reference to one of the slots from one on.
fn places(alloc: Global, first: u32, dests: &[u16]) -> Result<Vec<Binding>, AllocError>
    requires { first + length dests.now < 4294967296 }
    ensures { IfOk result (λ env. env_of env.items ≡ output_env first dests.now []) }
{
    let mut env = Vec::new(alloc);
    let mut slot = first;
    for d in dests {
        let made = Handle {
            slot,
            generation: 0,
        };
        bind_to(&mut env, *d, Plain::Ref(made))?;
        slot += 1;
    }
    Ok(env)
}

/// What expressions read of a grid, behind whose cells there are so many outputs.
pub fn ground(grid: &Grid, outs: u32) -> Ground
    requires { first_output grid.now + outs < 4294967296 }
    ensures { (texts : List TextId) → setting_on result texts ≡ setting_over grid.now texts outs }
{
    let slot = grid.room() * grid.cols() + outs;
    Ground {
        opened: grid.opened(),
        room: grid.room(),
        cols: grid.cols(),
        row_count: Handle {
            slot,
            generation: 0,
        },
    }
}

/// Runs main's body over the grid on a pass, and records what it does.
pub fn run_main<Rt: Threads + Sync, G: Gate + Sync>(
    rt: &Rt,
    alloc: Global,
    crew: &Crew,
    gate: &G,
    tables: &Tables,
    funcs: &[Func],
    main: &Func,
    texts: &[TextId],
    grid: &Grid,
    pass: Pass,
) -> (Result<Record, Halt>, Pass)
    requires begins { MainBegins grid.now texts.now funcs.now main.now tables.now pass }
    requires few { first_output grid.now + length main.now.dests < 4294967295 }
    ensures { (k : Kept) × MainLeaves grid.now texts.now funcs.now main.now tables.now pass result.1 (ended_of k result.0) }
{
    let dests = main.dests.as_slice();
    let first = grid.room() * grid.cols();
    let ground = ground(grid, dests.len() as u32);
    match places(alloc, first, dests) {
        Ok(env) => run_block(
            rt,
            alloc,
            crew,
            gate,
            tables,
            &ground,
            texts,
            funcs,
            &[],
            0,
            main.body.as_slice(),
            &env,
            None,
            pass,
        ),
        Err(_) => (Err(Halt::NoMemory), pass),
    }
}
