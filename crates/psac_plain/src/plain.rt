// The plain run of a whole program.
ghost use Rattle.std.specs.Prelude.{IfOk, IfSome, IsSome};
ghost use Rattle.psac_model.specs.Fresh.{fresh, main_of as main_func, world_of};
ghost use Rattle.psac_model.specs.Plain.{Tells};

use crate::begin::{Begun, begin};
use crate::outputs::outputs_of;
use crate::run::run_body;
use crate::size::{NONE, counted};
use psac_base::NoMemory;
use psac_inputs::Grid;
use psac_model::{End, Shown, Size, main_of};
use psac_ops::TextId;
use psac_syntax::Program;
use std::alloc::Global;

/// How a run ends, its outputs, and its size; there are no outputs where it stopped.
/// A count of the size that would pass the greatest `u64` stays there.
#[derive(Drop)]
pub struct PlainEnd {
    pub end: End,
    pub outputs: Vec<Shown>,
    pub size: Size,
}

/// The fresh run of the program over the grid: the whole program one after another, both sides of each `par`
/// also where the left one stops. The texts are those of the program, in its order.
/// A name, function or destination that isn't there, another number of arguments, or a read of what isn't
/// written is the fault Kind; a second write replaces the first; of two functions of one name the first counts.
pub fn plain_run(
    alloc: Global,
    program: &Program,
    consts: &[TextId],
    grid: &Grid,
) -> Result<PlainEnd, NoMemory>
    requires main { IsSome (main_func program.now) }
    ensures { IfOk result (λ told. IfSome (world_of program.now consts.now) (λ w. Tells (fresh w grid.now) w.main.dests told.end told.outputs.items told.size)) }
{
    let Some(main) = main_of(program) else {
        unreachable!()
    };
    let dests = main.dests.as_slice();
    let Begun {
        opening,
        env,
        mut heap,
    } = begin(alloc, grid, dests, consts)?;
    let mut size = NONE;
    let end = run_body(
        alloc,
        &opening,
        program.funcs.as_slice(),
        300,
        main.body.as_slice(),
        env,
        &mut heap,
        &mut size,
    )?;
    counted(&size);
    let first = grid.room() * grid.cols();
    let outputs = outputs_of(alloc, end, &heap, first, dests)?;
    Ok(PlainEnd { end, outputs, size })
}
