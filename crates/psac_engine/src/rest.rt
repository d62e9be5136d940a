//! A commit at rest: a record is kept, and the batch leaves the grid as it is.
ghost use Rattle.std.specs.Prelude.{◌≡◌, true};
ghost use Rattle.psac_inputs.specs.Batch.{put_all, GoesInto, IsBatch};
ghost use Rattle.psac_engine.specs.Commit.{IsIdle, no_work};

use psac_inputs::{Batch, Grid};
use psac_model::{Mode, Work};

/// Whether nothing is left of the batch, once it is netted.
pub fn is_at_rest(grid: &Grid, batch: &mut Batch) -> bool
    requires goes { GoesInto batch.old grid.now }
    ensures idle { IsIdle grid.now batch.old → result ≡ true }
    ensures still { result ≡ true → put_all batch.old grid.now ≡ grid.now }
    // What is left of the batch gives the same grid.
    ensures staged { put_all batch.new grid.now ≡ put_all batch.old grid.now }
    ensures goes { GoesInto batch.new grid.now }
    ensures sound { IsBatch batch.new }
{
    batch.net(grid);
    let left = batch.len();
    let rows = batch.staged_rows();
    left == 0 && rows == grid.rows()
}

/// The work of a repair that has nothing to do.
pub fn work_at_rest() -> Work
    ensures { result ≡ no_work }
{
    Work {
        mode: Mode::Repair,
        visited: 0,
        rerun: 0,
        inside: 0,
        dropped: 0,
        nodes: 0,
        mods: 0,
        links: 0,
    }
}
