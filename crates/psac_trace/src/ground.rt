//! What expressions read of the grid.
ghost use Rattle.std.specs.Prelude.{◌≤◌, ◌*◌};

use psac_ops::Handle;

/// How large the grid is, and the modifiable of its number of rows.
#[derive(Clone, Copy)]
pub struct Ground {
    pub opened: u32,
    pub room: u32,
    pub cols: u32,
    pub row_count: Handle,
    ghost few: { room * cols ≤ 65536 },
}
