// Files, by their names.
ghost use Rattle.std.specs.Prelude.{◌≡◌, ◌⊎◌, IfOk, IfErr};
ghost use Rattle.psac_base.specs.Outside.{IsFile, NoneFalls};
ghost use Rattle.psac_open.specs.Loaded.{RoseFor};

use crate::status::{NO_MEMORY, Status};
use psac_base::{Shelf, ShelfFault};
use std::alloc::Global;

/// The bytes that a file may have.
pub const MOST: u64 = 16_777_216;

/// The bytes of a file, or the status: 3 where its load failed or it is too large, 9 where memory ran out.
pub fn load_named<F: Shelf>(shelf: &mut F, alloc: Global, name: &str) -> Result<Vec<u8>, Status>
    ensures bytes { IfOk result (λ bytes. IsFile (F.files shelf.old) name.now bytes.items) }
    ensures same { F.files shelf.new ≡ F.files shelf.old }
    ensures later { NoneFalls (F.faults shelf.old) (F.faults shelf.new) }
    ensures later_over { NoneFalls (F.overs shelf.old) (F.overs shelf.new) }
    ensures status { IfErr result (λ s. (s.code ≡ 3) ⊎ (s.code ≡ 9)) }
    ensures cause { IfErr result (λ s. s.code ≡ 3
        → RoseFor name.now (F.faults shelf.old) (F.faults shelf.new) (F.overs shelf.old) (F.overs shelf.new)) }
{
    match shelf.load(alloc, name, MOST) {
        Ok(bytes) => Ok(bytes),
        Err(ShelfFault::NoMemory) => Err(NO_MEMORY),
        Err(ShelfFault::Failed) => Err(Status { code: 3 }),
        Err(ShelfFault::TooLarge) => Err(Status { code: 3 }),
    }
}
