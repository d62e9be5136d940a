//! What a table does with its ring of free slots.
ghost use Rattle.std.specs.Prelude.{◌≡◌, ◌+◌, ◌≤◌, List, length, take};
ghost use Rattle.psac_slots.specs.Claiming.{turned};
ghost use Rattle.psac_ops.specs.declared.plain.Handle.{Handle};

/// How many of `room` entries are taken when the counter stands there.
pub fn taken(counter: u64, room: u32) -> u32
    ensures { (l : List Handle) → length l ≡ room → length (take counter l) ≡ result }
{
    if counter < u64::from(room) {
        counter as u32
    } else {
        room
    }
}

/// A place of a ring of `count`, one turn back where it is past the end.
pub fn turned_back(count: u32, place: u64) -> u32
    requires { place ≤ count + count }
    ensures { result ≡ turned count place }
{
    if place < u64::from(count) {
        place as u32
    } else {
        (place - u64::from(count)) as u32
    }
}
