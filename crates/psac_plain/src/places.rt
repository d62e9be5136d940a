// The places of modifiables: one list, in which a new one is the next place.
ghost use Rattle.std.specs.Prelude.{◌≡◌, ◌++◌, ◌∷◌, [], length, IfOk, OnOk};
ghost use Rattle.psac_ops.specs.Named.{value_of as plain_value};
ghost use Rattle.psac_model.specs.Expression.{or_kind};
ghost use Rattle.psac_plain.specs.Slots.{Gives, map_plain, slots};
ghost use Rattle.psac_plain.specs.Running.{places_of};

use crate::halt::Halt;
use psac_base::NoMemory;
use psac_model::FaultKind;
use psac_ops::{Handle, Plain};

/// The value of a modifiable; Kind where it has none yet.
pub fn held_at(heap: &[Option<Plain>], h: Handle) -> Result<Plain, Halt>
    ensures { Gives plain_value result (or_kind (slots.get (places_of heap.now) h)) }
{
    let slot = h.slot as usize;
    if slot < heap.len() {
        match heap[slot] {
            Some(v) => Ok(v),
            None => Err(Halt::Fault(FaultKind::Kind)),
        }
    } else {
        Err(Halt::Fault(FaultKind::Kind))
    }
}

/// Makes a modifiable: the next place. There are no more places than slots.
pub fn make(heap: &mut Vec<Option<Plain>>, value: Option<Plain>) -> Result<Handle, NoMemory>
    ensures made { IfOk result (λ h. h ≡ record { slot = length heap.old.items; generation = 0 }) }
    ensures heap { OnOk result (places_of heap.new.items ≡ places_of heap.old.items ++ map_plain value ∷ []) }
{
    if heap.len() >= 4_294_967_296 {
        return Err(NoMemory);
    }
    let slot = heap.len() as u32;
    heap.push(value)?;
    Ok(Handle {
        slot,
        generation: 0,
    })
}

/// Gives a modifiable a value.
pub fn store(heap: &mut Vec<Option<Plain>>, h: Handle, v: Plain)
    ensures { places_of heap.new.items ≡ slots.put (places_of heap.old.items) h (plain_value v) }
{
    let slot = h.slot as usize;
    if slot < heap.len() {
        heap[slot] = Some(v);
    }
}
