//! What is told of a handle, by the words of its modifiable in the table of values.
ghost use Rattle.std.specs.Prelude.{◌≡◌, ℕ, ◌+◌, ◌<◌, false};
ghost use Rattle.psac_ops.specs.declared.plain.Plain.{Plain as Told};
ghost use Rattle.psac_slots.specs.Claiming.{IsSole};
ghost use Rattle.psac_values.specs.Knowing.{IsLive};
ghost use Rattle.psac_engine.specs.Looking.{KnownAs, Looks, is_open};
ghost use Rattle.psac_engine.specs.Showing.{OnlyLooked};

use psac_ops::{Handle, Plain, from_words};
use psac_values::{ValuePass, Values};

/// What is told of a modifiable whose handle was held.
#[derive(Clone, Copy, Debug, PartialEq, Eq)]
pub enum Held {
    Value(Plain),
    /// No modifiable has this handle.
    Stale,
    /// It is an output's, and no run is kept.
    Unwritten,
}

/// Whether the slot is that of an output, of which so many stand from a slot on, and no run is kept.
fn is_unwritten(kept: bool, first: u32, outs: u32, slot: u32) -> bool
    ensures { result ≡ is_open kept first outs slot }
{
    !kept && slot >= first && slot - first < outs
}

/// What is told of a handle, where so many outputs stand from a slot on, and a run is kept or none.
pub fn look_at(
    values: &Values,
    pass: &mut ValuePass,
    first: u32,
    outs: u32,
    kept: bool,
    handle: Handle,
) -> Held
    requires table { pass.old.table ≡ values.now }
    requires sole { IsSole pass.old.knows.claims }
    requires known { IsLive handle pass.old.knows → is_open kept first outs handle.slot ≡ false
        → (x : Told) × KnownAs pass.old.knows handle x }
    ensures table { pass.new.table ≡ pass.old.table }
    ensures looked { OnlyLooked pass.old.knows pass.new.knows }
    ensures told { Looks (is_open kept first outs handle.slot) handle pass.old.knows result }
{
    if !values.is_live(pass, handle) {
        return Held::Stale;
    }
    if is_unwritten(kept, first, outs, handle.slot) {
        return Held::Unwritten;
    }
    let words = values.read(pass, handle);
    let Some(value) = from_words(words) else {
        unreachable!()
    };
    Held::Value(value)
}
