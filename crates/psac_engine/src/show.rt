//! What is shown of the outputs, by their words in the table of values.
ghost use Rattle.std.specs.Prelude.{◌≡◌, ℕ, ◌+◌, ◌<◌, ◌≤◌, IfOk, IsSome, Some, map};
ghost use Rattle.psac_values.specs.Steps.{looked};
ghost use Rattle.psac_stage.specs.Holding.{HasFixed};
ghost use Rattle.psac_engine.specs.Outputs.{plain_shown};
ghost use Rattle.psac_engine.specs.Showing.{HaveValues, OnlyLooked, shown_at, shown_from};

use psac_base::NoMemory;
use psac_model::Shown;
use psac_ops::{Handle, Plain, from_words};
use psac_values::{ValuePass, Values};
use std::alloc::Global;

fn show(value: Plain) -> Shown
    ensures { result ≡ plain_shown value }
{
    match value {
        Plain::Nil => Shown::Nil,
        Plain::Bool(b) => Shown::Bool(b),
        Plain::Int(i) => Shown::Int(i),
        Plain::Text(t) => Shown::Text(t),
        Plain::Ref(_) => Shown::Ref,
        Plain::Pair(_, _) => Shown::Pair,
    }
}

/// What is shown of the value of a fixed slot.
fn show_slot(values: &Values, pass: &mut ValuePass, slot: u32) -> Shown
    requires table { pass.old.table ≡ values.now }
    requires fixed { (n : ℕ) × HasFixed n pass.old.knows × (slot < n) }
    requires value { IsSome (shown_at slot pass.old.knows) }
    ensures table { pass.new.table ≡ pass.old.table }
    ensures looked { pass.new.knows ≡ looked pass.old.knows }
    ensures value { shown_at slot pass.old.knows ≡ Some result }
{
    let words = values.read(
        pass,
        Handle {
            slot,
            generation: 0,
        },
    );
    let Some(value) = from_words(words) else {
        unreachable!()
    };
    show(value)
}

/// What is shown of the values of so many fixed slots, from one on.
pub fn show_slots(
    alloc: Global,
    values: &Values,
    pass: &mut ValuePass,
    first: u32,
    many: u32,
) -> Result<Vec<Shown>, NoMemory>
    requires table { pass.old.table ≡ values.now }
    requires fixed { (n : ℕ) × HasFixed n pass.old.knows × (first + many ≤ n) }
    requires values { HaveValues first many pass.old.knows }
    requires small { first + many < 4294967296 }
    ensures table { pass.new.table ≡ pass.old.table }
    ensures looked { OnlyLooked pass.old.knows pass.new.knows }
    ensures shown { IfOk result (λ told. map (λ x. Some x) told.items ≡ shown_from first many pass.old.knows) }
{
    let mut told = Vec::with_capacity(alloc, many as usize)?;
    for i in 0..many {
        told.push(show_slot(values, pass, first + i))?;
    }
    Ok(told)
}
