//! A pass after a run, and before the next one.
ghost use Rattle.std.specs.Prelude.{◌≡◌, ℕ, ◌+◌, ◌<◌};
ghost use Rattle.psac_fork.specs.Whole.{IsOf};
ghost use Rattle.psac_inputs.specs.Grid.{Grid, IsGrid};
ghost use Rattle.psac_model.specs.declared.ends.Caps.{Caps};
ghost use Rattle.psac_reclaim.specs.Owed.{ValuesNone};
ghost use Rattle.psac_stage.specs.Places.{fixed_slots};
ghost use Rattle.psac_stage.specs.Resting.{HasAll, IsRested, IsCleared};
ghost use Rattle.psac_stage.specs.Settling.{Settles};

use psac_fork::{Pass, Tables};
use psac_reclaim::{Dropped, reset};
use psac_record::Record;

/// Regains the tables; their counters begin anew.
pub fn settled(tables: &Tables, pass: Pass) -> Pass
    requires of { IsOf pass tables.now }
    requires joined { pass.depth ≡ 0 }
    ensures of { IsOf result tables.now }
    ensures settles { Settles pass result }
{
    let Pass {
        mut values,
        mut readers,
        mut marks,
        depth,
    } = pass.regain(tables);
    tables.values.rewind(&mut values);
    tables.readers.rewind(&mut readers);
    tables.marks.rewind(&mut marks);
    Pass {
        values,
        readers,
        marks,
        depth,
    }
}

/// Gives back all that was made.
pub fn cleared(record: Record, tables: &Tables, pass: Pass) -> Pass
    requires of { IsOf pass tables.now }
    requires all { (g : Grid) × (outs : ℕ) × (caps : Caps) × (age : ℕ) × HasAll g outs caps age pass × (age < 4294967295) }
    requires rested { IsRested pass }
    ensures of { IsOf result tables.now }
    ensures all { (g : Grid) (outs : ℕ) (caps : Caps) (age : ℕ) → IsGrid g → HasAll g outs caps age pass → HasAll g outs caps (age + 1) result }
    ensures rested { IsRested result }
    // Of modifiables, each that was out is free a generation later.
    ensures values { ValuesNone pass.values.knows result.values.knows }
    ensures clear { (g : Grid) (outs : ℕ) (caps : Caps) (age : ℕ) → HasAll g outs caps age pass → IsCleared (fixed_slots g outs) result }
{
    reset(record, Dropped::new(), tables, pass)
}
