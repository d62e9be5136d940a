ghost use Rattle.std.specs.Prelude.{◌≡◌, ◌↔◌, ◌<◌, ℕ, All, Some, Ok, length};
ghost use Rattle.psac_inputs.specs.Grid.{Grid};
ghost use Rattle.psac_syntax.specs.declared.program.Program.{Program};
ghost use Rattle.psac_model.specs.declared.ends.End.TheVariants.{Done};
ghost use Rattle.psac_model.specs.Names.{Out};
ghost use Rattle.psac_model.specs.Fresh.{World, main_of, fresh};
ghost use Rattle.psac_model.specs.Series.{meets};
ghost use Rattle.psac_series.specs.Ways.{plain_way, fresh_by};
ghost use Rattle.psac_series.specs.Looks.{FindsEachName};
ghost use Rattle.psac_series.specs.Outputs.{IsWritten};
ghost use Rattle.psac_series.specs.Lean.{MeetsRule};

/// The run in the plain way is the fresh run: of any program, over any grid.
pub fn plain_way_is_the_run()
    ensures { (w : World) (g : Grid) → fresh_by plain_way w g ≡ fresh w g }
{}

/// Of a program that meets the series rule, over each grid that has its rows and cells, no look is at a name that the
/// heap lacks: whatever such a look would give, a fault of any kind included, the run is the same.
pub fn every_look_finds_its_name()
    ensures { (w : World) (g : Grid) → meets w.program ≡ Ok tt → main_of w.program ≡ Some w.main
        → length g.cells ≡ g.room → All (λ row. length row ≡ g.cols) g.cells → FindsEachName w g }
{}

/// Where the run of such a program is done, each output is held, and was written once.
pub fn outputs_are_written()
    ensures { (w : World) (g : Grid) → meets w.program ≡ Ok tt → main_of w.program ≡ Some w.main
        → length g.cells ≡ g.room → All (λ row. length row ≡ g.cols) g.cells → (fresh w g).end ≡ Done → (i : ℕ)
        → i < length w.main.dests → IsWritten (fresh w g) (Out i) }
{}

/// The checker's rule, which tells the first fault in its order, accepts exactly the programs of the lean rule, which
/// has no order.
pub fn rule_is_free_of_order()
    ensures { (p : Program) → meets p ≡ Ok tt ↔ MeetsRule p }
{}
