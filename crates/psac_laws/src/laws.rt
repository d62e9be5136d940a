ghost use Rattle.std.specs.Prelude.{◌≡◌, All, Some, Ok, length};
ghost use Rattle.psac_inputs.specs.Grid.{Grid};
ghost use Rattle.psac_model.specs.Fresh.{World, main_of};
ghost use Rattle.psac_model.specs.Series.{meets};
ghost use Rattle.psac_laws.specs.InSeries.{IsInSeries};

/// Of a program that meets the series rule, over each grid that has its rows and cells, the fresh run reads no name before it is written and
/// writes none twice, the sides of each par may run in either order, and each read block stands after the writes of what it reads.
pub fn series_rule_holds()
    ensures { (w : World) (g : Grid) → meets w.program ≡ Ok tt → main_of w.program ≡ Some w.main → length g.cells ≡ g.room → All (λ row. length row ≡ g.cols) g.cells → IsInSeries w g }
{}
