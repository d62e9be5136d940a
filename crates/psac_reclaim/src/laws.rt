//! What a repair leaves is what giving back needs, and what that leaves of the pass. These functions have nothing to run.
ghost use Rattle.psac_reclaim.specs.Repaired.{ValuesAreOwed, LinksAreOwed, NodesAreOwed, ValuesStand, NodesStand, NodesStay, ValuesAge, NodesAge};

/// What a repair took off may be given back.
pub fn dropped_parts_are_owed()
    ensures values { ValuesAreOwed }
    ensures links { LinksAreOwed }
    ensures nodes { NodesAreOwed }
{}

/// The new record stands once that is given back which a repair took off.
pub fn reclaimed_records_stand()
    ensures values { ValuesStand }
    ensures nodes { NodesStand }
    ensures own { NodesStay }
    ensures values_age { ValuesAge }
    ensures nodes_age { NodesAge }
{}
