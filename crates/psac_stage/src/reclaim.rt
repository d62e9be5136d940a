//! What a repair took off is given back, and the new record stands. These functions have nothing to run.
ghost use Rattle.psac_stage.specs.Reclaiming.{PartsAreOwed, NamesStand, NodesStandAgain, PlacesRecorded, GridStands, ModsStand, SlotsRecorded};

/// Where a repair is done and its tables were regained, what it took off may be given back.
pub fn dropped_parts_are_owed()
    ensures parts { PartsAreOwed }
    ensures names { NamesStand }
{}

/// Once it is given back, the nodes and links of the new record stand, and no others do.
pub fn reclaimed_nodes_stand()
    ensures nodes { NodesStandAgain }
    ensures recorded { PlacesRecorded }
{}

/// The pass is at rest then, and has all that it had of the grid and of what the new record made, with its words.
pub fn reclaimed_records_stand()
    ensures grid { GridStands }
    ensures mods { ModsStand }
    ensures slots { SlotsRecorded }
{}
