//! The walk of a repair, call by call: what each call needs, and what its caller leaves. These functions have nothing to run.
ghost use Rattle.psac_repair.specs.WalkLaws.{RecordIsKept, SidesAreKept, BlockIsKept, RecordWants, PartWants, AskedBegins, AskedLeaves, PartAskedLeaves, LookedBegins, LookedLeaves, PartLookedLeaves, MadeGoes, WroteGoes, BodiesGo, StepsGo, SidesInTurn, SidesAtOnce, BlocksGo};

/// A record none of whose nodes is marked, and that read what is present, is done as it is.
pub fn quiet_records_are_done()
    ensures record { RecordIsKept }
    ensures sides { SidesAreKept }
    ensures block { BlockIsKept }
{}

/// Where memory is wanting before anything was done the pass is left as it was.
pub fn want_of_memory_changes_nothing()
    ensures record { RecordWants }
    ensures part { PartWants }
{}

/// Asking a node and looking at words change nothing of what a call needs, nor of what it leaves.
pub fn asks_and_looks_change_nothing()
    ensures asked { AskedBegins }
    ensures asked_left { AskedLeaves }
    ensures asked_part { PartAskedLeaves }
    ensures looked { LookedBegins }
    ensures looked_left { LookedLeaves }
    ensures looked_part { PartLookedLeaves }
{}

/// Of the parts of a body, one after the other, each begins with what it needs, and what they leave the whole leaves: once both
/// are done, with their node cleared.
pub fn parts_are_repaired()
    ensures made { MadeGoes }
    ensures wrote { WroteGoes }
    ensures body { BodiesGo }
    ensures steps { StepsGo }
{}

/// So it is with both sides of a par, in turn, and at once, each on its part of the pass.
pub fn sides_are_repaired()
    ensures turns { SidesInTurn }
    ensures sides { SidesAtOnce }
{}

/// And with a read block that read what is present.
pub fn blocks_are_repaired()
    ensures { BlocksGo }
{}
