//! What adds up along the walk of a repair of marks and the blocks that they stand over. These functions have nothing to run.
ghost use Rattle.psac_repair.specs.FoundLaws.{NoneFounded, FewerFounded, RootsFound, UnmarkedFounded, SomethingRuns};
ghost use Rattle.psac_repair.specs.FoundLaws.{MadeFounds, WroteFounds};
ghost use Rattle.psac_repair.specs.FoundLaws.{StepsFound, TurnsFound, SidesFoundUp, BlocksFound, RunsOnly};

/// Where nothing was marked nobody is woken; and no more are where a node is cleared.
pub fn nothing_is_founded_anew()
    ensures none { NoneFounded }
    ensures fewer { FewerFounded }
{}

/// A record none of whose nodes was marked is founded once the readers of what was changed from outside are raised, and no others.
pub fn raised_records_are_founded()
    ensures { RootsFound }
{}

/// A record is founded where none of its nodes is marked, and where one is, something of a founded record runs again.
pub fn marked_records_run_again()
    ensures unmarked { UnmarkedFounded }
    ensures runs { SomethingRuns }
{}

/// What was made, or written, before the rest has no marks of its own.
pub fn fronts_are_founded()
    ensures made { MadeFounds }
    ensures wrote { WroteFounds }
{}

/// Of two parts, one after the other, each marked node of the second stands over a block that read other words than are present, also
/// behind the first.
pub fn parts_are_founded()
    ensures steps { StepsFound }
    ensures turns { TurnsFound }
{}

/// So it is with both sides of a par at once, each on its part of the pass.
pub fn sides_are_founded()
    ensures { SidesFoundUp }
{}

/// So it is with a read block and its body.
pub fn blocks_are_founded()
    ensures { BlocksFound }
{}

/// A block that ran again marked only what leads up from readers of what it wrote with other values.
pub fn runs_mark_no_others()
    ensures { RunsOnly }
{}
