//! What follows from what a run tells. These functions have nothing to run.
ghost use Rattle.psac_trace.specs.Laws.{RunsTellAll, MovesAddUp, WordsAddUp, SidesAddUp, LinksStandOnce};

/// What a run made is new to its pass, and what the pass had and no statement was to write keeps its words: also where the run
/// stopped at a fault.
pub fn runs_tell_all()
    ensures { RunsTellAll }
{}

/// What one part of a run made and wrote, and what the next did, both did together; and so for the words of both sides of a fork.
pub fn parts_add_up()
    ensures moves { MovesAddUp }
    ensures words { WordsAddUp }
    ensures sides { SidesAddUp }
{}

/// Each link that a run entered is a new one, so no pass has a link twice.
pub fn links_stand_once()
    ensures { LinksStandOnce }
{}
