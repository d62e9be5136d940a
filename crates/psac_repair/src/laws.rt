//! What adds up along the walk of a repair. These functions have nothing to run.
ghost use Rattle.psac_repair.specs.Whole.{WholeIsTold, BaseIsSeen, DrawnIsGiven};
ghost use Rattle.psac_repair.specs.Laws.{SeriesAlong, QuietIsKept, MadeAddsUp, WroteAddsUp, InnerAddsUp, RestAddsUp, TurnsAddUp, UntriedAddsUp, SidesAddUp, BlockIsKnown, BlockAddsUp, ChangedAddsUp, PartsStandUp, SidesStandUp};

/// Along a run of a checked program the series rule says with what each statement and each read block begins.
pub fn series_goes_along()
    ensures { SeriesAlong }
{}

/// A record that read what is present is kept as it is.
pub fn quiet_records_are_kept()
    ensures { QuietIsKept }
{}

/// What a repair tells of the parts of a record it tells of the record, one after the other and of both sides at once; and of a par whose
/// left side alone was tried.
pub fn told_parts_add_up()
    ensures made { MadeAddsUp }
    ensures wrote { WroteAddsUp }
    ensures inner { InnerAddsUp }
    ensures rest { RestAddsUp }
    ensures turns { TurnsAddUp }
    ensures untried { UntriedAddsUp }
    ensures sides { SidesAddUp }
{}

/// The step at a read node: the pass knows what the block read. Where that is present, the block stands round what its body
/// left; where it isn't, the tracing run may begin, and what that tells is told of the block.
pub fn read_nodes_add_up()
    ensures known { BlockIsKnown }
    ensures same { BlockAddsUp }
    ensures changed { ChangedAddsUp }
{}

/// As the nodes of the parts stand in a pass, and as their marks are left, so it is with those of the record.
pub fn standing_parts_add_up()
    ensures parts { PartsStandUp }
    ensures sides { SidesStandUp }
{}

/// What a repair of a whole record tells of the present inputs: how the new record comes of the old one, that what was made is new,
/// and how much was drawn for that. However it ended, the inputs are as they were.
pub fn whole_records_are_told()
    ensures whole { WholeIsTold }
    ensures seen { BaseIsSeen }
    ensures drawn { DrawnIsGiven }
{}
