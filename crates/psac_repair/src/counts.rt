//! What adds up of slots, looks and asks along the walk of a repair. These functions have nothing to run.
ghost use Rattle.psac_repair.specs.Counted.{DrawnKept, DrawnParts, DrawnSides, DrawnStopped, DrawnBlock, DrawnAgain, SpentKept, SpentParts, SpentTurns, SpentSides, SpentBlock, SpentAgain};

/// The slots of the parts are those of the record; where a block ran again they are as many as its run made.
pub fn slots_add_up()
    ensures kept { DrawnKept }
    ensures parts { DrawnParts }
    ensures sides { DrawnSides }
    ensures stopped { DrawnStopped }
    ensures block { DrawnBlock }
    ensures again { DrawnAgain }
{}

/// Where nodes are gone into only if something below them runs again, looks and asks stay within their bounds.
pub fn looks_and_asks_add_up()
    ensures kept { SpentKept }
    ensures parts { SpentParts }
    ensures turns { SpentTurns }
    ensures sides { SpentSides }
    ensures block { SpentBlock }
    ensures again { SpentAgain }
{}
