//! What adds up of modifiables and nodes along the walk of a repair, by every weight. These functions have nothing to run.
ghost use Rattle.psac_repair.specs.Exchanged.{ExchangedKept, ExchangedMade, ExchangedWrote, ExchangedParts, ExchangedSides, ExchangedBlock, ExchangedAgain, SwappedThen, SwappedSides, SwappedAgain, ValuesThen, ValuesSides};

/// A new record has what the old one had, but for the subtrees that are gone and those that were made in their place.
pub fn records_are_exchanged()
    ensures kept { ExchangedKept }
    ensures made { ExchangedMade }
    ensures wrote { ExchangedWrote }
    ensures parts { ExchangedParts }
    ensures sides { ExchangedSides }
    ensures block { ExchangedBlock }
    ensures again { ExchangedAgain }
{}

/// A pass holds the nodes that it held and those that were made, and the nodes that are gone are dropped.
pub fn nodes_are_swapped()
    ensures turns { SwappedThen }
    ensures sides { SwappedSides }
    ensures again { SwappedAgain }
{}

/// A pass has the modifiables that it had and those that were made.
pub fn modifiables_add_up()
    ensures turns { ValuesThen }
    ensures sides { ValuesSides }
{}
