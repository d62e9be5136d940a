//! What adds up of links along the walk of a repair. These functions have nothing to run.
ghost use Rattle.psac_repair.specs.LinkLaws.{KeptWires, LinksStay, MadeWires, WroteWires, StepsWire, TurnsWire, SidesWireUp, BlocksWire, PartReads, SideReads, RecordsOrdered};

/// A record that is kept keeps its links; others stay where there is no new record too. What was made or written before the rest
/// has none.
pub fn kept_links_stay()
    ensures kept { KeptWires }
    ensures stay { LinksStay }
    ensures made { MadeWires }
    ensures wrote { WroteWires }
{}

/// Of two parts, one after the other, each begins with the links that it needs, and what both leave the whole leaves.
pub fn parts_wire_up()
    ensures steps { StepsWire }
    ensures turns { TurnsWire }
{}

/// So it is with both sides of a par at once, each on its part of the pass.
pub fn sides_wire_up()
    ensures { SidesWireUp }
{}

/// And with a read block round its body. Where that is run again, the readers of what it wrote can be raised.
pub fn blocks_wire_up()
    ensures { BlocksWire }
{}

/// What a part reads that was repaired is what it wrote, or what was there before: nothing that the rest behind it is to write.
pub fn parts_read_what_was_written()
    ensures part { PartReads }
    ensures side { SideReads }
{}

/// A record that a run left reads nothing before it is written, nor beside what writes it.
pub fn records_are_ordered()
    ensures { RecordsOrdered }
{}
