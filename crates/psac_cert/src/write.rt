// A record that is written as text.
ghost use Rattle.std.specs.Prelude.{◌≡◌, ◌≤◌, ◌++◌, OnOk, OnErr, IfOk, IsErrOf, List, codes};
ghost use Rattle.psac_base.specs.Causes.{Rose};
ghost use Rattle.psac_base.specs.Outside.{Appended, AppendedPart};
ghost use Rattle.psac_ops.specs.declared.plain.TextId.{TextId};
ghost use Rattle.psac_model.specs.declared.ends.Caps.{Caps};
ghost use Rattle.psac_model.specs.Fresh.{fresh};
ghost use Rattle.psac_record.specs.Shown.{rec_of};
ghost use Rattle.psac_report.specs.Dump.{dump as dump_text};
ghost use Rattle.psac_engine.specs.Running.{Shows};
ghost use Rattle.psac_engine.specs.Sound.{world_with};
ghost use Rattle.psac_cert.specs.Lines.{lines_left};
ghost use Rattle.psac_cert.specs.Told.{record_dump};

use crate::dictionary::Dictionary;
use crate::lines::{next_line, whole};
use psac_base::{NoMemory, Sink, write_whole};
use psac_inputs::{Grid, Interner};
use psac_record::Record;
use psac_syntax::Program;
use std::alloc::Global;

/// Why a record wasn't written whole. A first part of its text was written.
#[derive(Clone, Copy, Debug, PartialEq, Eq)]
pub enum DumpFault {
    /// A write failed.
    SinkFailed,
    NoMemory,
}

impl From<NoMemory> for DumpFault {
    fn from(_: NoMemory) -> Self {
        DumpFault::NoMemory
    }
}

// Writes the lines of what is left, each as one piece.
fn write_lines<K: Sink>(
    alloc: Global,
    with: &Dictionary<'_>,
    mut left: Vec<&Record>,
    out: &mut K,
) -> Result<(), DumpFault>
    ensures ok { OnOk result (Appended (K.held out.old) (K.held out.new) (lines_left with.now left.entry.items)) }
    ensures part { OnErr result (AppendedPart (K.held out.old) (K.held out.new) (lines_left with.now left.entry.items)) }
    ensures later { K.faults out.old ≤ K.faults out.new }
    ensures cause { IsErrOf result DumpFault.SinkFailed → Rose (K.faults out.old) (K.faults out.new) }
{
    let mut line = Vec::new(alloc);
    'lines: loop {
        match next_line(with, &mut left, &mut line) {
            Ok(true) => {
                if write_whole(out, line.as_slice()).is_err() {
                    return Err(DumpFault::SinkFailed);
                }
            }
            Ok(false) => return Ok(()),
            Err(_) => return Err(DumpFault::NoMemory),
        }
    }
}

/// What a record is written with, and what is left of it.
pub fn begin<'a>(
    alloc: Global,
    tree: &'a Record,
    program: &'a Program,
    grid: &Grid,
    texts: &'a Interner,
) -> Result<(Dictionary<'a>, Vec<&'a Record>), NoMemory>
    ensures { IfOk result (λ begun. codes "psac record 1\n" ++ lines_left begun.0 begun.1.items ≡ record_dump program.now grid.now texts.now tree.now) }
{
    let with = Dictionary::new(alloc, tree, program, grid, texts)?;
    let left = whole(alloc, tree)?;
    Ok((with, left))
}

/// Writes a kept record as text, line by line. The program is the one that the record was made of, and the grid its present one.
pub fn dump<K: Sink>(
    alloc: Global,
    tree: &Record,
    program: &Program,
    grid: &Grid,
    texts: &Interner,
    out: &mut K,
) -> Result<(), DumpFault>
    // The whole dump of the tree that the record shows was written.
    ensures ok { OnOk result (Appended (K.held out.old) (K.held out.new) (record_dump program.now grid.now texts.now tree.now)) }
    // After an error a first part of it was written.
    ensures part { OnErr result (AppendedPart (K.held out.old) (K.held out.new) (record_dump program.now grid.now texts.now tree.now)) }
    ensures cause { IsErrOf result DumpFault.SinkFailed → Rose (K.faults out.old) (K.faults out.new) }
    // Where the record shows the fresh run, it is the dump of that run's tree.
    ensures fresh { (ids : List TextId) (caps : Caps) → Shows (world_with program.now ids) grid.now caps (rec_of tree.now)
        → record_dump program.now grid.now texts.now tree.now ≡ dump_text program.now.names texts.now (fresh (world_with program.now ids) grid.now).tree }
{
    let (with, left) = match begin(alloc, tree, program, grid, texts) {
        Ok(begun) => begun,
        Err(_) => return Err(DumpFault::NoMemory),
    };
    if write_whole(out, b"psac record 1\n").is_err() {
        return Err(DumpFault::SinkFailed);
    }
    write_lines(alloc, &with, left, out)
}
