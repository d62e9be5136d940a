// A record that is compared with a text.
ghost use Rattle.std.specs.Prelude.{◌≡◌, ◌≤◌, IfOk, drop, length, nat_eq};
ghost use Rattle.std.specs.List.{common_prefix_len};
ghost use Rattle.psac_report.specs.Dump.{compared_with};
ghost use Rattle.psac_cert.specs.Compared.{parted, verdict_view};
ghost use Rattle.psac_cert.specs.Lines.{lines_left};
ghost use Rattle.psac_cert.specs.Told.{record_dump};

use crate::dictionary::Dictionary;
use crate::lines::next_line;
use crate::write::begin;
use psac_base::NoMemory;
use psac_inputs::{Grid, Interner};
use psac_model::FaultKind;
use psac_record::Record;
use psac_syntax::Program;
use std::alloc::Global;

/// What a text that is to be the dump of a run is found to be.
#[derive(Clone, Copy, Debug, PartialEq, Eq)]
pub enum Verdict {
    /// The run ends well, and the text is its dump.
    Yes,
    /// The run ends well, and the text isn't its dump: the longest front that they have in common has so many bytes.
    No { at: u64 },
    /// The run stops, at this line.
    Stopped { kind: FaultKind, line: u32 },
}

// How many bytes the front has that two texts have in common.
fn common_len(text: &[u8], line: &[u8]) -> usize
    ensures common { result ≡ common_prefix_len nat_eq text.now line.now }
    ensures within { result ≤ length text.now }
{
    let mut n = 0;
    while n < text.len() && n < line.len() && text[n] == line[n] {
        n += 1;
    }
    n
}

// Compares the lines of what is left with a text from a place on.
fn compare_lines(
    alloc: Global,
    with: &Dictionary<'_>,
    mut left: Vec<&Record>,
    text: &[u8],
    mut at: usize,
) -> Result<Verdict, NoMemory>
    requires { at ≤ length text.now }
    ensures { IfOk result (λ v. verdict_view v ≡ parted at (drop at text.now) (lines_left with.now left.entry.items)) }
{
    let mut line = Vec::new(alloc);
    'lines: loop {
        if !next_line(with, &mut left, &mut line)? {
            break 'lines;
        }
        let n = common_len(&text[at..], line.as_slice());
        at += n;
        if n < line.len() {
            return Ok(Verdict::No { at: at as u64 });
        }
    }
    if at < text.len() {
        return Ok(Verdict::No { at: at as u64 });
    }
    Ok(Verdict::Yes)
}

/// Compares the dump of a kept record with a text, line by line. The program is the one that the record was made of, and the grid
/// its present one.
pub fn compare(
    alloc: Global,
    tree: &Record,
    program: &Program,
    grid: &Grid,
    texts: &Interner,
    text: &[u8],
) -> Result<Verdict, NoMemory>
    ensures { IfOk result (λ v. verdict_view v ≡ compared_with text.now (record_dump program.now grid.now texts.now tree.now)) }
{
    let (with, left) = begin(alloc, tree, program, grid, texts)?;
    let head: &[u8] = b"psac record 1\n";
    let at = common_len(text, head);
    if at < head.len() {
        return Ok(Verdict::No { at: at as u64 });
    }
    compare_lines(alloc, &with, left, text, at)
}
