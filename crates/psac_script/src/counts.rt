// The lines of counts and faults.
ghost use Rattle.std.specs.Prelude.{◌≡◌, ◌++◌, IfOk, OnOk};
ghost use Rattle.psac_report.specs.Printed.{work_line, size_line, fault_line, mode_text, fault_text};

use crate::text::{push_count, push_number};
use psac_base::NoMemory;
use psac_model::{FaultKind, Mode, Size, Work};
use std::alloc::Global;

/// What a commit did.
pub fn work_line(alloc: Global, work: &Work) -> Result<Vec<u8>, NoMemory>
    ensures { IfOk result (λ text. text.items ≡ work_line work.now) }
{
    let mut text = Vec::new(alloc);
    text.extend_from_slice(mode_text(work.mode))?;
    push_count(&mut text, b" visited", work.visited)?;
    push_count(&mut text, b" rerun", work.rerun)?;
    push_count(&mut text, b" inside", work.inside)?;
    push_count(&mut text, b" dropped", work.dropped)?;
    push_count(&mut text, b" nodes", work.nodes)?;
    push_count(&mut text, b" mods", work.mods)?;
    push_count(&mut text, b" links", work.links)?;
    text.push(b'\n')?;
    Ok(text)
}

fn mode_text(mode: Mode) -> &'static [u8]
    ensures { result.now ≡ mode_text mode }
{
    match mode {
        Mode::Repair => b"mode=repair",
        Mode::Anew => b"mode=anew",
    }
}

/// The size of a record.
pub fn size_line(alloc: Global, size: &Size) -> Result<Vec<u8>, NoMemory>
    ensures { IfOk result (λ text. text.items ≡ size_line size.now) }
{
    let mut text = Vec::new(alloc);
    push_count(&mut text, b"S", size.s)?;
    push_count(&mut text, b" P", size.p)?;
    push_count(&mut text, b" R", size.r)?;
    push_count(&mut text, b" mods", size.mods)?;
    push_count(&mut text, b" links", size.links)?;
    text.push(b'\n')?;
    Ok(text)
}

/// Why a run stopped, and where.
pub fn fault_line(alloc: Global, kind: FaultKind, line: u32) -> Result<Vec<u8>, NoMemory>
    ensures { IfOk result (λ text. text.items ≡ fault_line kind line) }
{
    let mut text = Vec::new(alloc);
    text.extend_from_slice(b"fault ")?;
    text.extend_from_slice(fault_text(kind))?;
    text.extend_from_slice(b" line ")?;
    push_number(&mut text, u64::from(line))?;
    text.push(b'\n')?;
    Ok(text)
}

fn fault_text(kind: FaultKind) -> &'static [u8]
    ensures { result.now ≡ fault_text kind }
{
    match kind {
        FaultKind::Kind => b"kind",
        FaultKind::Overflow => b"overflow",
        FaultKind::DivZero => b"divzero",
        FaultKind::Range => b"range",
        FaultKind::TooDeep => b"depth",
    }
}
