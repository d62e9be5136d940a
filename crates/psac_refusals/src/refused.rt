// The lines for words, a program or an input that isn't accepted.
ghost use Rattle.std.specs.Prelude.{◌≡◌, [], IfOk, MatchOption};
ghost use Rattle.psac_report.specs.Refused.{usage_line, syntax_line, limit_line, breach_line, program_line, input_line, record_line};
ghost use Rattle.psac_check.specs.Faults.{fault_of};

use psac_base::NoMemory;
use psac_check::CheckFault;
use psac_inputs::InputFault;
use psac_script::push_number;
use std::alloc::Global;

/// The line that says how the program is called.
pub fn usage_line() -> &'static [u8]
    ensures { result.now ≡ usage_line }
{
    b"usage: psac MODE PROGRAM INPUT [--workers N] [--nodes N] [--mods N] [--links N] [--rows N]\n"
}

/// The line of a program that leaves the grammar, with the place.
pub fn syntax_line(alloc: Global, line: u32, column: u32) -> Result<Vec<u8>, NoMemory>
    ensures { IfOk result (λ text. text.items ≡ syntax_line line column) }
{
    let mut told = Vec::new(alloc);
    told.extend_from_slice(b" column ")?;
    push_number(&mut told, u64::from(column))?;
    told.extend_from_slice(b" syntax")?;
    program_line(alloc, line, &told)
}

/// The line of a program that exceeds a limit, with the number of the limit.
pub fn limit_line(alloc: Global, which: u8, line: u32) -> Result<Vec<u8>, NoMemory>
    ensures { IfOk result (λ text. text.items ≡ limit_line which line) }
{
    let mut told = Vec::new(alloc);
    told.extend_from_slice(b" limit ")?;
    push_number(&mut told, u64::from(which))?;
    program_line(alloc, line, &told)
}

/// The line of a program that doesn't meet the series rule. Of want of memory it is empty.
pub fn check_line(alloc: Global, fault: CheckFault) -> Result<Vec<u8>, NoMemory>
    ensures { IfOk result (λ text. MatchOption (fault_of fault) (text.items ≡ []) (λ first. text.items ≡ breach_line first.0 first.1)) }
{
    match fault {
        CheckFault::UnknownName { line } => program_line(alloc, line, b" unknown name"),
        CheckFault::Rebound { line } => program_line(alloc, line, b" rebound"),
        CheckFault::ReadBeforeWrite { line } => program_line(alloc, line, b" read before write"),
        CheckFault::WrittenTwice { line } => program_line(alloc, line, b" written twice"),
        CheckFault::NotWritten { line } => program_line(alloc, line, b" not written"),
        CheckFault::BranchesDiffer { line } => program_line(alloc, line, b" branches differ"),
        CheckFault::WrittenInBothSides { line } => {
            program_line(alloc, line, b" written in both sides")
        }
        CheckFault::UnknownFunction { line } => program_line(alloc, line, b" unknown function"),
        CheckFault::Arity { line } => program_line(alloc, line, b" arity"),
        CheckFault::NoMain { line } => program_line(alloc, line, b" no main"),
        CheckFault::WrongSort { line } => program_line(alloc, line, b" wrong sort"),
        CheckFault::NoMemory => Ok(Vec::new(alloc)),
    }
}

fn program_line(alloc: Global, line: u32, told: &[u8]) -> Result<Vec<u8>, NoMemory>
    ensures { IfOk result (λ text. text.items ≡ program_line line told.now) }
{
    let mut text = Vec::new(alloc);
    text.extend_from_slice(b"program line ")?;
    push_number(&mut text, u64::from(line))?;
    text.extend_from_slice(told)?;
    text.push(b'\n')?;
    Ok(text)
}

/// The line of an input that isn't taken, with the number of the record. Of want of memory it is empty.
pub fn input_line(alloc: Global, fault: InputFault) -> Result<Vec<u8>, NoMemory>
    ensures { IfOk result (λ text. text.items ≡ input_line fault) }
{
    match fault {
        InputFault::Utf8 { at } => record_line(alloc, at, b" not utf-8"),
        InputFault::Ragged { at } => record_line(alloc, at, b" ragged"),
        InputFault::Cells { at } => record_line(alloc, at, b" too many cells"),
        InputFault::Texts { at } => record_line(alloc, at, b" too many texts"),
        InputFault::NoMemory => Ok(Vec::new(alloc)),
    }
}

fn record_line(alloc: Global, at: u32, told: &[u8]) -> Result<Vec<u8>, NoMemory>
    ensures { IfOk result (λ text. text.items ≡ record_line at told.now) }
{
    let mut text = Vec::new(alloc);
    text.extend_from_slice(b"input record ")?;
    push_number(&mut text, u64::from(at))?;
    text.extend_from_slice(told)?;
    text.push(b'\n')?;
    Ok(text)
}
