// Programs that are run.
ghost use Rattle.std.specs.Prelude.{◌≡◌, IfOk, IfErr, MatchOption};
ghost use Rattle.psac_report.specs.Refused.{breach_line};
ghost use Rattle.psac_check.specs.Faults.{fault_of};
ghost use Rattle.psac_open.specs.Accept.{IsAccepted, MeansLine, Refuses};

use crate::refusal::{Refusal, refused};
use psac_check::{CheckFault, Checked, check};
use psac_lang::{ParseFault, parse};
use psac_refusals::{check_line, limit_line, syntax_line};
use std::alloc::Global;

// The refusal of a program that breaks the series rule.
fn breached(alloc: Global, fault: CheckFault) -> Refusal
    ensures { MatchOption (fault_of fault) (result ≡ Refusal.NoMemory) (λ first. MeansLine (λ text. text ≡ breach_line first.0 first.1) result) }
{
    match fault {
        CheckFault::NoMemory => Refusal::NoMemory,
        _ => refused(check_line(alloc, fault)),
    }
}

/// The program that the bytes are, where they are a text of the grammar within the limits and meet the series rule.
/// Else the line of the first fault.
pub fn accept(alloc: Global, bytes: &[u8]) -> Result<Checked, Refusal>
    ensures accepted { IfOk result (λ p. IsAccepted bytes.now p) }
    ensures refused { IfErr result (MeansLine (Refuses bytes.now)) }
{
    let program = match parse(alloc, bytes) {
        Ok(program) => program,
        Err(ParseFault::Syntax { line, column }) => {
            return Err(refused(syntax_line(alloc, line, column)));
        }
        Err(ParseFault::Limit { which, line }) => {
            return Err(refused(limit_line(alloc, which, line)));
        }
        Err(ParseFault::NoMemory) => return Err(Refusal::NoMemory),
    };
    match check(alloc, program) {
        Ok(checked) => Ok(checked),
        Err(fault) => Err(breached(alloc, fault)),
    }
}
