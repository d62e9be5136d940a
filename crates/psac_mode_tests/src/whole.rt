// A whole run of one of these modes, by the top call that its words name.
use psac_bench::bench;
use psac_cases::{Case, Parts, SMALL, run_of};
use psac_certify::{certified, dumped};
use psac_command::{TopCall, choose_call};
use psac_fork::NoGate;
use std::alloc::Global;
use std::thread::Threads;

/// The usage line.
pub const USAGE: &str =
    "usage: psac MODE PROGRAM INPUT [--workers N] [--nodes N] [--mods N] [--links N] [--rows N]\n";

/// A program that ends too early, with its refusal.
pub const CUT: &str = "func main(; out) { write out = ; }";

pub const CUT_LINE: &str = "program line 1 column 32 syntax\n";

/// What is told of the program of two faults.
pub const FAULT_LINE: &str = "fault divzero line 3\n";

/// Records of which the second is too short, with their refusal.
pub const RAGGED: &str = "1,2\n3\n";

pub const RAGGED_LINE: &str = "input record 2 ragged\n";

// The status with which a run ends; nothing where its words name another mode.
fn status<Rt: Threads + Sync>(rt: &Rt, alloc: Global, parts: &mut Parts) -> Option<u8> {
    let Parts {
        words,
        shelf,
        script,
        out,
    } = parts;
    let status = match choose_call(words.as_slice()) {
        TopCall::Run | TopCall::Watch => return None,
        TopCall::Bench => bench(rt, alloc, words, shelf, out, &NoGate),
        TopCall::Dump => dumped(rt, alloc, words, shelf, out, &NoGate),
        TopCall::Certify => certified(rt, alloc, words, shelf, script, out, &NoGate),
    };
    Some(status.code)
}

/// Whether a run ends with the status and writes the text.
pub fn gives<Rt: Threads + Sync>(
    rt: &Rt,
    alloc: Global,
    case: &Case<'_>,
    code: u8,
    text: &str,
) -> bool {
    let Ok(mut parts) = case.parts(alloc) else {
        return false;
    };
    status(rt, alloc, &mut parts) == Some(code) && parts.out.bytes() == Some(text.as_bytes())
}

/// The same of these words over a program, an input, and a text that is compared.
pub fn tells<Rt: Threads + Sync>(
    rt: &Rt,
    alloc: Global,
    words: &str,
    files: (&str, &str, &str),
    code: u8,
    text: &str,
) -> bool {
    let (program, input, compared) = files;
    let case = Case {
        options: SMALL,
        ..run_of(words, program, input, compared)
    };
    gives(rt, alloc, &case, code, text)
}
