// The top call of a bench.
ghost use Rattle.std.specs.Prelude.{◌≡◌, ◌⊎◌, [], None, Some, map, string_bytes};
ghost use Rattle.psac_base.specs.Causes.{Rose};
ghost use Rattle.psac_base.specs.Outside.{Appended};
ghost use Rattle.psac_command.specs.Asked.{AreCaps, IsIn, workers};
ghost use Rattle.psac_command.specs.Bench.{AreCounts, bench_asked};
ghost use Rattle.psac_command.specs.Views.{bench_view};
ghost use Rattle.psac_bench.specs.Answer.{HasText, IsAcceptedBench, IsStatus, LoadFailed, Wrote, WrotePart};

use crate::run::run_program;
use psac_base::{Shelf, Sink};
use psac_command::{BenchRequest, read_bench_request};
use psac_fork::Gate;
use psac_open::{NO_MEMORY, Refusal, Status, accept, finish, load_named};
use psac_refusals::usage_line;
use std::alloc::Global;
use std::thread::Threads;

// Loads a program, and runs it.
fn run_request<Rt: Threads + Sync, F: Shelf, K: Sink, G: Gate + Sync>(
    rt: &Rt,
    alloc: Global,
    request: &BenchRequest<'_>,
    shelf: &mut F,
    out: &mut K,
    gate: &G,
) -> Status
    requires counts { AreCounts request.now.counts }
    requires caps { AreCaps request.now.settings.caps }
    requires workers { IsIn workers request.now.settings.workers }
    ensures status { IsStatus result.code }
    ensures words { (result.code ≡ 2) → ⊥ }
    ensures answered { HasText result.code → Wrote result.code (F.files shelf.old) (Some (bench_view request.now)) (K.held out.old) (K.held out.new) }
    ensures part { result.code ≡ 7 → WrotePart (F.files shelf.old) (Some (bench_view request.now)) (K.held out.old) (K.held out.new) }
    ensures sink { result.code ≡ 7 → Rose (K.faults out.old) (K.faults out.new) }
    ensures shelf { result.code ≡ 3 → LoadFailed (F.files shelf.old) (Some (bench_view request.now))
        (F.faults shelf.old) (F.faults shelf.new) (F.overs shelf.old) (F.overs shelf.new) }
    ensures nothing { ((result.code ≡ 3) ⊎ (result.code ≡ 9)) → Appended (K.held out.old) (K.held out.new) [] }
{
    let bytes = match load_named(shelf, alloc, request.program) {
        Ok(bytes) => bytes,
        Err(status) => return status,
    };
    match accept(alloc, &bytes) {
        Ok(checked) => run_program(rt, alloc, checked, request, out, gate),
        Err(Refusal::Line(line)) => finish(out, &line, 4),
        Err(Refusal::NoMemory) => NO_MEMORY,
    }
}

/// Does all that the program does for the words of a bench, and answers the status. The report is written as one piece.
pub fn bench<Rt: Threads + Sync, F: Shelf, K: Sink, G: Gate + Sync>(
    rt: &Rt,
    alloc: Global,
    words: &Vec<String>,
    shelf: &mut F,
    out: &mut K,
    gate: &G,
) -> Status
    ensures status { IsStatus result.code }
    // With a status that has a text, that text was written: with 0 the whole report.
    ensures answered { HasText result.code → Wrote result.code (F.files shelf.old)
        (bench_asked (map string_bytes words.now.items)) (K.held out.old) (K.held out.new) }
    // Where a write failed, a first part of a text was written.
    ensures part { result.code ≡ 7 → WrotePart (F.files shelf.old)
        (bench_asked (map string_bytes words.now.items)) (K.held out.old) (K.held out.new) }
    ensures sink { result.code ≡ 7 → Rose (K.faults out.old) (K.faults out.new) }
    // Other words are refused, and no other.
    ensures refused { bench_asked (map string_bytes words.now.items) ≡ None → (result.code ≡ 2) ⊎ (result.code ≡ 7) ⊎ (result.code ≡ 9) }
    ensures usage { result.code ≡ 2 → bench_asked (map string_bytes words.now.items) ≡ None }
    // The program's load failed.
    ensures shelf { result.code ≡ 3 → LoadFailed (F.files shelf.old) (bench_asked (map string_bytes words.now.items))
        (F.faults shelf.old) (F.faults shelf.new) (F.overs shelf.old) (F.overs shelf.new) }
    // Where it did, and where memory ran out, nothing was written.
    ensures nothing { ((result.code ≡ 3) ⊎ (result.code ≡ 9)) → Appended (K.held out.old) (K.held out.new) [] }
    // Where the program is accepted and nothing failed, memory is wanting or all is done.
    ensures complete { IsAcceptedBench (F.files shelf.old) (bench_asked (map string_bytes words.now.items))
        → ¬ (LoadFailed (F.files shelf.old) (bench_asked (map string_bytes words.now.items))
        (F.faults shelf.old) (F.faults shelf.new) (F.overs shelf.old) (F.overs shelf.new))
        → ¬ (Rose (K.faults out.old) (K.faults out.new)) → (result.code ≡ 0) ⊎ (result.code ≡ 9) }
{
    match read_bench_request(alloc, words.as_slice()) {
        Ok(Some(request)) => run_request(rt, alloc, &request, shelf, out, gate),
        Ok(None) => finish(out, usage_line(), 2),
        Err(_) => NO_MEMORY,
    }
}
