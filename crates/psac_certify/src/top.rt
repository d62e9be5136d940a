// The calls for the modes `dump` and `certify`.
ghost use Rattle.std.specs.Prelude.{◌≡◌, ◌⊎◌, ◌↔◌, ◌+◌, [], None, Some, codes, map, string_bytes};
ghost use Rattle.psac_base.specs.Causes.{Rose};
ghost use Rattle.psac_base.specs.Outside.{Appended};
ghost use Rattle.psac_command.specs.Asked.{AreCaps, IsIn, single_asked, workers};
ghost use Rattle.psac_command.specs.Views.{request_view};
ghost use Rattle.psac_open.specs.Loaded.{LoadFailed};
ghost use Rattle.psac_run.specs.Reported.{AreAccepted, HasText, IsStatus, Wrote, WrotePart, WroteSome};
ghost use Rattle.psac_certify.specs.Answer.{IsDump, IsDumpStatus, IsVerdict};
ghost use Rattle.psac_certify.specs.Given.{IsReadOut};

use crate::certify::run_certify;
use crate::dump::run_dump;
use psac_base::{Shelf, Sink, Source};
use psac_command::{Request, read_single_request};
use psac_fork::{Crew, Gate};
use psac_open::{NO_MEMORY, Status, Unopened, finish, open_named};
use psac_refusals::usage_line;
use std::alloc::Global;
use std::thread::Threads;

// Loads a program and its input, runs it once, and writes its record.
fn dump_named<Rt: Threads + Sync, F: Shelf, K: Sink, G: Gate + Sync>(
    rt: &Rt,
    alloc: Global,
    request: &Request<'_>,
    shelf: &mut F,
    out: &mut K,
    gate: &G,
) -> Status
    requires caps { AreCaps request.now.settings.caps }
    requires workers { IsIn workers request.now.settings.workers }
    ensures status { IsDumpStatus result.code }
    ensures words { (result.code ≡ 2) → ⊥ }
    ensures answered { HasText result.code → Wrote IsDump result.code (F.files shelf.old)
        (Some (request_view request.now))
        None (K.held out.old) (K.held out.new) }
    ensures part { result.code ≡ 7 → WrotePart IsDump (F.files shelf.old) (Some (request_view request.now)) None
        (K.held out.old) (K.held out.new) }
    ensures memory { result.code ≡ 9 → WroteSome IsDump (F.files shelf.old) (Some (request_view request.now)) None
        (K.held out.old) (K.held out.new) }
    ensures shelf { result.code ≡ 3 → LoadFailed (F.files shelf.old) (Some (request_view request.now))
        (F.faults shelf.old) (F.faults shelf.new) (F.overs shelf.old) (F.overs shelf.new) }
    ensures nothing { result.code ≡ 3 → Appended (K.held out.old) (K.held out.new) [] }
    ensures sink { result.code ≡ 7 → Rose (K.faults out.old) (K.faults out.new) }
{
    match open_named(alloc, request, shelf) {
        Ok(mut opened) => {
            let crew = Crew::new(request.settings.workers);
            run_dump(rt, alloc, &mut opened, &crew, out, gate)
        }
        Err(Unopened::Refused { line, code }) => finish(out, &line, code),
        Err(Unopened::Ended(status)) => status,
    }
}

/// Does all that the program does for words of the mode `dump`: commits once, and writes the record, or the line of the
/// fault, or that the record would be too large.
pub fn dumped<Rt: Threads + Sync, F: Shelf, K: Sink, G: Gate + Sync>(
    rt: &Rt,
    alloc: Global,
    words: &Vec<String>,
    shelf: &mut F,
    out: &mut K,
    gate: &G,
) -> Status
    ensures status { IsDumpStatus result.code }
    // With a status that has a text, that text was written: with 0 the whole dump, or why there is none.
    ensures answered { HasText result.code → Wrote IsDump result.code (F.files shelf.old)
        (single_asked (codes "dump") (map string_bytes words.now.items)) None (K.held out.old) (K.held out.new) }
    // Where a write failed, a first part of a text was written; where memory ran out, such a part or nothing.
    ensures part { result.code ≡ 7 → WrotePart IsDump (F.files shelf.old)
        (single_asked (codes "dump") (map string_bytes words.now.items)) None (K.held out.old) (K.held out.new) }
    ensures memory { result.code ≡ 9 → WroteSome IsDump (F.files shelf.old)
        (single_asked (codes "dump") (map string_bytes words.now.items)) None (K.held out.old) (K.held out.new) }
    // Other words are refused, and no other.
    ensures refused { single_asked (codes "dump") (map string_bytes words.now.items) ≡ None → (result.code ≡ 2) ⊎
        (result.code ≡ 7) ⊎ (result.code ≡ 9) }
    ensures usage { result.code ≡ 2 → single_asked (codes "dump") (map string_bytes words.now.items) ≡ None }
    // A load failed, and nothing was written.
    ensures shelf { result.code ≡ 3 → LoadFailed (F.files shelf.old)
        (single_asked (codes "dump") (map string_bytes words.now.items))
        (F.faults shelf.old) (F.faults shelf.new) (F.overs shelf.old) (F.overs shelf.new) }
    ensures nothing { result.code ≡ 3 → Appended (K.held out.old) (K.held out.new) [] }
    // A write failed.
    ensures sink { result.code ≡ 7 → Rose (K.faults out.old) (K.faults out.new) }
    // Where all is accepted and nothing failed, memory is wanting, or all is done.
    ensures complete { AreAccepted (F.files shelf.old) (single_asked (codes "dump") (map string_bytes words.now.items))
        → ¬ (LoadFailed (F.files shelf.old) (single_asked (codes "dump") (map string_bytes words.now.items))
        (F.faults shelf.old) (F.faults shelf.new) (F.overs shelf.old) (F.overs shelf.new))
        → ¬ (Rose (K.faults out.old) (K.faults out.new)) → (result.code ≡ 0) ⊎ (result.code ≡ 9) }
{
    match read_single_request(alloc, "dump", words.as_slice()) {
        Ok(Some(request)) => dump_named(rt, alloc, &request, shelf, out, gate),
        Ok(None) => finish(out, usage_line(), 2),
        Err(_) => NO_MEMORY,
    }
}

// Loads a program and its input, runs it once, and compares its record with the text.
fn certify_named<Rt: Threads + Sync, F: Shelf, S: Source, K: Sink, G: Gate + Sync>(
    rt: &Rt,
    alloc: Global,
    request: &Request<'_>,
    shelf: &mut F,
    script: &mut S,
    out: &mut K,
    gate: &G,
) -> Status
    requires caps { AreCaps request.now.settings.caps }
    requires workers { IsIn workers request.now.settings.workers }
    ensures status { IsStatus result.code }
    ensures words { (result.code ≡ 2) → ⊥ }
    ensures answered { HasText result.code → Wrote IsVerdict result.code (F.files shelf.old)
        (Some (request_view request.now))
        (S.left script.old) (K.held out.old) (K.held out.new) }
    ensures part { result.code ≡ 7 → WrotePart IsVerdict (F.files shelf.old) (Some (request_view request.now))
        (S.left script.old) (K.held out.old) (K.held out.new) }
    ensures shelf { result.code ≡ 3 → LoadFailed (F.files shelf.old) (Some (request_view request.now))
        (F.faults shelf.old) (F.faults shelf.new) (F.overs shelf.old) (F.overs shelf.new) }
    ensures nothing { (result.code ≡ 3) ⊎ (result.code ≡ 6) ⊎ (result.code ≡ 8) ⊎ (result.code ≡ 9)
        → Appended (K.held out.old) (K.held out.new) [] }
    ensures read { result.code ≡ 0 → IsReadOut (S.left script.old) (S.left script.new) (S.taken script.old)
        (S.taken script.new) }
    ensures source { result.code ≡ 6 → Rose (S.faults script.old) (S.faults script.new) }
    ensures sink { result.code ≡ 7 → Rose (K.faults out.old) (K.faults out.new) }
    ensures long { (result.code ≡ 8) ↔ (S.taken script.new ≡ S.taken script.old + 16777217) }
{
    match open_named(alloc, request, shelf) {
        Ok(mut opened) => {
            let crew = Crew::new(request.settings.workers);
            run_certify(rt, alloc, &mut opened, &crew, script, out, gate)
        }
        Err(Unopened::Refused { line, code }) => finish(out, &line, code),
        Err(Unopened::Ended(status)) => status,
    }
}

/// Does all that the program does for words of the mode `certify`: reads the text to its end, commits once, and writes
/// whether the text is the dump of the record, or how far, or the line of the fault. A record over the caps isn't
/// compared: that is written.
pub fn certified<Rt: Threads + Sync, F: Shelf, S: Source, K: Sink, G: Gate + Sync>(
    rt: &Rt,
    alloc: Global,
    words: &Vec<String>,
    shelf: &mut F,
    script: &mut S,
    out: &mut K,
    gate: &G,
) -> Status
    ensures status { IsStatus result.code }
    // With a status that has a text, that text was written: with 0 the verdict on the text that was read.
    ensures answered { HasText result.code → Wrote IsVerdict result.code (F.files shelf.old)
        (single_asked (codes "certify") (map string_bytes words.now.items)) (S.left script.old) (K.held out.old)
        (K.held out.new) }
    // Where a write failed, a first part of a text was written.
    ensures part { result.code ≡ 7 → WrotePart IsVerdict (F.files shelf.old)
        (single_asked (codes "certify") (map string_bytes words.now.items)) (S.left script.old) (K.held out.old)
        (K.held out.new) }
    // Other words are refused, and no other.
    ensures refused { single_asked (codes "certify") (map string_bytes words.now.items) ≡ None → (result.code ≡ 2) ⊎
        (result.code ≡ 7) ⊎ (result.code ≡ 9) }
    ensures usage { result.code ≡ 2 → single_asked (codes "certify") (map string_bytes words.now.items) ≡ None }
    // A load failed.
    ensures shelf { result.code ≡ 3 → LoadFailed (F.files shelf.old)
        (single_asked (codes "certify") (map string_bytes words.now.items))
        (F.faults shelf.old) (F.faults shelf.new) (F.overs shelf.old) (F.overs shelf.new) }
    // Where a load or a read failed, the text is too long, or memory ran out, nothing was written.
    ensures nothing { (result.code ≡ 3) ⊎ (result.code ≡ 6) ⊎ (result.code ≡ 8) ⊎ (result.code ≡ 9)
        → Appended (K.held out.old) (K.held out.new) [] }
    // Where all is done the text was read to its end.
    ensures read { result.code ≡ 0 → IsReadOut (S.left script.old) (S.left script.new) (S.taken script.old)
        (S.taken script.new) }
    // A read failed.
    ensures source { result.code ≡ 6 → Rose (S.faults script.old) (S.faults script.new) }
    // A write failed.
    ensures sink { result.code ≡ 7 → Rose (K.faults out.old) (K.faults out.new) }
    // The text is too long, exactly where so much of it was read.
    ensures long { (result.code ≡ 8) ↔ (S.taken script.new ≡ S.taken script.old + 16777217) }
    // Where all is accepted and nothing failed, the text is too long or memory is wanting, or all is done.
    ensures complete { AreAccepted (F.files shelf.old) (single_asked (codes "certify")
        (map string_bytes words.now.items))
        → ¬ (LoadFailed (F.files shelf.old) (single_asked (codes "certify") (map string_bytes words.now.items))
        (F.faults shelf.old) (F.faults shelf.new) (F.overs shelf.old) (F.overs shelf.new))
        → ¬ (Rose (S.faults script.old) (S.faults script.new)) → ¬ (Rose (K.faults out.old) (K.faults out.new))
        → (result.code ≡ 0) ⊎ (result.code ≡ 8) ⊎ (result.code ≡ 9) }
{
    match read_single_request(alloc, "certify", words.as_slice()) {
        Ok(Some(request)) => certify_named(rt, alloc, &request, shelf, script, out, gate),
        Ok(None) => finish(out, usage_line(), 2),
        Err(_) => NO_MEMORY,
    }
}
