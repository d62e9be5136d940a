// The top call.
ghost use Rattle.std.specs.Prelude.{◌≡◌, ◌⊎◌, ◌↔◌, ◌+◌, [], None, Some, map, string_bytes};
ghost use Rattle.psac_base.specs.Causes.{Rose};
ghost use Rattle.psac_base.specs.Outside.{Appended};
ghost use Rattle.psac_command.specs.Asked.{AreCaps, Asked, IsIn, asked, workers};
ghost use Rattle.psac_command.specs.Views.{request_view};
ghost use Rattle.psac_session.specs.Answered.{AnsweredLong, AnsweredWhole, ReadOut};
ghost use Rattle.psac_open.specs.Loaded.{LoadFailed};
ghost use Rattle.psac_run.specs.Answer.{Held, IsNoSession, Wrote, WrotePart, WroteSome};
ghost use Rattle.psac_run.specs.Reported.{AreAccepted, HasPart, HasText, IsStatus, IsUntaken};

use crate::serve::serve;
use psac_base::{Shelf, Sink, Source};
use psac_command::{Mode, Request, read_request};
use psac_fork::{Crew, Gate};
use psac_open::{NO_MEMORY, Status, Unopened, finish, open_named};
use psac_refusals::usage_line;
use std::alloc::Global;
use std::thread::Threads;

// Loads a program and its input, and runs it.
fn run_request<Rt: Threads + Sync, F: Shelf, S: Source, K: Sink, G: Gate + Sync>(
    rt: &Rt,
    alloc: Global,
    request: &Request<'_>,
    shelf: &mut F,
    script: &mut S,
    out: &mut K,
    gate: &G,
) -> Status
    requires caps { AreCaps request.now.settings.caps }
    requires workers { IsIn workers request.now.settings.workers }
    ensures status { IsStatus result.code }
    ensures words { (result.code ≡ 2) → ⊥ }
    ensures answered { HasText result.code → Wrote result.code (F.files shelf.old) (Some (request_view request.now))
        (S.left script.old) (K.held out.old) (K.held out.new) }
    ensures part { HasPart result.code → WrotePart (F.files shelf.old) (Some (request_view request.now))
        (S.left script.old) (K.held out.old) (K.held out.new) }
    ensures memory { result.code ≡ 9 → WroteSome (F.files shelf.old) (Some (request_view request.now))
        (S.left script.old) (K.held out.old) (K.held out.new) }
    ensures sink { result.code ≡ 7 → Rose (K.faults out.old) (K.faults out.new) }
    ensures source { result.code ≡ 6 → Rose (S.faults script.old) (S.faults script.new) }
    ensures shelf { result.code ≡ 3 → LoadFailed (F.files shelf.old) (Some (request_view request.now))
        (F.faults shelf.old) (F.faults shelf.new) (F.overs shelf.old) (F.overs shelf.new) }
    ensures nothing { result.code ≡ 3 → Appended (K.held out.old) (K.held out.new) [] }
    ensures script { request.now.mode ≡ Mode.Once → script.new ≡ script.old }
    ensures unread { IsUntaken result.code → script.new ≡ script.old }
    ensures single { request.now.mode ≡ Mode.Once → ((result.code ≡ 6) ⊎ (result.code ≡ 8)) → ⊥ }
    ensures spare { request.now.mode ≡ Mode.Once → result.code ≡ 9 → Appended (K.held out.old) (K.held out.new) [] }
    ensures read { request.now.mode ≡ Mode.Session → result.code ≡ 0
        → ReadOut (S.left script.old) (S.left script.new) (S.taken script.old) (S.taken script.new) }
    ensures broken { result.code ≡ 6 → Held (F.files shelf.old) (Some (request_view request.now)) (λ answer. AnsweredWhole answer
        (S.left script.old) (S.left script.new) (K.held out.old) (K.held out.new)) }
    ensures long { (result.code ≡ 8) ↔ (S.taken script.new ≡ S.taken script.old + 16777217) }
    ensures much { result.code ≡ 8 → Held (F.files shelf.old) (Some (request_view request.now)) (λ answer. AnsweredLong answer
        (S.left script.old) (S.left script.new) (K.held out.old) (K.held out.new)) }
{
    match open_named(alloc, request, shelf) {
        Ok(mut opened) => {
            let crew = Crew::new(request.settings.workers);
            serve(
                rt,
                alloc,
                request.mode,
                &mut opened,
                &crew,
                script,
                out,
                gate,
            )
        }
        Err(Unopened::Refused { line, code }) => finish(out, &line, code),
        Err(Unopened::Ended(status)) => status,
    }
}

/// Does all that the program does, and answers the status.
pub fn psac<Rt: Threads + Sync, F: Shelf, S: Source, K: Sink, G: Gate + Sync>(
    rt: &Rt,
    alloc: Global,
    words: &Vec<String>,
    shelf: &mut F,
    script: &mut S,
    out: &mut K,
    gate: &G,
) -> Status
    ensures status { IsStatus result.code }
    // With a status that has a text, that text was written: with 0 the whole report.
    ensures answered { HasText result.code → Wrote result.code (F.files shelf.old)
        (asked (map string_bytes words.now.items)) (S.left script.old) (K.held out.old) (K.held out.new) }
    // Where a read or a write failed, and where the script is too long, a first part of a text was written.
    ensures part { HasPart result.code → WrotePart (F.files shelf.old)
        (asked (map string_bytes words.now.items)) (S.left script.old) (K.held out.old) (K.held out.new) }
    // Where memory ran out, such a part or nothing.
    ensures memory { result.code ≡ 9 → WroteSome (F.files shelf.old)
        (asked (map string_bytes words.now.items)) (S.left script.old) (K.held out.old) (K.held out.new) }
    // Other words are refused, and no other.
    ensures refused { asked (map string_bytes words.now.items) ≡ None → (result.code ≡ 2) ⊎ (result.code ≡ 7) ⊎ (result.code ≡ 9) }
    ensures usage { result.code ≡ 2 → asked (map string_bytes words.now.items) ≡ None }
    // A load failed, and nothing was written.
    ensures shelf { result.code ≡ 3 → LoadFailed (F.files shelf.old) (asked (map string_bytes words.now.items))
        (F.faults shelf.old) (F.faults shelf.new) (F.overs shelf.old) (F.overs shelf.new) }
    ensures nothing { result.code ≡ 3 → Appended (K.held out.old) (K.held out.new) [] }
    // A read failed: the whole lines of what was read were answered.
    ensures source { result.code ≡ 6 → Rose (S.faults script.old) (S.faults script.new) }
    ensures broken { result.code ≡ 6 → Held (F.files shelf.old) (asked (map string_bytes words.now.items)) (λ answer. AnsweredWhole answer
        (S.left script.old) (S.left script.new) (K.held out.old) (K.held out.new)) }
    // A write failed.
    ensures sink { result.code ≡ 7 → Rose (K.faults out.old) (K.faults out.new) }
    // The script is too long, exactly where so much of it was read.
    ensures long { (result.code ≡ 8) ↔ (S.taken script.new ≡ S.taken script.old + 16777217) }
    ensures much { result.code ≡ 8 → Held (F.files shelf.old) (asked (map string_bytes words.now.items)) (λ answer. AnsweredLong answer
        (S.left script.old) (S.left script.new) (K.held out.old) (K.held out.new)) }
    // A session that ends well has read its script up to the end, or up to `quit`.
    ensures read { (a : Asked) → asked (map string_bytes words.now.items) ≡ Some a → a.mode ≡ Mode.Session → result.code ≡ 0
        → ReadOut (S.left script.old) (S.left script.new) (S.taken script.old) (S.taken script.new) }
    // Where the program or the input isn't taken, the script isn't read.
    ensures unread { IsUntaken result.code → script.new ≡ script.old }
    // Without a session the script isn't read, and where memory ran out nothing was written.
    ensures script { IsNoSession (asked (map string_bytes words.now.items)) → script.new ≡ script.old }
    ensures spare { IsNoSession (asked (map string_bytes words.now.items)) → result.code ≡ 9
        → Appended (K.held out.old) (K.held out.new) [] }
    // Where all is accepted and nothing failed, the script is too long or memory is wanting, or all is done.
    ensures complete { AreAccepted (F.files shelf.old) (asked (map string_bytes words.now.items))
        → ¬ (LoadFailed (F.files shelf.old) (asked (map string_bytes words.now.items))
        (F.faults shelf.old) (F.faults shelf.new) (F.overs shelf.old) (F.overs shelf.new))
        → ¬ (Rose (S.faults script.old) (S.faults script.new)) → ¬ (Rose (K.faults out.old) (K.faults out.new))
        → (result.code ≡ 0) ⊎ (result.code ≡ 8) ⊎ (result.code ≡ 9) }
{
    match read_request(alloc, words.as_slice()) {
        Ok(Some(request)) => run_request(rt, alloc, &request, shelf, script, out, gate),
        Ok(None) => finish(out, usage_line(), 2),
        Err(_) => NO_MEMORY,
    }
}
