// The call for the mode `watch`.
ghost use Rattle.std.specs.Prelude.{◌≡◌, ◌⊎◌, ◌↔◌, ◌+◌, [], None, Some, map, string_bytes};
ghost use Rattle.psac_base.specs.Causes.{Rose};
ghost use Rattle.psac_base.specs.Outside.{Appended};
ghost use Rattle.psac_command.specs.Asked.{AreCaps, IsIn, watch_asked, workers};
ghost use Rattle.psac_command.specs.Views.{request_view};
ghost use Rattle.psac_session.specs.Answered.{AnsweredLong, AnsweredWhole, ReadOut};
ghost use Rattle.psac_open.specs.Loaded.{LoadFailed};
ghost use Rattle.psac_run.specs.Reported.{AreAccepted, HasPart, HasText, IsStatus, IsUntaken, Wrote, WrotePart, WroteSome};
ghost use Rattle.psac_watch.specs.Over.{Over};
ghost use Rattle.psac_watch.specs.Watched.{IsSeen, IsSeenWhole, IsWatch, answer_at, hearing_at};

use crate::eye::Eye;
use crate::run::run_watch;
use psac_base::{Shelf, Sink, Source};
use psac_command::{Request, read_watch_request};
use psac_fork::{Crew, Gate};
use psac_open::{NO_MEMORY, Status, Unopened, finish, open_named};
use psac_refusals::usage_line;
use std::alloc::Global;
use std::sync::Wait;
use std::thread::Threads;

// Loads a program and its input, and holds a session over the script.
fn watch_named<Rt: Threads + Wait + Sync, F: Shelf, S: Source, K: Sink, G: Gate + Sync, E: Eye>(
    rt: &Rt,
    alloc: Global,
    request: &Request<'_>,
    shelf: &mut F,
    script: &mut S,
    out: &mut K,
    gate: &G,
    eye: &mut E,
) -> Status
    requires caps { AreCaps request.now.settings.caps }
    requires workers { IsIn workers request.now.settings.workers }
    ensures words { (result.code ≡ 2) → ⊥ }
    ensures status { IsStatus result.code }
    ensures answered { HasText result.code → Wrote IsWatch result.code (F.files shelf.old)
        (Some (request_view request.now)) (S.left script.old) (K.held out.old) (K.held out.new) }
    ensures part { HasPart result.code → WrotePart IsWatch (F.files shelf.old)
        (Some (request_view request.now)) (S.left script.old) (K.held out.old) (K.held out.new) }
    ensures memory { result.code ≡ 9 → WroteSome IsWatch (F.files shelf.old)
        (Some (request_view request.now)) (S.left script.old) (K.held out.old) (K.held out.new) }
    ensures shelf { result.code ≡ 3 → LoadFailed (F.files shelf.old) (Some (request_view request.now))
        (F.faults shelf.old) (F.faults shelf.new) (F.overs shelf.old) (F.overs shelf.new) }
    ensures nothing { result.code ≡ 3 → Appended (K.held out.old) (K.held out.new) [] }
    ensures source { result.code ≡ 6 → Rose (S.faults script.old) (S.faults script.new) }
    ensures broken { result.code ≡ 6 → Over (F.files shelf.old) (Some (request_view request.now))
        (λ w caps s. AnsweredWhole (answer_at w caps s) (S.left script.old) (S.left script.new) (K.held out.old)
        (K.held out.new)) }
    ensures sink { result.code ≡ 7 → Rose (K.faults out.old) (K.faults out.new) }
    ensures long { (result.code ≡ 8) ↔ (S.taken script.new ≡ S.taken script.old + 16777217) }
    ensures much { result.code ≡ 8 → Over (F.files shelf.old) (Some (request_view request.now))
        (λ w caps s. AnsweredLong (answer_at w caps s) (S.left script.old) (S.left script.new) (K.held out.old)
        (K.held out.new)) }
    ensures read { result.code ≡ 0
        → ReadOut (S.left script.old) (S.left script.new) (S.taken script.old) (S.taken script.new) }
    ensures unread { IsUntaken result.code → script.new ≡ script.old }
    ensures shown { (E.shown eye.new ≡ E.shown eye.old) ⊎ Over (F.files shelf.old) (Some (request_view request.now))
        (λ w caps s. IsSeen (hearing_at w caps s) (S.left script.old) (E.shown eye.old) (E.shown eye.new)) }
    ensures last { result.code ≡ 0 → Over (F.files shelf.old) (Some (request_view request.now))
        (λ w caps s. IsSeenWhole (answer_at w caps s) (hearing_at w caps s) (S.left script.old) (K.held out.old)
        (K.held out.new) (E.shown eye.old) (E.shown eye.new)) }
{
    match open_named(alloc, request, shelf) {
        Ok(mut opened) => {
            let crew = Crew::new(request.settings.workers);
            run_watch(rt, alloc, &mut opened, &crew, script, out, gate, eye)
        }
        Err(Unopened::Refused { line, code }) => finish(out, &line, code),
        Err(Unopened::Ended(status)) => status,
    }
}

/// Does all that the program does for words of the mode `watch`: holds a session over the script, shows its outputs to an eye
/// while it runs, and writes how many commits there were behind the replies. It gives the status, and the eye.
pub fn watch<Rt: Threads + Wait + Sync, F: Shelf, S: Source, K: Sink, G: Gate + Sync, E: Eye>(
    rt: &Rt,
    alloc: Global,
    words: &Vec<String>,
    shelf: &mut F,
    script: &mut S,
    out: &mut K,
    gate: &G,
    mut eye: E,
) -> (Status, E)
    ensures status { IsStatus result.0.code }
    // With a status that has a text, that text was written: with 0 the replies, and then how many commits there were.
    ensures answered { HasText result.0.code → Wrote IsWatch result.0.code (F.files shelf.old)
        (watch_asked (map string_bytes words.now.items)) (S.left script.old) (K.held out.old) (K.held out.new) }
    // Where a read or a write failed, and where the script is too long, a first part of a text was written.
    ensures part { HasPart result.0.code → WrotePart IsWatch (F.files shelf.old)
        (watch_asked (map string_bytes words.now.items)) (S.left script.old) (K.held out.old) (K.held out.new) }
    // Where memory ran out, such a part or nothing.
    ensures memory { result.0.code ≡ 9 → WroteSome IsWatch (F.files shelf.old)
        (watch_asked (map string_bytes words.now.items)) (S.left script.old) (K.held out.old) (K.held out.new) }
    // Other words are refused, and no other.
    ensures refused { watch_asked (map string_bytes words.now.items) ≡ None → (result.0.code ≡ 2) ⊎ (result.0.code ≡ 7) ⊎
        (result.0.code ≡ 9) }
    ensures usage { result.0.code ≡ 2 → watch_asked (map string_bytes words.now.items) ≡ None }
    // A load failed, and nothing was written.
    ensures shelf { result.0.code ≡ 3 → LoadFailed (F.files shelf.old) (watch_asked (map string_bytes words.now.items))
        (F.faults shelf.old) (F.faults shelf.new) (F.overs shelf.old) (F.overs shelf.new) }
    ensures nothing { result.0.code ≡ 3 → Appended (K.held out.old) (K.held out.new) [] }
    // A read failed: the whole lines of what was read were answered.
    ensures source { result.0.code ≡ 6 → Rose (S.faults script.old) (S.faults script.new) }
    ensures broken { result.0.code ≡ 6 → Over (F.files shelf.old) (watch_asked (map string_bytes words.now.items))
        (λ w caps s. AnsweredWhole (answer_at w caps s) (S.left script.old) (S.left script.new) (K.held out.old)
        (K.held out.new)) }
    // A write failed.
    ensures sink { result.0.code ≡ 7 → Rose (K.faults out.old) (K.faults out.new) }
    // The script is too long, exactly where so much of it was read.
    ensures long { (result.0.code ≡ 8) ↔ (S.taken script.new ≡ S.taken script.old + 16777217) }
    ensures much { result.0.code ≡ 8 → Over (F.files shelf.old) (watch_asked (map string_bytes words.now.items))
        (λ w caps s. AnsweredLong (answer_at w caps s) (S.left script.old) (S.left script.new) (K.held out.old)
        (K.held out.new)) }
    // Where all is done the script was read up to the end, or up to `quit`.
    ensures read { result.0.code ≡ 0
        → ReadOut (S.left script.old) (S.left script.new) (S.taken script.old) (S.taken script.new) }
    // Where the program or the input isn't taken, the script isn't read.
    ensures unread { IsUntaken result.0.code → script.new ≡ script.old }
    // The eye was shown nothing, or values with rising numbers of commits. Where the script is told each has the outputs
    // after so many commits.
    ensures shown { (E.shown result.1 ≡ E.shown eye) ⊎ Over (F.files shelf.old) (watch_asked (map string_bytes words.now.items))
        (λ w caps s. IsSeen (hearing_at w caps s) (S.left script.old) (E.shown eye) (E.shown result.1)) }
    // Where all is done the last of them has as many commits as there were.
    ensures last { result.0.code ≡ 0 → Over (F.files shelf.old) (watch_asked (map string_bytes words.now.items))
        (λ w caps s. IsSeenWhole (answer_at w caps s) (hearing_at w caps s) (S.left script.old) (K.held out.old)
        (K.held out.new) (E.shown eye) (E.shown result.1)) }
    // Where all is accepted and nothing failed, the script is too long or memory is wanting, or all is done.
    ensures complete { AreAccepted (F.files shelf.old) (watch_asked (map string_bytes words.now.items))
        → ¬ (LoadFailed (F.files shelf.old) (watch_asked (map string_bytes words.now.items))
        (F.faults shelf.old) (F.faults shelf.new) (F.overs shelf.old) (F.overs shelf.new))
        → ¬ (Rose (S.faults script.old) (S.faults script.new)) → ¬ (Rose (K.faults out.old) (K.faults out.new))
        → (result.0.code ≡ 0) ⊎ (result.0.code ≡ 8) ⊎ (result.0.code ≡ 9) }
{
    match read_watch_request(alloc, words.as_slice()) {
        Ok(Some(request)) => {
            let status = watch_named(rt, alloc, &request, shelf, script, out, gate, &mut eye);
            (status, eye)
        }
        Ok(None) => (finish(out, usage_line(), 2), eye),
        Err(_) => (NO_MEMORY, eye),
    }
}
