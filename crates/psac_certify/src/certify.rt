// One run, whose record a text is compared with.
ghost use Rattle.std.specs.Prelude.{◌≡◌, ◌⊎◌, ◌+◌, ◌↔◌, [], IfOk};
ghost use Rattle.psac_base.specs.Causes.{Rose};
ghost use Rattle.psac_base.specs.Outside.{Appended, AppendedPart};
ghost use Rattle.psac_report.specs.Dump.{verdict_line};
ghost use Rattle.psac_engine.specs.Engine.{commits_in};
ghost use Rattle.psac_cert.specs.Compared.{verdict_view};
ghost use Rattle.psac_run.specs.Served.{IsServed};
ghost use Rattle.psac_certify.specs.Answer.{IsVerdict};
ghost use Rattle.psac_certify.specs.Given.{Gave, GavePart, IsReadOut};

use crate::reply::write_reply;
use crate::text::read_text;
use psac_base::{NoMemory, Sink, Source};
use psac_cert::{CertifyFault, Verdict, certify};
use psac_engine::Engine;
use psac_fork::{Crew, Gate};
use psac_inputs::Interner;
use psac_open::{NO_MEMORY, Opened, Status, finish};
use psac_script::{Reply, push_number};
use std::alloc::Global;
use std::thread::Threads;

// The line of a text that isn't the dump.
fn no_line(alloc: Global, at: u64) -> Result<Vec<u8>, NoMemory>
    ensures { IfOk result (λ text. text.items ≡ verdict_line (verdict_view (Verdict.No at))) }
{
    let mut text = Vec::new(alloc);
    text.extend_from_slice(b"no ")?;
    push_number(&mut text, at)?;
    text.push(b'\n')?;
    Ok(text)
}

// Writes a verdict.
fn write_verdict<K: Sink>(
    alloc: Global,
    engine: &Engine,
    texts: &Interner,
    verdict: Verdict,
    out: &mut K,
) -> Status
    ensures status { (result.code ≡ 0) ⊎ (result.code ≡ 7) ⊎ (result.code ≡ 9) }
    ensures whole { result.code ≡ 0 → Appended (K.held out.old) (K.held out.new) (verdict_line (verdict_view verdict)) }
    ensures part { result.code ≡ 7 → AppendedPart (K.held out.old) (K.held out.new)
        (verdict_line (verdict_view verdict)) }
    ensures nothing { result.code ≡ 9 → Appended (K.held out.old) (K.held out.new) [] }
    ensures sink { result.code ≡ 7 → Rose (K.faults out.old) (K.faults out.new) }
{
    match verdict {
        Verdict::Yes => finish(out, b"yes\n", 0),
        Verdict::No { at } => match no_line(alloc, at) {
            Ok(line) => finish(out, &line, 0),
            Err(_) => NO_MEMORY,
        },
        Verdict::Stopped { kind, line } => {
            write_reply(alloc, engine, texts, &Reply::Faulted(kind, line), out)
        }
    }
}

/// Reads the text to its end, runs once, and writes what the text is found to be; or that the record would be too
/// large.
pub fn run_certify<Rt: Threads + Sync, S: Source, K: Sink, G: Gate + Sync>(
    rt: &Rt,
    alloc: Global,
    opened: &mut Opened,
    crew: &Crew,
    script: &mut S,
    out: &mut K,
    gate: &G,
) -> Status
    requires { commits_in opened.old.engine ≡ 0 }
    ensures status { IsServed result.code }
    ensures whole { result.code ≡ 0 → Gave IsVerdict opened.old (S.left script.old) (K.held out.old) (K.held out.new) }
    ensures part { result.code ≡ 7 → GavePart IsVerdict opened.old (S.left script.old) (K.held out.old)
        (K.held out.new) }
    ensures nothing { (result.code ≡ 6) ⊎ (result.code ≡ 8) ⊎ (result.code ≡ 9) → Appended (K.held out.old)
        (K.held out.new) [] }
    ensures read { (result.code ≡ 0) ⊎ (result.code ≡ 7) → IsReadOut (S.left script.old) (S.left script.new)
        (S.taken script.old) (S.taken script.new) }
    ensures source { result.code ≡ 6 → Rose (S.faults script.old) (S.faults script.new) }
    ensures sink { result.code ≡ 7 → Rose (K.faults out.old) (K.faults out.new) }
    ensures long { (result.code ≡ 8) ↔ (S.taken script.new ≡ S.taken script.old + 16777217) }
{
    let text = match read_text(alloc, script) {
        Ok(text) => text,
        Err(status) => return status,
    };
    match certify(
        rt,
        alloc,
        &mut opened.engine,
        &opened.texts,
        &text,
        crew,
        gate,
    ) {
        Ok(verdict) => write_verdict(alloc, &opened.engine, &opened.texts, verdict, out),
        Err(CertifyFault::Full { .. }) => finish(out, b"full\n", 0),
        Err(CertifyFault::NoMemory) => NO_MEMORY,
    }
}
