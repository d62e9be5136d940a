// What is written of a run that keeps no record.
ghost use Rattle.std.specs.Prelude.{◌≡◌, ◌⊎◌, []};
ghost use Rattle.psac_base.specs.Causes.{Rose};
ghost use Rattle.psac_base.specs.Outside.{Appended, AppendedPart};
ghost use Rattle.psac_report.specs.Session.{reply_text as text_of};
ghost use Rattle.psac_script.specs.Replies.{reply_view};
ghost use Rattle.psac_engine.specs.Engine.{world_in};

use psac_base::Sink;
use psac_engine::Engine;
use psac_inputs::Interner;
use psac_open::{NO_MEMORY, Status, finish};
use psac_script::{Reply, reply_text};
use std::alloc::Global;

/// Writes a reply.
pub fn write_reply<K: Sink>(
    alloc: Global,
    engine: &Engine,
    texts: &Interner,
    reply: &Reply,
    out: &mut K,
) -> Status
    ensures status { (result.code ≡ 0) ⊎ (result.code ≡ 7) ⊎ (result.code ≡ 9) }
    ensures whole { result.code ≡ 0 → Appended (K.held out.old) (K.held out.new)
        (text_of (world_in engine.now) texts.now (reply_view reply.now)) }
    ensures part { result.code ≡ 7 → AppendedPart (K.held out.old) (K.held out.new)
        (text_of (world_in engine.now) texts.now (reply_view reply.now)) }
    ensures nothing { result.code ≡ 9 → Appended (K.held out.old) (K.held out.new) [] }
    ensures sink { result.code ≡ 7 → Rose (K.faults out.old) (K.faults out.new) }
{
    match reply_text(alloc, reply, engine.program(), texts) {
        Ok(text) => finish(out, &text, 0),
        Err(_) => NO_MEMORY,
    }
}
