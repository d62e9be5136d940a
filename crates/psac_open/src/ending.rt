// Ends with a text.
ghost use Rattle.std.specs.Prelude.{◌≡◌, ◌⊎◌, ◌<◌, []};
ghost use Rattle.psac_base.specs.Causes.{Rose};
ghost use Rattle.psac_base.specs.Outside.{Appended, AppendedPart};

use crate::status::Status;
use psac_base::{Sink, write_whole};

/// Writes the text and ends with the status, or with 7 where a write failed.
pub fn finish<K: Sink>(out: &mut K, text: &[u8], code: u8) -> Status
    requires { code < 6 }
    ensures status { (result.code ≡ code) ⊎ (result.code ≡ 7) }
    ensures whole { result.code ≡ code → Appended (K.held out.old) (K.held out.new) text.now }
    ensures part { result.code ≡ 7 → AppendedPart (K.held out.old) (K.held out.new) text.now }
    ensures sink { result.code ≡ 7 → Rose (K.faults out.old) (K.faults out.new) }
{
    match write_whole(out, text) {
        Ok(()) => Status { code },
        Err(_) => Status { code: 7 },
    }
}
