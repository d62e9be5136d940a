// A text that is read whole.
ghost use Rattle.std.specs.Prelude.{◌≡◌, ◌⊎◌, ◌+◌, ◌<◌, ◌≤◌, ◌↔◌, length, IfOk, IfErr, true, false};
ghost use Rattle.std.specs.Io.KnownBytes.{IsAtEnd};
ghost use Rattle.psac_base.specs.Causes.{Rose};
ghost use Rattle.psac_base.specs.Lines.{Grew};
ghost use Rattle.psac_certify.specs.Given.{IsAllOf};

use psac_base::Source;
use psac_open::{NO_MEMORY, Status};
use std::alloc::Global;

// So many bytes are too many.
const LIMIT: usize = 16_777_217;

// Appends a piece to the text, and says whether there was one.
fn read_piece<S: Source>(script: &mut S, text: &mut Vec<u8>) -> Result<bool, Status>
    requires { length text.old.items < 16777217 }
    ensures grew { Grew text.old.items text.new.items (S.left script.old) (S.left script.new) (S.taken script.old)
        (S.taken script.new) }
    ensures some { IfOk result (λ more. more ≡ true → length text.old.items < length text.new.items) }
    ensures few { IfOk result (λ more. length text.new.items < 16777217) }
    ensures end { IfOk result (λ more. more ≡ false → IsAtEnd (S.left script.new)) }
    ensures status { IfErr result (λ s. (s.code ≡ 6) ⊎ (s.code ≡ 8) ⊎ (s.code ≡ 9)) }
    ensures long { IfErr result (λ s. (s.code ≡ 8) ↔ (length text.new.items ≡ 16777217)) }
    ensures later { S.faults script.old ≤ S.faults script.new }
    ensures source { IfErr result (λ s. s.code ≡ 6 → Rose (S.faults script.old) (S.faults script.new)) }
{
    let mut piece = [0u8; 4096];
    let size = (LIMIT - text.len()).min(4096);
    if text.reserve(size).is_err() {
        return Err(NO_MEMORY);
    }
    let Ok(count) = script.read(&mut piece[..size]) else {
        return Err(Status { code: 6 });
    };
    text.extend_from_slice(&piece[..count]).unwrap();
    if text.len() == LIMIT {
        return Err(Status { code: 8 });
    }
    Ok(count > 0)
}

/// Reads a source to its end. The status is 6 where a read failed, 8 exactly where 16,777,217 bytes were read, and 9
/// where memory ran out.
pub fn read_text<S: Source>(alloc: Global, script: &mut S) -> Result<Vec<u8>, Status>
    ensures all { IfOk result (λ text. IsAllOf text.items (S.left script.old) (S.left script.new) (S.taken script.old)
        (S.taken script.new)) }
    ensures status { IfErr result (λ s. (s.code ≡ 6) ⊎ (s.code ≡ 8) ⊎ (s.code ≡ 9)) }
    ensures long { IfErr result (λ s. (s.code ≡ 8) ↔ (S.taken script.new ≡ S.taken script.old + 16777217)) }
    ensures source { IfErr result (λ s. s.code ≡ 6 → Rose (S.faults script.old) (S.faults script.new)) }
{
    let mut text = Vec::new(alloc);
    'pieces: loop {
        if !read_piece(script, &mut text)? {
            return Ok(text);
        }
    }
}
