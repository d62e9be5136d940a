//! All tokens of a text.

ghost use Rattle.std.specs.Prelude.{◌≡◌, ◌+◌, ◌<◌, ◌≤◌, ◌^◌, length, IfOk};
ghost use Rattle.psac_tokens.specs.Number as number;

use crate::distinct::Distinct;
use crate::front::front;
use crate::numbering::{Numbering, bare};
use crate::place::{Place, skip};
use crate::token::Token;
use psac_syntax::{TextConst, Word};
use sqlite_items::Items;
use std::alloc::{AllocError, Global};

/// The tokens of a text, its names and its texts in the order of first appearance, and how many reads it has.
#[derive(Drop)]
pub struct Lexed {
    pub tokens: Vec<Token>,
    pub names: Items<Word>,
    pub texts: Items<TextConst>,
    pub reads: u32,
}

fn finished(alloc: Global, tokens: Vec<Token>, so_far: Numbering) -> Result<Lexed, AllocError>
    ensures tokens { IfOk result (λ found. found.tokens.items ≡ tokens.items) }
    ensures names { IfOk result (λ found. found.names ≡ so_far.names) }
    ensures texts { IfOk result (λ found. found.texts ≡ so_far.texts) }
    ensures reads { IfOk result (λ found. found.reads ≡ so_far.reads) }
{
    Ok(Lexed {
        tokens,
        names: so_far.names.names(alloc)?,
        texts: so_far.texts.texts(alloc)?,
        reads: so_far.reads,
    })
}

/// The tokens, up to the end or the first byte where none can be read.
pub fn lex(alloc: Global, text: &[u8]) -> Result<Lexed, AllocError>
    requires { length text.now ≤ 65536 }
    ensures tokens { IfOk result (λ found. found.tokens.items ≡ number.tokens text.now) }
    ensures names { IfOk result (λ found. found.names ≡ number.names text.now) }
    ensures texts { IfOk result (λ found. found.texts ≡ number.texts text.now) }
    ensures reads { IfOk result (λ found. found.reads ≡ number.reads text.now) }
{
    let mut tokens = Vec::new(alloc);
    let mut so_far = Numbering {
        names: Distinct::new(alloc),
        texts: Distinct::new(alloc),
        reads: 0,
    };
    let mut rest = text;
    let mut place = Place { line: 1, column: 1 };
    'turns: for _ in 0..text.len() + 1 {
        let (ahead, at) = skip(rest, place);
        let (kind, len) = front(alloc, ahead)?;
        let (spelled, behind) = ahead.split_at(len);
        if len == 0 {
            tokens.push(bare(kind, at))?;
            return Ok(finished(alloc, tokens, so_far)?);
        }
        tokens.push(so_far.token(alloc, kind, spelled, at)?)?;
        rest = behind;
        place = Place {
            line: at.line,
            column: at.column + len as u32,
        };
    }
    Ok(finished(alloc, tokens, so_far)?)
}
