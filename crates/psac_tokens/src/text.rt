//! Texts between quotes.

ghost use Rattle.std.specs.Prelude.{◌≡◌, ◌≤◌, length, IfOk, IfSome, false};
ghost use Rattle.std.specs.Str.{is_utf8};
ghost use Rattle.psac_tokens.specs.Lex as spec;

use std::alloc::{AllocError, Global};
use std::str;

/// The length of a text behind its opening quote, up to and with the closing one.
pub fn closing(text: &[u8]) -> Option<usize>
    ensures value { result ≡ spec.closing false 0 text.now }
    ensures within { IfSome result (λ n. n ≤ length text.now) }
{
    let mut rest = text;
    let mut at = 0;
    let mut is_escaped = false;
    'bytes: while let [b, more @ ..] = rest {
        at += 1;
        if is_escaped {
            if *b != b'"' && *b != b'\\' && *b != b'n' {
                return None;
            }
            is_escaped = false;
        } else if *b == b'"' {
            return Some(at);
        } else if *b == b'\\' {
            is_escaped = true;
        } else if *b < 32 || *b == 127 {
            return None;
        }
        rest = more;
    }
    None
}

/// The bytes that a text stands for, from behind its opening quote on.
pub fn content(alloc: Global, text: &[u8]) -> Result<Vec<u8>, AllocError>
    ensures { IfOk result (λ bytes. bytes.items ≡ spec.content false text.now) }
{
    let mut bytes = Vec::new(alloc);
    let mut rest = text;
    let mut is_escaped = false;
    'bytes: while let [b, more @ ..] = rest {
        if is_escaped {
            bytes.push(if *b == b'n' { b'\n' } else { *b })?;
            is_escaped = false;
        } else if *b == b'"' {
            return Ok(bytes);
        } else if *b == b'\\' {
            is_escaped = true;
        } else {
            bytes.push(*b)?;
        }
        rest = more;
    }
    Ok(bytes)
}

pub fn is_text(bytes: &[u8]) -> bool
    ensures { result ≡ is_utf8 bytes.now }
{
    str::from_utf8(bytes).is_ok()
}
