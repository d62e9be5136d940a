//! The token at the front of a text.

ghost use Rattle.std.specs.Prelude.{◌≡◌, ◌⊎◌, ◌+◌, ◌<◌, ◌≤◌, length, map, slice_index, IfOk, true, false};
ghost use Rattle.psac_tokens.specs.Lex as spec;

use crate::text::{closing, content, is_text};
use crate::token::{Kind, RESERVED};
use std::alloc::{AllocError, Global};

fn is_letter(b: u8) -> bool
    ensures { result ≡ spec.is_letter b }
{
    (97 <= b && b <= 122) || b == b'_'
}

fn is_digit(b: u8) -> bool
    ensures { result ≡ spec.is_digit b }
{
    48 <= b && b <= 57
}

/// How many bytes from the front on belong to a word.
fn word_len(text: &[u8]) -> usize
    ensures value { result ≡ spec.word_len text.now }
    ensures within { result ≤ length text.now }
{
    let mut end = 0;
    while end < text.len() && (is_letter(text[end]) || is_digit(text[end])) {
        end += 1;
    }
    end
}

fn digits_len(text: &[u8]) -> usize
    ensures value { result ≡ spec.digits_len text.now }
    ensures within { result ≤ length text.now }
{
    let mut end = 0;
    while end < text.len() && is_digit(text[end]) {
        end += 1;
    }
    end
}

fn same(a: &[u8], b: &[u8]) -> bool
    ensures { result ≡ spec.same a.now b.now }
{
    a == b
}

fn lookup(mut table: &[(&[u8], Kind)], word: &[u8]) -> Kind
    ensures { result ≡ spec.lookup (map (λ k. (k.0.now, k.1)) table.entry.now) word.now }
{
    while let [entry, rest @ ..] = table {
        if same(entry.0, word) {
            return entry.1;
        }
        table = rest;
    }
    Kind::Name
}

#[tactic(auto, unfolding(crate::specs::Lex::reserved))]
fn reserved(word: &[u8]) -> Kind
    ensures { result ≡ spec.reserved word.now }
{
    lookup(&RESERVED, word)
}

/// A text whose content and closing quote are behind the opening one.
fn quoted(alloc: Global, text: &[u8]) -> Result<(Kind, usize), AllocError>
    ensures value { IfOk result (λ token. token ≡ spec.quoted (spec.content false text.now) (spec.closing false 0 text.now)) }
    ensures within { IfOk result (λ token. token.1 ≤ length text.now + 1) }
    ensures last { IfOk result (λ token. token.1 ≡ 0 → token.0 ≡ Kind.Unreadable) }
{
    let Some(len) = closing(text) else {
        return Ok((Kind::Unreadable, 0));
    };
    if is_text(&content(alloc, text)?) {
        Ok((Kind::Text, len + 1))
    } else {
        Ok((Kind::Unreadable, 0))
    }
}

fn mark(b: u8, next: u8) -> (Kind, usize)
    ensures value { result ≡ spec.mark b next }
    ensures short { (result.1 ≤ 1) ⊎ ((result.1 ≡ 2) × (next ≡ 61)) }
    ensures last { result.1 ≡ 0 → result.0 ≡ Kind.Unreadable }
{
    match b {
        b'{' => (Kind::LeftBrace, 1),
        b'}' => (Kind::RightBrace, 1),
        b'(' => (Kind::LeftParen, 1),
        b')' => (Kind::RightParen, 1),
        b';' => (Kind::Semicolon, 1),
        b',' => (Kind::Comma, 1),
        b'+' => (Kind::Plus, 1),
        b'-' => (Kind::Minus, 1),
        b'*' => (Kind::Star, 1),
        b'/' => (Kind::Slash, 1),
        b'%' => (Kind::Percent, 1),
        b'=' => if next == b'=' {
            (Kind::Equal, 2)
        } else {
            (Kind::Assign, 1)
        },
        b'<' => if next == b'=' {
            (Kind::AtMost, 2)
        } else {
            (Kind::Less, 1)
        },
        b'>' => if next == b'=' {
            (Kind::AtLeast, 2)
        } else {
            (Kind::Greater, 1)
        },
        b'!' => if next == b'=' {
            (Kind::Unequal, 2)
        } else {
            (Kind::Unreadable, 0)
        },
        _ => (Kind::Unreadable, 0),
    }
}

/// The kind and the length of the token at the front, where no blank stands. The length is 0 at the end and where no token can be read.
#[tactic(auto, unfolding(crate::specs::Lex::front))]
pub fn front(alloc: Global, text: &[u8]) -> Result<(Kind, usize), AllocError>
    ensures value { IfOk result (λ token. token ≡ spec.front text.now) }
    ensures within { IfOk result (λ token. token.1 ≤ length text.now) }
    ensures last { IfOk result (λ token. token.1 ≡ 0 → (token.0 ≡ Kind.Unreadable) ⊎ (token.0 ≡ Kind.End)) }
{
    let [b, more @ ..] = text else {
        return Ok((Kind::End, 0));
    };
    if is_letter(*b) {
        let len = word_len(text);
        return Ok((reserved(&text[..len]), len));
    }
    if is_digit(*b) {
        return Ok((Kind::Int, digits_len(text)));
    }
    if *b == b'"' {
        return quoted(alloc, more);
    }
    let next = match more {
        [] => 0,
        [c, ..] => *c,
    };
    Ok(mark(*b, next))
}
