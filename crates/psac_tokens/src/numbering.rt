//! The numbers and the places that tokens carry.

ghost use Rattle.std.specs.Prelude.{◌≡◌, ◌+◌, ◌<◌, ◌≤◌, ◌^◌, length, IfOk, IfSome, OnOk};
ghost use Rattle.psac_tokens.specs.Number.{int_of, names_with, texts_with, plain_token, reads_with, token_of};

use crate::distinct::Distinct;
use crate::place::Place;
use crate::text::content;
use crate::token::{Kind, Token};
use std::alloc::{AllocError, Global};

const MAX_NAME: usize = 32;

const INT_BOUND: u128 = 1 << 63;

/// The number that the digits write, below 2^63.
fn int(digits: &[u8]) -> Option<u64>
    ensures value { result ≡ int_of digits.now }
    ensures bound { IfSome result (λ n. n < 2 ^ 63) }
{
    let mut value: u64 = 0;
    for digit in digits {
        let next = u128::from(value) * 10 + u128::from((*digit).saturating_sub(b'0'));
        if next >= INT_BOUND {
            return None;
        }
        value = next as u64;
    }
    Some(value)
}

/// A token that carries only its place.
pub fn bare(kind: Kind, place: Place) -> Token
    ensures { result ≡ plain_token kind place.line place.column }
{
    Token {
        kind,
        number: 0,
        index: 0,
        line: place.line,
        column: place.column,
        over: false,
    }
}

/// The names, the texts and the number of reads so far.
pub struct Numbering {
    pub names: Distinct,
    pub texts: Distinct,
    pub reads: u32,
}

// By hand, so that each place where one is dropped calls this and no drop of each field is proved there.
impl Drop for Numbering {
    fn drop(self) {
        let Numbering {
            names: _,
            texts: _,
            reads: _,
        } = self;
    }
}

impl Numbering {
    /// The token of this kind that is spelled so, behind what was numbered before.
    pub fn token(
        &mut self,
        alloc: Global,
        kind: Kind,
        spelled: &[u8],
        place: Place,
    ) -> Result<Token, AllocError>
        requires names { length self.old.names < 2 ^ 16 }
        requires texts { length self.old.texts < 2 ^ 16 }
        requires reads { self.old.reads < 2 ^ 16 }
        requires text { kind ≡ Kind.Text → 0 < length spelled.now }
        ensures value { IfOk result (λ made. made ≡ token_of self.old.names self.old.texts self.old.reads kind spelled.now place.line place.column) }
        ensures names { OnOk result (self.new.names ≡ names_with self.old.names kind spelled.now) }
        ensures texts { OnOk result (self.new.texts ≡ texts_with self.old.texts kind spelled.now) }
        ensures reads { OnOk result (self.new.reads ≡ reads_with self.old.reads kind) }
        ensures room { OnOk result ((length self.new.names ≤ length self.old.names + 1) × (length self.new.texts ≤ length self.old.texts + 1) × (self.new.reads ≤ self.old.reads + 1)) }
    {
        let plain = bare(kind, place);
        match kind {
            Kind::Int => match int(spelled) {
                Some(number) => Ok(Token {
                    number: number as i64,
                    ..plain
                }),
                None => Ok(Token {
                    over: true,
                    ..plain
                }),
            },
            Kind::Name => {
                let index = self.names.place(alloc, spelled)? as u16;
                let over = spelled.len() > MAX_NAME;
                Ok(Token {
                    index,
                    over,
                    ..plain
                })
            }
            Kind::Text => {
                let bytes = content(alloc, &spelled[1..])?;
                let index = self.texts.place(alloc, &bytes)? as u16;
                Ok(Token { index, ..plain })
            }
            Kind::Read => {
                let index = self.reads as u16;
                self.reads += 1;
                Ok(Token { index, ..plain })
            }
            _ => Ok(plain),
        }
    }
}
