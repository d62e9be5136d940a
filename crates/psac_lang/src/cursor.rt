// The tokens that are left to read.
ghost use Rattle.std.specs.Prelude.{◌≡◌, ◌↔◌, ◌<◌, [], IsTrue, length, OnOk, IfErr, false};
ghost use Rattle.psac_tokens.specs.declared.token.TheConstants.{NOTHING as nothing};
ghost use Rattle.psac_grammar.specs.Machine.{first, rest, nothing_behind};
ghost use Rattle.psac_lang.specs.Marks.{mark_of, is_over};
ghost use Rattle.psac_lang.specs.Reads.{Settles, syntax_halt, limit_halt};

use crate::fault::Halt;
use crate::marks::Mark;
use psac_tokens::{NOTHING, Token};
use std::marker::Model;

pub fn syntax(token: Token) -> Halt
    ensures { result ≡ syntax_halt token }
{
    Halt::Syntax {
        line: token.line,
        column: token.column,
    }
}

pub fn limit(which: u8, line: u32) -> Halt
    ensures { result ≡ limit_halt which line }
{
    Halt::Limit { which, line }
}

/// The tokens ahead; of the one before them its line, and the limit that it exceeds if it exceeds no lower one.
#[derive(Drop)]
pub struct Cursor<'a> {
    line: u32,
    late: Option<u8>,
    rest: &'a [Token],
}

impl<'a> Model for Cursor<'a> {
    ghost use Rattle.psac_grammar.specs.Machine.{Ahead};

    ghost Value = { Ahead };

    ghost view = { λ c. (record { line = c.line; late = c.late }, c.rest.now) };
}

impl<'a> Cursor<'a> {
    pub fn new(tokens: &'a [Token]) -> Cursor<'a>
        ensures { result ≡ (nothing_behind, tokens.now) }
    {
        Cursor {
            line: 0,
            late: None,
            rest: tokens,
        }
    }

    /// The line of the last token that was read.
    pub fn line(&self) -> u32
        ensures { result ≡ self.now.0.line }
    {
        self.line
    }

    /// The next token.
    pub fn peek(&self) -> Token
        ensures { result ≡ first self.now }
    {
        match self.rest {
            [] => NOTHING,
            [token, ..] => *token,
        }
    }

    pub fn is_empty(&self) -> bool
        ensures { IsTrue result ↔ (self.now.1 ≡ []) }
    {
        match self.rest {
            [] => true,
            [_, ..] => false,
        }
    }

    /// The limit that the last token exceeds, now that none goes before it.
    pub fn settle(&self) -> Result<(), Halt>
        ensures { Settles result self.now.0 }
    {
        match self.late {
            Some(which) => Err(limit(which, self.line)),
            None => Ok(()),
        }
    }

    /// Goes past the next token, which exceeds this limit.
    pub fn skip(&mut self, mark: Mark) -> Result<(), Halt>
        ensures past { OnOk result (self.new ≡ rest (mark_of mark) self.old) }
        ensures shorter { OnOk result (length self.new.1 < length self.old.1) }
        ensures ended { IfErr result (λ e. (self.old.1 ≡ []) × (e ≡ syntax_halt nothing)) }
    {
        match self.rest {
            [] => Err(syntax(NOTHING)),
            [token, rest @ ..] => {
                self.line = token.line;
                self.late = match mark {
                    Mark::Late(which) => Some(which),
                    _ => None,
                };
                self.rest = rest;
                Ok(())
            }
        }
    }
}
