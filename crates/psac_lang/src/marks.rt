// The limits that tokens exceed.
ghost use Rattle.std.specs.Prelude.{◌≡◌, ◌<◌, ◌≤◌, false};
ghost use Rattle.psac_grammar.specs.Marked as grammar;
ghost use Rattle.psac_lang.specs.Marks.{mark_of, is_over};

use psac_tokens::{Kind, Token};

pub const MAX_PARENS: u8 = 64;

/// Which limit a token exceeds. A late one is known once the next token is seen.
#[derive(Clone, Copy, Debug, PartialEq, Eq)]
pub enum Mark {
    Fine,
    Over(u8),
    Late(u8),
}

/// The limit that is exceeded where a count isn't below its most.
pub fn below(count: usize, most: usize, which: u8) -> Mark
    ensures value { mark_of result ≡ grammar.below count most which }
    ensures room { is_over result ≡ false → count < most }
{
    if count < most {
        Mark::Fine
    } else {
        Mark::Over(which)
    }
}

/// The limit of a NAME beside another one.
pub fn by_length(mark: Mark, token: Token) -> Mark
    ensures value { mark_of result ≡ grammar.by_length (mark_of mark) token }
    ensures room { is_over result ≡ false → is_over mark ≡ false }
{
    if token.over { Mark::Over(6) } else { mark }
}

// The limit on a NAME or on an INT.
fn size_limit(kind: Kind) -> u8
    ensures { result ≡ grammar.size_limit kind }
{
    match kind {
        Kind::Name => 6,
        _ => 7,
    }
}

/// The limit of an operand beside another one.
pub fn by_size(token: Token, beyond: Mark) -> Mark
    ensures { mark_of result ≡ grammar.or_else (grammar.by_size token) (mark_of beyond) }
{
    if token.over {
        Mark::Late(size_limit(token.kind))
    } else {
        beyond
    }
}

/// The limit of a parenthesis inside this many others, beside another one.
pub fn by_parens(parens: u8, beyond: Mark) -> Mark
    ensures value { mark_of result ≡ grammar.or_else (grammar.by_parens parens) (mark_of beyond) }
    ensures room { is_over result ≡ false → parens < grammar.max_parens }
{
    if parens < MAX_PARENS {
        beyond
    } else {
        Mark::Over(5)
    }
}
