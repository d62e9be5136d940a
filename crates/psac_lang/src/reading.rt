// One token of a kind.
ghost use Rattle.std.specs.Prelude.{◌≡◌, ◌≤◌, ◌<◌, length, false, None, OnOk};
ghost use Rattle.psac_grammar.specs.Marked.{max_parens, max_names};
ghost use Rattle.psac_grammar.specs.Machine.{mark, opening, a_name, binding, listed as one_listed, of_name, closing_of, late_of};
ghost use Rattle.psac_lang.specs.Marks.{mark_of, is_over};
ghost use Rattle.psac_lang.specs.Reads.{Reads, Takes, Passes, TakesKind, TakesName, name_list, list_limit};

use crate::cursor::{Cursor, syntax};
use crate::fault::Halt;
use crate::marks::{Mark, below, by_length, by_parens};
use psac_tokens::{Kind, Token};

const MAX_NAMES: usize = 24;

const MAX_GIVEN: usize = 24;

/// A list of names.
#[derive(Clone, Copy, Debug, PartialEq, Eq)]
pub enum NameList {
    HeaderValues,
    HeaderDests,
    CallDests,
}

/// Goes past the next token, which may exceed this limit.
pub fn pass(tokens: &mut Cursor<'_>, mark: Mark) -> Result<(), Halt>
    ensures passes { Passes mark result tokens.old tokens.new }
    ensures settled { OnOk result (tokens.new.0.late ≡ late_of (mark_of mark)) }
    ensures shorter { OnOk result (length tokens.new.1 < length tokens.old.1) }
    ensures fits { OnOk result (is_over mark ≡ false) }
{
    tokens.settle()?;
    if let Mark::Over(which) = mark {
        return Err(Halt::Limit {
            which,
            line: tokens.peek().line,
        });
    }
    tokens.skip(mark)?;
    Ok(())
}

/// Goes past a token of this kind, which may exceed this limit.
pub fn take(tokens: &mut Cursor<'_>, kind: Kind, mark: Mark) -> Result<(), Halt>
    ensures settled { OnOk result (tokens.new.0.late ≡ late_of (mark_of mark)) }
    ensures takes { TakesKind kind mark result tokens.old tokens.new }
    ensures shorter { OnOk result (length tokens.new.1 < length tokens.old.1) }
    ensures fits { OnOk result (is_over mark ≡ false) }
{
    let token = tokens.peek();
    if token.kind != kind {
        tokens.settle()?;
        return Err(syntax(token));
    }
    pass(tokens, mark)?;
    Ok(())
}

/// Goes past a token of this kind.
pub fn expect(tokens: &mut Cursor<'_>, kind: Kind) -> Result<(), Halt>
    ensures reads { Takes (mark kind) result tokens.old tokens.new }
    ensures settled { OnOk result (tokens.new.0.late ≡ None) }
    ensures shorter { OnOk result (length tokens.new.1 < length tokens.old.1) }
{
    take(tokens, kind, Mark::Fine)
}

/// Goes past an opening parenthesis inside this many others.
pub fn open_paren(tokens: &mut Cursor<'_>, parens: u8) -> Result<(), Halt>
    ensures reads { Takes (opening parens) result tokens.old tokens.new }
    ensures shorter { OnOk result (length tokens.new.1 < length tokens.old.1) }
    ensures room { OnOk result (parens < max_parens) }
{
    take(tokens, Kind::LeftParen, by_parens(parens, Mark::Fine))
}

/// A name, which may exceed this limit or be too long.
fn named(tokens: &mut Cursor<'_>, mark: Mark) -> Result<u16, Halt>
    ensures takes { TakesName mark result tokens.old tokens.new }
    ensures shorter { OnOk result (length tokens.new.1 < length tokens.old.1) }
    ensures fits { OnOk result (is_over mark ≡ false) }
{
    let token = tokens.peek();
    take(tokens, Kind::Name, by_length(mark, token))?;
    Ok(token.index)
}

/// A name that is used.
pub fn name(tokens: &mut Cursor<'_>) -> Result<u16, Halt>
    ensures reads { Reads of_name a_name result tokens.old tokens.new }
    ensures shorter { OnOk result (length tokens.new.1 < length tokens.old.1) }
{
    named(tokens, Mark::Fine)
}

/// A name that is bound beside this many others.
pub fn bound(tokens: &mut Cursor<'_>, names: usize) -> Result<u16, Halt>
    ensures reads { Reads of_name (binding names) result tokens.old tokens.new }
    ensures shorter { OnOk result (length tokens.new.1 < length tokens.old.1) }
    ensures room { OnOk result (names < max_names) }
{
    named(tokens, below(names, MAX_NAMES, 8))
}

/// The limit on a name of a list, behind this many others.
fn list_mark(list: NameList, count: usize) -> Mark
    ensures value { mark_of result ≡ list_limit list count }
    ensures room { is_over result ≡ false → count < max_names }
{
    match list {
        NameList::CallDests => below(count, MAX_GIVEN, 9),
        _ => below(count, MAX_NAMES, 8),
    }
}

/// A name of a list, behind this many others.
pub fn listed(tokens: &mut Cursor<'_>, list: NameList, count: usize) -> Result<u16, Halt>
    ensures reads { Reads of_name (one_listed (name_list list) count) result tokens.old tokens.new }
    ensures shorter { OnOk result (length tokens.new.1 < length tokens.old.1) }
    ensures room { OnOk result (count < max_names) }
{
    named(tokens, list_mark(list, count))
}

/// The mark that ends a list.
pub fn closing(list: NameList) -> Kind
    ensures { result ≡ closing_of (name_list list) }
{
    match list {
        NameList::HeaderValues => Kind::Semicolon,
        _ => Kind::RightParen,
    }
}
