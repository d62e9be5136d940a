// Lists of names, of values and of items.
ghost use Rattle.std.specs.Prelude.{◌≡◌, ◌+◌, ◌<◌, ◌≤◌, length, IfOk, OnOk};
ghost use Rattle.psac_grammar.specs.Marked.{max_names};
ghost use Rattle.psac_lang.specs.Reads.{AddsItem, ReadsItems, ReadsNames, ReadsValues, item_follows};

use crate::cursor::Cursor;
use crate::expression::{expr, value};
use crate::fault::Halt;
use crate::marks::{Mark, below};
use crate::reading::{NameList, bound, closing, expect, listed, take};
use crate::start::TOP;
use psac_syntax::{Expr, ReadItem};
use psac_tokens::Kind;
use sqlite_items::Items;
use std::alloc::Global;

const MAX_GIVEN: usize = 24;

const MOST_ITEMS: usize = 4;

/// The names of a list and the mark behind them, beside this many other names.
pub fn names(
    alloc: Global,
    tokens: &mut Cursor<'_>,
    list: NameList,
    beside: usize,
) -> Result<Items<u16>, Halt>
    requires { beside ≤ max_names }
    ensures reads { ReadsNames list beside result tokens.old tokens.new }
    ensures shorter { OnOk result (length tokens.new.1 < length tokens.old.1) }
    ensures room { IfOk result (λ found. beside + length found ≤ max_names) }
{
    let mut names = Items::new(alloc);
    if tokens.peek().kind != Kind::Name {
        take(tokens, closing(list), Mark::Fine)?;
        return Ok(names);
    }
    names.push(listed(tokens, list, beside)?)?;
    'more: while tokens.peek().kind == Kind::Comma {
        take(tokens, Kind::Comma, Mark::Fine)?;
        let count = beside + names.len();
        names.push(listed(tokens, list, count)?)?;
    }
    take(tokens, closing(list), Mark::Fine)?;
    Ok(names)
}

/// The values of a call and the semicolon behind them.
pub fn values(alloc: Global, tokens: &mut Cursor<'_>) -> Result<Items<Expr>, Halt>
    ensures reads { ReadsValues result tokens.old tokens.new }
    ensures shorter { OnOk result (length tokens.new.1 < length tokens.old.1) }
{
    let mut values = Items::new(alloc);
    if tokens.peek().kind == Kind::Semicolon {
        take(tokens, Kind::Semicolon, Mark::Fine)?;
        return Ok(values);
    }
    values.push(value(alloc, tokens, Mark::Fine)?)?;
    'more: while tokens.peek().kind == Kind::Comma {
        take(tokens, Kind::Comma, Mark::Fine)?;
        let beyond = below(values.len(), MAX_GIVEN, 9);
        values.push(value(alloc, tokens, beyond)?)?;
    }
    take(tokens, Kind::Semicolon, Mark::Fine)?;
    Ok(values)
}

/// Whether one more item follows behind this many.
fn follows(count: usize, kind: Kind) -> bool
    ensures { result ≡ item_follows count kind }
{
    count < MOST_ITEMS && kind == Kind::Comma
}

/// One item of a read block, beside this many names.
fn item(alloc: Global, tokens: &mut Cursor<'_>, names: usize) -> Result<ReadItem, Halt>
    requires { names ≤ max_names }
    ensures adds { AddsItem names result tokens.old tokens.new }
    ensures shorter { OnOk result (length tokens.new.1 < length tokens.old.1) }
    ensures room { OnOk result (names < max_names) }
{
    let from = expr(alloc, tokens, TOP, 0)?;
    expect(tokens, Kind::As)?;
    let bound = bound(tokens, names)?;
    Ok(ReadItem {
        from: from.expr,
        bound,
    })
}

/// The items of a read block, beside this many names.
pub fn items(alloc: Global, tokens: &mut Cursor<'_>, names: usize) -> Result<Items<ReadItem>, Halt>
    requires { names ≤ max_names }
    ensures reads { ReadsItems names result tokens.old tokens.new }
    ensures shorter { OnOk result (length tokens.new.1 < length tokens.old.1) }
    ensures room { IfOk result (λ found. names + length found ≤ max_names) }
{
    let mut items = Items::new(alloc);
    items.push(item(alloc, tokens, names)?)?;
    'more: while follows(items.len(), tokens.peek().kind) {
        take(tokens, Kind::Comma, Mark::Fine)?;
        let bound = names + items.len();
        items.push(item(alloc, tokens, bound)?)?;
    }
    Ok(items)
}
