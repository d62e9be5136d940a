// Functions.
ghost use Rattle.std.specs.Prelude.{◌≡◌, ◌+◌, ◌<◌, ◌≤◌, length, IfOk, OnOk};
ghost use Rattle.psac_grammar.specs.Marked.{max_names};
ghost use Rattle.psac_grammar.specs.Machine.{all_limits, begun, nothing_behind, run_with, start};
ghost use Rattle.psac_lang.specs.Reads.{AddsFunc, ReadsFuncs, ReadsHeader, Means};

use crate::cursor::{Cursor, syntax};
use crate::fault::Halt;
use crate::lists::names;
use crate::marks::{Mark, below};
use crate::reading::{NameList, expect, name, take};
use crate::statement::block;
use psac_syntax::{Func, Stmt};
use psac_tokens::{Kind, Token};
use sqlite_items::Items;
use std::alloc::Global;

const MAX_FUNCS: usize = 256;

/// The name of a function and the names that it binds.
#[derive(Drop)]
pub struct Header {
    pub name: u16,
    pub values: Items<u16>,
    pub dests: Items<u16>,
}

/// What stands behind `func`, up to the body.
fn read_header(alloc: Global, tokens: &mut Cursor<'_>) -> Result<Header, Halt>
    ensures reads { ReadsHeader result tokens.old tokens.new }
    ensures shorter { OnOk result (length tokens.new.1 < length tokens.old.1) }
    ensures room { IfOk result (λ h. length h.values + length h.dests ≤ max_names) }
{
    let name = name(tokens)?;
    take(tokens, Kind::LeftParen, Mark::Fine)?;
    let values = names(alloc, tokens, NameList::HeaderValues, 0)?;
    let beside = values.len();
    let dests = names(alloc, tokens, NameList::HeaderDests, beside)?;
    Ok(Header {
        name,
        values,
        dests,
    })
}

fn func_of(line: u32, header: Header, body: Items<Stmt>) -> Func
    ensures { result ≡ record { name = header.name; values = header.values; dests = header.dests; body = body; line = line } }
{
    let Header {
        name,
        values,
        dests,
    } = header;
    Func {
        name,
        values,
        dests,
        body,
        line,
    }
}

/// A function behind this many others.
fn function(alloc: Global, tokens: &mut Cursor<'_>, count: usize) -> Result<Func, Halt>
    ensures adds { AddsFunc count result tokens.old tokens.new }
    ensures shorter { OnOk result (length tokens.new.1 < length tokens.old.1) }
{
    let line = tokens.peek().line;
    take(tokens, Kind::Func, below(count, MAX_FUNCS, 2))?;
    let header = read_header(alloc, tokens)?;
    let scope = header.values.len() + header.dests.len();
    let body = block(alloc, tokens, 0, scope)?;
    Ok(func_of(line, header, body))
}

/// One function or more.
fn functions(alloc: Global, tokens: &mut Cursor<'_>) -> Result<Items<Func>, Halt>
    ensures { ReadsFuncs result tokens.old tokens.new }
{
    let mut funcs = Items::new(alloc);
    funcs.push(function(alloc, tokens, 0)?)?;
    'more: while tokens.peek().kind == Kind::Func {
        let count = funcs.len();
        funcs.push(function(alloc, tokens, count)?)?;
    }
    Ok(funcs)
}

/// The functions that the tokens are, up to the end.
pub fn whole(alloc: Global, tokens: &[Token]) -> Result<Items<Func>, Halt>
    ensures { Means result (run_with all_limits tokens.now nothing_behind start begun) }
{
    let mut cursor = Cursor::new(tokens);
    let funcs = functions(alloc, &mut cursor)?;
    expect(&mut cursor, Kind::End)?;
    if !cursor.is_empty() {
        return Err(syntax(cursor.peek()));
    }
    Ok(funcs)
}
