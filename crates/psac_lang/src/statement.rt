// Statements.
ghost use Rattle.std.specs.Prelude.{◌≡◌, ◌+◌, ◌<◌, ◌≤◌, [], ◌∷◌, length, true, IfOk, OnOk};
ghost use Rattle.psac_tokens.specs.declared.token.Kind.TheVariants as k;
ghost use Rattle.psac_grammar.specs.Marked.{max_bodies, max_names};
ghost use Rattle.psac_grammar.specs.Grammar.{top};
ghost use Rattle.psac_grammar.specs.Machine.{level, mark, make, a_name, binding, block as one_block, values as all_values, before_values, more_items, first, of_items, of_stmts, let_made, new_made, write_made, read_made, if_made, par_made, call_made, item_made};
ghost use Rattle.psac_lang.specs.Reads.{Reads, AddsStmt, NextStmt, ReadsBody, begins_statement, bound_by};

use crate::cursor::{Cursor, syntax};
use crate::expression::expr;
use crate::fault::Halt;
use crate::lists::{items, names, values};
use crate::marks::{Mark, below};
use crate::reading::{NameList, bound, expect, name, pass, take};
use crate::start::TOP;
use psac_syntax::{ReadItem, Stmt};
use psac_tokens::Kind;
use sqlite_items::Items;
use std::alloc::Global;

const MAX_BODIES: usize = 32;

const MAX_STATEMENTS: usize = 64;

fn begins(kind: Kind) -> bool
    ensures { result ≡ begins_statement kind }
{
    match kind {
        Kind::Let | Kind::New | Kind::Write | Kind::Read | Kind::If | Kind::Par | Kind::Call =>
            true,
        _ => false,
    }
}

/// How many names a statement binds for those behind it.
fn names_bound(kind: Kind) -> usize
    ensures value { result ≡ bound_by kind }
    ensures within { result ≤ 1 }
{
    match kind {
        Kind::Let | Kind::New => 1,
        _ => 0,
    }
}

/// What stands behind `let`.
fn let_rest(alloc: Global, tokens: &mut Cursor<'_>, line: u32, names: usize) -> Result<Stmt, Halt>
    requires { names ≤ max_names }
    ensures adds { AddsStmt (binding names ∷ mark k.Assign ∷ level top 0 ∷ mark k.Semicolon ∷ make (let_made line) ∷ []) [] result tokens.old tokens.new }
    ensures shorter { OnOk result (length tokens.new.1 < length tokens.old.1) }
    ensures room { OnOk result (names < max_names) }
{
    let name = bound(tokens, names)?;
    expect(tokens, Kind::Assign)?;
    let value = expr(alloc, tokens, TOP, 0)?;
    expect(tokens, Kind::Semicolon)?;
    Ok(Stmt::Let {
        line,
        name,
        value: value.expr,
    })
}

/// What stands behind `new`.
fn new_rest(tokens: &mut Cursor<'_>, line: u32, names: usize) -> Result<Stmt, Halt>
    requires { names ≤ max_names }
    ensures adds { AddsStmt (binding names ∷ mark k.Semicolon ∷ make (new_made line) ∷ []) [] result tokens.old tokens.new }
    ensures shorter { OnOk result (length tokens.new.1 < length tokens.old.1) }
    ensures room { OnOk result (names < max_names) }
{
    let name = bound(tokens, names)?;
    expect(tokens, Kind::Semicolon)?;
    Ok(Stmt::New { line, name })
}

/// What stands behind `write`.
fn write_rest(alloc: Global, tokens: &mut Cursor<'_>, line: u32) -> Result<Stmt, Halt>
    ensures adds { AddsStmt (a_name ∷ mark k.Assign ∷ level top 0 ∷ mark k.Semicolon ∷ make (write_made line) ∷ []) [] result tokens.old tokens.new }
    ensures shorter { OnOk result (length tokens.new.1 < length tokens.old.1) }
{
    let dest = name(tokens)?;
    expect(tokens, Kind::Assign)?;
    let value = expr(alloc, tokens, TOP, 0)?;
    expect(tokens, Kind::Semicolon)?;
    Ok(Stmt::Write {
        line,
        dest,
        value: value.expr,
    })
}

/// What stands behind `call`.
fn call_rest(alloc: Global, tokens: &mut Cursor<'_>, line: u32) -> Result<Stmt, Halt>
    ensures adds { AddsStmt (a_name ∷ before_values ∷ all_values ∷ mark k.Semicolon ∷ make (call_made line) ∷ []) [] result tokens.old tokens.new }
    ensures shorter { OnOk result (length tokens.new.1 < length tokens.old.1) }
{
    let func = name(tokens)?;
    take(tokens, Kind::LeftParen, Mark::Fine)?;
    let values = values(alloc, tokens)?;
    let dests = names(alloc, tokens, NameList::CallDests, 0)?;
    expect(tokens, Kind::Semicolon)?;
    Ok(Stmt::Call {
        line,
        func,
        values,
        dests,
    })
}

fn read_of(line: u32, block: u16, items: Items<ReadItem>, body: Items<Stmt>) -> Stmt
    ensures { result ≡ Stmt.Read line block items body }
{
    Stmt::Read {
        line,
        block: u32::from(block),
        items,
        body,
    }
}

/// What stands behind `read`, inside this many bodies.
#[cycle(body)]
fn read_rest(
    alloc: Global,
    tokens: &mut Cursor<'_>,
    line: u32,
    index: u16,
    bodies: usize,
    names: usize,
) -> Result<Stmt, Halt>
    requires bodies { bodies ≤ max_bodies }
    requires names { names ≤ max_names }
    ensures adds { AddsStmt (level top 0 ∷ mark k.As ∷ binding names ∷ make item_made ∷ more_items 1 bodies names ∷ make (read_made line index) ∷ []) (of_items [] ∷ []) result tokens.old tokens.new }
    ensures shorter { OnOk result (length tokens.new.1 < length tokens.old.1) }
{
    let items = items(alloc, tokens, names)?;
    let inside = names + items.len();
    let body = block(alloc, tokens, bodies, inside)?;
    Ok(read_of(line, index, items, body))
}

/// What stands behind `if`, inside this many bodies.
#[cycle(body)]
fn if_rest(
    alloc: Global,
    tokens: &mut Cursor<'_>,
    line: u32,
    bodies: usize,
    names: usize,
) -> Result<Stmt, Halt>
    requires bodies { bodies ≤ max_bodies }
    requires names { names ≤ max_names }
    ensures adds { AddsStmt (level top 0 ∷ one_block bodies names ∷ mark k.Else ∷ one_block bodies names ∷ make (if_made line) ∷ []) [] result tokens.old tokens.new }
    ensures shorter { OnOk result (length tokens.new.1 < length tokens.old.1) }
{
    let cond = expr(alloc, tokens, TOP, 0)?;
    let yes = block(alloc, tokens, bodies, names)?;
    expect(tokens, Kind::Else)?;
    let no = block(alloc, tokens, bodies, names)?;
    Ok(Stmt::If {
        line,
        cond: cond.expr,
        yes,
        no,
    })
}

/// What stands behind `par`, inside this many bodies.
#[cycle(body)]
fn par_rest(
    alloc: Global,
    tokens: &mut Cursor<'_>,
    line: u32,
    bodies: usize,
    names: usize,
) -> Result<Stmt, Halt>
    requires bodies { bodies ≤ max_bodies }
    requires names { names ≤ max_names }
    ensures adds { AddsStmt (one_block bodies names ∷ one_block bodies names ∷ make (par_made line) ∷ []) [] result tokens.old tokens.new }
    ensures shorter { OnOk result (length tokens.new.1 < length tokens.old.1) }
{
    let left = block(alloc, tokens, bodies, names)?;
    let right = block(alloc, tokens, bodies, names)?;
    Ok(Stmt::Par { line, left, right })
}

/// A statement inside this many bodies, beside this many names and behind this many statements.
#[cycle(body)]
fn statement(
    alloc: Global,
    tokens: &mut Cursor<'_>,
    bodies: usize,
    names: usize,
    count: usize,
) -> Result<Stmt, Halt>
    requires begins { begins_statement (first tokens.old).kind ≡ true }
    requires bodies { bodies ≤ max_bodies }
    requires names { names ≤ max_names }
    ensures adds { NextStmt bodies names count result tokens.old tokens.new }
    ensures shorter { OnOk result (length tokens.new.1 < length tokens.old.1) }
    ensures room { OnOk result (names + bound_by (first tokens.old).kind ≤ max_names) }
{
    let token = tokens.peek();
    pass(tokens, below(count, MAX_STATEMENTS, 3))?;
    match token.kind {
        Kind::Let => let_rest(alloc, tokens, token.line, names),
        Kind::New => new_rest(tokens, token.line, names),
        Kind::Write => write_rest(alloc, tokens, token.line),
        Kind::Read => read_rest(alloc, tokens, token.line, token.index, bodies, names),
        Kind::If => if_rest(alloc, tokens, token.line, bodies, names),
        Kind::Par => par_rest(alloc, tokens, token.line, bodies, names),
        Kind::Call => call_rest(alloc, tokens, token.line),
        _ => Err(syntax(token)),
    }
}

/// The statements of a body and the brace behind them, inside this many bodies and beside this many names.
#[cycle(body)]
fn body(
    alloc: Global,
    tokens: &mut Cursor<'_>,
    bodies: usize,
    names: usize,
) -> Result<Items<Stmt>, Halt>
    requires bodies { bodies ≤ max_bodies }
    requires names { names ≤ max_names }
    ensures reads { ReadsBody bodies names result tokens.old tokens.new }
    ensures shorter { OnOk result (length tokens.new.1 < length tokens.old.1) }
{
    let mut stmts = Items::new(alloc);
    let mut scope = names;
    'stmts: while begins(tokens.peek().kind) {
        let more = names_bound(tokens.peek().kind);
        let count = stmts.len();
        stmts.push(statement(alloc, tokens, bodies, scope, count)?)?;
        scope += more;
    }
    expect(tokens, Kind::RightBrace)?;
    Ok(stmts)
}

/// A body in braces inside this many others, beside this many names.
#[cycle(body)]
pub fn block(
    alloc: Global,
    tokens: &mut Cursor<'_>,
    bodies: usize,
    names: usize,
) -> Result<Items<Stmt>, Halt>
    requires bodies { bodies ≤ max_bodies }
    requires names { names ≤ max_names }
    ensures reads { Reads of_stmts (one_block bodies names) result tokens.old tokens.new }
    ensures shorter { OnOk result (length tokens.new.1 < length tokens.old.1) }
{
    take(tokens, Kind::LeftBrace, below(bodies, MAX_BODIES, 4))?;
    Ok(body(alloc, tokens, bodies + 1, names)?)
}
