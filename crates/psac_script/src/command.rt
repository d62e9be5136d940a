ghost use Rattle.std.specs.Prelude.{◌≡◌, option_map};
ghost use Rattle.std.specs.Str.{bytes_eq};
ghost use Rattle.psac_report.specs.Script.{command_of, command_named, is_skipped, set_of, rows_of, alone, hold_of, held_of};
ghost use Rattle.psac_script.specs.Commands.{command_view, command_read, holding};

use crate::parts::Parts;

/// A command of a script. Its numbers have at most nine digits, and are otherwise as they were written:
/// no cell, place or output is looked up.
#[derive(Clone, Copy, Debug, PartialEq, Eq)]
pub enum Command<'a> {
    /// An empty line, or one that begins with `#`.
    Skip,
    Set { row: u32, col: u32, field: &'a [u8] },
    Rows { count: u32 },
    Commit,
    Show,
    Tree,
    HoldOut { place: u32, out: u32 },
    HoldRef { place: u32, source: u32 },
    HoldFst { place: u32, source: u32 },
    HoldSnd { place: u32, source: u32 },
    Held { place: u32 },
    Quit,
}

/// The line is no command.
#[derive(Clone, Copy, Debug, PartialEq, Eq)]
pub struct FormRefused;

/// The command of a line, or `FormRefused` where it is none. Takes no memory.
#[tactic(auto, unfolding(psac_report::specs::Script::command_of))]
pub fn read_command(line: &[u8]) -> Result<Command<'_>, FormRefused>
    ensures { command_read result ≡ command_of line.now }
{
    if is_skipped(line) {
        return Ok(Command::Skip);
    }
    let mut parts = Parts::of(line);
    match parts.next() {
        Some(word) => named_command(word, parts).ok_or(FormRefused),
        None => Err(FormRefused),
    }
}

fn is_skipped(line: &[u8]) -> bool
    ensures { result ≡ is_skipped line.now }
{
    match line {
        [] => true,
        [first, ..] => *first == b'#',
    }
}

fn is_word(word: &[u8], name: &[u8]) -> bool
    ensures { result ≡ bytes_eq word.now name.now }
{
    word == name
}

// The command that begins with the word.
fn named_command<'a>(word: &[u8], parts: Parts<'a>) -> Option<Command<'a>>
    ensures { option_map command_view result ≡ command_named word.now parts.entry }
{
    if is_word(word, b"set") {
        set_command(parts)
    } else if is_word(word, b"rows") {
        rows_command(parts)
    } else if is_word(word, b"commit") {
        lone_command(Command::Commit, parts)
    } else if is_word(word, b"show") {
        lone_command(Command::Show, parts)
    } else if is_word(word, b"tree") {
        lone_command(Command::Tree, parts)
    } else if is_word(word, b"hold") {
        hold_command(parts)
    } else if is_word(word, b"held") {
        held_command(parts)
    } else if is_word(word, b"quit") {
        lone_command(Command::Quit, parts)
    } else {
        None
    }
}

fn set_command<'a>(mut parts: Parts<'a>) -> Option<Command<'a>>
    ensures { option_map command_view result ≡ set_of parts.entry }
{
    let row = parts.number()?;
    let col = parts.number()?;
    let field = parts.rest()?;
    Some(Command::Set { row, col, field })
}

fn rows_command<'a>(mut parts: Parts<'a>) -> Option<Command<'a>>
    ensures { option_map command_view result ≡ rows_of parts.entry }
{
    let count = parts.number()?;
    lone_command(Command::Rows { count }, parts)
}

fn held_command<'a>(mut parts: Parts<'a>) -> Option<Command<'a>>
    ensures { option_map command_view result ≡ held_of parts.entry }
{
    let place = parts.number()?;
    lone_command(Command::Held { place }, parts)
}

fn hold_command<'a>(mut parts: Parts<'a>) -> Option<Command<'a>>
    ensures { option_map command_view result ≡ hold_of parts.entry }
{
    let place = parts.number()?;
    let kind = parts.next()?;
    let index = parts.number()?;
    lone_command(holding(kind, place, index)?, parts)
}

// The command by which a place holds a modifiable.
fn holding<'a>(kind: &[u8], place: u32, index: u32) -> Option<Command<'a>>
    ensures { option_map command_view result ≡ holding kind.now place index }
{
    if is_word(kind, b"out") {
        Some(Command::HoldOut { place, out: index })
    } else if is_word(kind, b"ref") {
        Some(Command::HoldRef {
            place,
            source: index,
        })
    } else if is_word(kind, b"fst") {
        Some(Command::HoldFst {
            place,
            source: index,
        })
    } else if is_word(kind, b"snd") {
        Some(Command::HoldSnd {
            place,
            source: index,
        })
    } else {
        None
    }
}

// A command behind which nothing follows.
fn lone_command<'a>(command: Command<'a>, parts: Parts<'a>) -> Option<Command<'a>>
    ensures { option_map command_view result ≡ alone (command_view command.entry) parts.entry }
{
    match parts.rest() {
        None => Some(command),
        Some(_) => None,
    }
}
