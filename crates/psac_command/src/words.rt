// The words of a command line, by name.
ghost use Rattle.std.specs.Prelude.{◌≡◌, IfOk, IfSome, MatchOption, true, false, codes, map, string_bytes};
ghost use Rattle.clap.specs.Words.{app_of, with_rule};
ghost use Rattle.psac_command.specs.Asked.{given_by};
ghost use Rattle.psac_command.specs.Views.{words_view};
ghost use Rattle.psac_command.specs.Words.{bare_app, is_taken, option, positional, psac_app, with_words};

use clap::error::ErrorKind;
use clap::{Arg, ArgAction, Command};
use std::alloc::{AllocError, Global};

/// The texts that the words give.
#[derive(Clone, Copy)]
pub struct Words<'a> {
    pub mode: Option<&'a str>,
    pub program: Option<&'a str>,
    pub input: Option<&'a str>,
    pub workers: Option<&'a str>,
    pub nodes: Option<&'a str>,
    pub mods: Option<&'a str>,
    pub links: Option<&'a str>,
    pub rows: Option<&'a str>,
}

fn with_positional<'a>(
    alloc: Global,
    command: Command<'a>,
    id: &'a str,
) -> Result<Command<'a>, AllocError>
    ensures { IfOk result (λ r. app_of r ≡ with_rule (app_of command.entry) (positional id.entry.now)) }
{
    command.arg(Arg::new(alloc, id).required(true).action(ArgAction::Set))
}

fn with_option<'a>(
    alloc: Global,
    command: Command<'a>,
    id: &'a str,
) -> Result<Command<'a>, AllocError>
    ensures { IfOk result (λ r. app_of r ≡ with_rule (app_of command.entry) (option id.entry.now)) }
{
    command.arg(Arg::new(alloc, id).long(id).action(ArgAction::Set))
}

// The command with its three words.
fn make_bare<'a>(alloc: Global) -> Result<Command<'a>, AllocError>
    ensures { IfOk result (λ r. app_of r ≡ with_words bare_app) }
{
    let command = Command::new(alloc, "psac")
        .disable_help_flag(true)
        .disable_version_flag(true);
    let command = with_positional(alloc, command, "mode")?;
    let command = with_positional(alloc, command, "program")?;
    with_positional(alloc, command, "input")
}

fn make_command<'a>(alloc: Global) -> Result<Command<'a>, AllocError>
    ensures { IfOk result (λ r. app_of r ≡ psac_app) }
{
    let command = make_bare(alloc)?;
    let command = with_option(alloc, command, "workers")?;
    let command = with_option(alloc, command, "nodes")?;
    let command = with_option(alloc, command, "mods")?;
    let command = with_option(alloc, command, "links")?;
    with_option(alloc, command, "rows")
}

/// The texts of the words: nothing where they are of another form.
pub fn read_words<'a>(alloc: Global, words: &'a [String]) -> Result<Option<Words<'a>>, AllocError>
    ensures taken { IfOk result (λ found. MatchOption found (is_taken (map string_bytes words.now) ≡ false)
        (λ _. is_taken (map string_bytes words.now) ≡ true)) }
    ensures texts { IfOk result (λ found. IfSome found (λ w. words_view w ≡ given_by (map string_bytes words.now))) }
{
    let command = make_command(alloc)?;
    match command.try_get_matches_from(words) {
        Ok(matches) => Ok(Some(Words {
            mode: matches.get_str("mode"),
            program: matches.get_str("program"),
            input: matches.get_str("input"),
            workers: matches.get_str("workers"),
            nodes: matches.get_str("nodes"),
            mods: matches.get_str("mods"),
            links: matches.get_str("links"),
            rows: matches.get_str("rows"),
        })),
        Err(error) => match error.kind() {
            ErrorKind::OutOfMemory => Err(AllocError),
            _ => Ok(None),
        },
    }
}
