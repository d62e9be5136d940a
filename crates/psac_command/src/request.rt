// What is asked for.
ghost use Rattle.std.specs.Prelude.{◌≡◌, IfOk, IfSome, option_and_then, option_map, map, string_bytes};
ghost use Rattle.psac_command.specs.Asked.{AreCaps, IsIn, asked, asked_in, caps_of, mode_of, settings_of, single_asked, single_mode_of, watch_asked, watch_mode_of, workers};
ghost use Rattle.psac_command.specs.Views.{request_view, words_view};

use crate::setting::{Bounds, read_setting};
use crate::words::{Words, read_words};
use psac_base::NoMemory;
use psac_model::Caps;
use std::alloc::Global;

/// What is to be done with a program and an input.
#[derive(Clone, Copy, Debug, PartialEq, Eq)]
pub enum Mode {
    /// One run.
    Once,
    /// A script of edits and commits.
    Session,
}

/// What the options set.
#[derive(Clone, Copy, Debug, PartialEq, Eq)]
pub struct Settings {
    /// How many threads may run at once, from 1 to 64.
    pub workers: u32,
    /// The most parts of a record, each from 1 to 1,048,576.
    pub caps: Caps,
    /// For how many rows there is room, from 0 to 65,536.
    pub rows: u32,
}

/// What the words of a command line ask for.
#[derive(Clone, Copy, Debug)]
pub struct Request<'a> {
    pub mode: Mode,
    /// The name of the program's file.
    pub program: &'a str,
    /// The name of the input's file.
    pub input: &'a str,
    pub settings: Settings,
}

const WORKERS: Bounds = Bounds {
    least: 1,
    most: 64,
    default: 4,
};

const NODES: Bounds = Bounds {
    least: 1,
    most: 1_048_576,
    default: 262_144,
};

const MODS: Bounds = Bounds {
    least: 1,
    most: 1_048_576,
    default: 131_072,
};

const LINKS: Bounds = Bounds {
    least: 1,
    most: 1_048_576,
    default: 262_144,
};

const ROWS: Bounds = Bounds {
    least: 0,
    most: 65_536,
    default: 0,
};

fn read_mode(word: &str) -> Option<Mode>
    ensures { result ≡ mode_of word.now }
{
    match word {
        "once" => Some(Mode::Once),
        "session" => Some(Mode::Session),
        _ => None,
    }
}

fn read_caps(words: &Words<'_>) -> Option<Caps>
    ensures value { result ≡ caps_of (words_view words.now) }
    ensures within { IfSome result AreCaps }
{
    Some(Caps {
        nodes: read_setting(NODES, words.nodes)?,
        mods: read_setting(MODS, words.mods)?,
        links: read_setting(LINKS, words.links)?,
    })
}

pub fn read_settings(words: &Words<'_>) -> Option<Settings>
    ensures value { result ≡ settings_of (words_view words.now) }
    ensures within { IfSome result (λ s. AreCaps s.caps) }
    ensures workers { IfSome result (λ s. IsIn workers s.workers) }
{
    Some(Settings {
        workers: read_setting(WORKERS, words.workers)?,
        caps: read_caps(words)?,
        rows: read_setting(ROWS, words.rows)?,
    })
}

// The mode that the words name.
fn mode_in(words: &Words<'_>) -> Option<Mode>
    ensures { result ≡ option_and_then mode_of (words_view words.now).mode }
{
    read_mode(words.mode?)
}

// The mode of a session that is watched, where the words name that.
fn watch_mode_in(words: &Words<'_>) -> Option<Mode>
    ensures { result ≡ option_and_then watch_mode_of (words_view words.now).mode }
{
    match words.mode? {
        "watch" => Some(Mode::Session),
        _ => None,
    }
}

// The mode of one run, where the words name it by this word.
fn single_mode_in(name: &str, words: &Words<'_>) -> Option<Mode>
    ensures { result ≡ option_and_then (single_mode_of name.now) (words_view words.now).mode }
{
    if words.mode? == name {
        Some(Mode::Once)
    } else {
        None
    }
}

fn read_texts<'a>(mode: Option<Mode>, words: &Words<'a>) -> Option<Request<'a>>
    ensures value { option_map request_view result ≡ asked_in mode (words_view words.now) }
    ensures within { IfSome result (λ r. AreCaps r.settings.caps) }
    ensures workers { IfSome result (λ r. IsIn workers r.settings.workers) }
{
    Some(Request {
        mode: mode?,
        program: words.program?,
        input: words.input?,
        settings: read_settings(words)?,
    })
}

/// Reads the words, the program's own name first: nothing where they ask for nothing that is known.
/// `NoMemory` is want of memory.
pub fn read_request<'a>(alloc: Global, words: &'a [String]) -> Result<Option<Request<'a>>, NoMemory>
    ensures asked { IfOk result (λ found. option_map request_view found ≡ asked (map string_bytes words.now)) }
    ensures within { IfOk result (λ found. IfSome found (λ r. AreCaps r.settings.caps)) }
    ensures workers { IfOk result (λ found. IfSome found (λ r. IsIn workers r.settings.workers)) }
{
    match read_words(alloc, words)? {
        Some(texts) => Ok(read_texts(mode_in(&texts), &texts)),
        None => Ok(None),
    }
}

/// Reads the words of a session that is watched: their mode is `watch`, and all else is as in `read_request`.
pub fn read_watch_request<'a>(
    alloc: Global,
    words: &'a [String],
) -> Result<Option<Request<'a>>, NoMemory>
    ensures asked { IfOk result (λ found. option_map request_view found ≡ watch_asked (map string_bytes words.now)) }
    ensures within { IfOk result (λ found. IfSome found (λ r. AreCaps r.settings.caps)) }
    ensures workers { IfOk result (λ found. IfSome found (λ r. IsIn workers r.settings.workers)) }
{
    match read_words(alloc, words)? {
        Some(texts) => Ok(read_texts(watch_mode_in(&texts), &texts)),
        None => Ok(None),
    }
}

/// Reads the words of one run that has a mode of its own: their mode is this name, and all else is as in `read_request`.
pub fn read_single_request<'a>(
    alloc: Global,
    name: &str,
    words: &'a [String],
) -> Result<Option<Request<'a>>, NoMemory>
    ensures asked { IfOk result (λ found. option_map request_view found ≡ single_asked name.now (map string_bytes words.now)) }
    ensures within { IfOk result (λ found. IfSome found (λ r. AreCaps r.settings.caps)) }
    ensures workers { IfOk result (λ found. IfSome found (λ r. IsIn workers r.settings.workers)) }
{
    match read_words(alloc, words)? {
        Some(texts) => Ok(read_texts(single_mode_in(name, &texts), &texts)),
        None => Ok(None),
    }
}
