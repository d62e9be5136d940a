// What a bench is asked for.
ghost use Rattle.std.specs.Prelude.{◌≡◌, IfOk, IfSome, option_map, map, position, string_bytes};
ghost use Rattle.psac_command.specs.Asked.{AreCaps, IsIn, workers};
ghost use Rattle.psac_command.specs.Bench.{AreCounts, bench_asked, bench_by, bench_in, counts_of, is_x, names_bench};
ghost use Rattle.psac_command.specs.Views.{bench_view, words_view};

use crate::request::{Settings, read_settings};
use crate::setting::{Bounds, read_within};
use crate::words::{Words, read_words};
use psac_base::NoMemory;
use std::alloc::Global;

/// How much a bench makes.
#[derive(Clone, Copy, Debug, PartialEq, Eq)]
pub struct Counts {
    /// How many cells, from 1 to 65,536.
    pub cells: u32,
    /// How many batches of edits, from 0 to 1,000.
    pub batches: u32,
}

/// What the words of a bench ask for.
#[derive(Clone, Copy, Debug)]
pub struct BenchRequest<'a> {
    /// The name of the program's file.
    pub program: &'a str,
    pub counts: Counts,
    pub settings: Settings,
}

const CELLS: Bounds = Bounds {
    least: 1,
    most: 65_536,
    default: 1,
};

const BATCHES: Bounds = Bounds {
    least: 0,
    most: 1_000,
    default: 0,
};

// Where the first `x` stands.
fn first_x(word: &[u8]) -> Option<usize>
    ensures { result ≡ position is_x word.now }
{
    word.iter().position(|byte| *byte == b'x')
}

fn read_counts(word: &[u8]) -> Option<Counts>
    ensures value { result ≡ counts_of word.now }
    ensures within { IfSome result AreCounts }
{
    let at = first_x(word)?;
    Some(Counts {
        cells: read_within(CELLS, &word[..at])?,
        batches: read_within(BATCHES, &word[at + 1..])?,
    })
}

// Whether the words name the mode.
fn names_bench(words: &Words<'_>) -> bool
    ensures { result ≡ names_bench (words_view words.now).mode }
{
    match words.mode {
        Some("bench") => true,
        _ => false,
    }
}

// What the texts ask for, whatever their mode is.
fn read_texts<'a>(words: &Words<'a>) -> Option<BenchRequest<'a>>
    ensures value { option_map bench_view result ≡ bench_in (words_view words.now) }
    ensures counts { IfSome result (λ r. AreCounts r.counts) }
    ensures within { IfSome result (λ r. AreCaps r.settings.caps) }
    ensures workers { IfSome result (λ r. IsIn workers r.settings.workers) }
{
    Some(BenchRequest {
        program: words.program?,
        counts: read_counts(words.input?.as_bytes())?,
        settings: read_settings(words)?,
    })
}

fn read_bench<'a>(words: &Words<'a>) -> Option<BenchRequest<'a>>
    ensures value { option_map bench_view result ≡ bench_by (words_view words.now) }
    ensures counts { IfSome result (λ r. AreCounts r.counts) }
    ensures within { IfSome result (λ r. AreCaps r.settings.caps) }
    ensures workers { IfSome result (λ r. IsIn workers r.settings.workers) }
{
    if names_bench(words) {
        read_texts(words)
    } else {
        None
    }
}

/// Reads the words of a bench: their mode is `bench`, and in the place of the input stand two numbers with an `x` between
/// them. All else is as in `read_request`.
pub fn read_bench_request<'a>(
    alloc: Global,
    words: &'a [String],
) -> Result<Option<BenchRequest<'a>>, NoMemory>
    ensures asked { IfOk result (λ found. option_map bench_view found ≡ bench_asked (map string_bytes words.now)) }
    ensures counts { IfOk result (λ found. IfSome found (λ r. AreCounts r.counts)) }
    ensures within { IfOk result (λ found. IfSome found (λ r. AreCaps r.settings.caps)) }
    ensures workers { IfOk result (λ found. IfSome found (λ r. IsIn workers r.settings.workers)) }
{
    match read_words(alloc, words)? {
        Some(texts) => Ok(read_bench(&texts)),
        None => Ok(None),
    }
}
