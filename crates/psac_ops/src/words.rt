// A value as three words, as the shared tables hold it.
ghost use Rattle.std.specs.Prelude.{◌≡◌, ◌≢◌, ◌<◌, ◌^◌, Some, IfSome, IfNone};
ghost use Rattle.psac_ops.specs.declared.plain.Plain.{Plain};
ghost use Rattle.psac_ops.specs.Words.{both_in, handle_of, high_of, low_of, of_words, text_of, words_of};

use crate::plain::{Handle, Plain, TextId};

const HALF: u64 = 4_294_967_296;

// Two numbers in one word, the first below.
fn both(low: u32, high: u32) -> u64
    ensures value { result ≡ both_in low high }
    ensures low { low_of result ≡ low }
    ensures high { high_of result ≡ high }
{
    u64::from(low) + u64::from(high) * HALF
}

fn low(word: u64) -> u32
    ensures { result ≡ low_of word }
{
    (word % HALF) as u32
}

fn high(word: u64) -> u32
    ensures { result ≡ high_of word }
{
    (word / HALF) as u32
}

fn handle(word: u64) -> Handle
    ensures { result ≡ handle_of word }
{
    Handle {
        slot: low(word),
        generation: high(word),
    }
}

fn text(word: u64) -> TextId
    ensures { result ≡ text_of word }
{
    TextId {
        id: low(word),
        len: high(word),
    }
}

/// The kind of the value, and what it holds. No two values have the same words.
pub fn to_words(value: Plain) -> [u64; 3]
    ensures words { result ≡ words_of value }
    ensures back { of_words result ≡ Some value }
{
    match value {
        Plain::Nil => [0, 0, 0],
        Plain::Bool(b) => [1, u64::from(b), 0],
        Plain::Int(i) => [2, i.cast_unsigned(), 0],
        Plain::Text(t) => [3, both(t.id, t.len), 0],
        Plain::Ref(h) => [4, both(h.slot, h.generation), 0],
        Plain::Pair(g, h) => [5, both(g.slot, g.generation), both(h.slot, h.generation)],
    }
}

/// The value that has these words. `None` comes exactly where no value has them.
pub fn from_words(words: [u64; 3]) -> Option<Plain>
    ensures value { result ≡ of_words words }
    ensures back { IfSome result (λ value. words_of value ≡ words) }
    ensures none { IfNone result ((value : Plain) → words_of value ≢ words) }
{
    let [kind, a, b] = words;
    match (kind, a, b) {
        (0, 0, 0) => Some(Plain::Nil),
        (1, 0, 0) => Some(Plain::Bool(false)),
        (1, 1, 0) => Some(Plain::Bool(true)),
        (2, bits, 0) => Some(Plain::Int(bits.cast_signed())),
        (3, word, 0) => Some(Plain::Text(text(word))),
        (4, word, 0) => Some(Plain::Ref(handle(word))),
        (5, first, second) => Some(Plain::Pair(handle(first), handle(second))),
        _ => None,
    }
}
