//! Distinct words, each with its place.

ghost use Rattle.std.specs.Prelude.{◌≡◌, ◌+◌, ◌≤◌, [], length, IfOk, OnOk};
ghost use Rattle.psac_tokens.specs.Number.{place_of, with_word};

use indexmap::IndexSet;
use psac_syntax::{TextConst, Word};
use sqlite_items::Items;
use std::alloc::{AllocError, Global};
use std::marker::Model;

/// Distinct words, in the order in which they were first seen.
#[derive(Drop)]
pub struct Distinct {
    words: IndexSet<Vec<u8>>,
}

impl Model for Distinct {
    ghost use Rattle.std.specs.Prelude.{List, ℕ, map};

    ghost Value = { List (List ℕ) };

    ghost view = { λ d. map (λ word. word.items) d.words.keys };
}

impl Distinct {
    pub fn new(alloc: Global) -> Distinct
        ensures { result ≡ [] }
    {
        Distinct {
            words: IndexSet::new(alloc),
        }
    }

    /// The place of the word, which goes to the end where it is new.
    pub fn place(&mut self, alloc: Global, word: &[u8]) -> Result<usize, AllocError>
        ensures place { IfOk result (λ at. at ≡ place_of word.now self.old) }
        ensures words { OnOk result (self.new ≡ with_word self.old word.now) }
        ensures within { IfOk result (λ at. at ≤ length self.old) }
        ensures room { OnOk result (length self.new ≤ length self.old + 1) }
    {
        if let Some(at) = self.words.get_index_of(word) {
            return Ok(at);
        }
        let at = self.words.len();
        self.words.insert(Vec::from_slice(alloc, word)?)?;
        Ok(at)
    }

    /// The words, as names of a program.
    pub fn names(&self, alloc: Global) -> Result<Items<Word>, AllocError>
        ensures { IfOk result (λ names. names ≡ self.now) }
    {
        let mut names = Items::new(alloc);
        for word in self.words.as_slice() {
            names.push(Word::from_bytes(alloc, word.as_slice())?)?;
        }
        Ok(names)
    }

    /// The words, as texts of a program.
    pub fn texts(&self, alloc: Global) -> Result<Items<TextConst>, AllocError>
        ensures { IfOk result (λ texts. texts ≡ self.now) }
    {
        let mut texts = Items::new(alloc);
        for word in self.words.as_slice() {
            texts.push(TextConst::from_bytes(alloc, word.as_slice())?)?;
        }
        Ok(texts)
    }
}
