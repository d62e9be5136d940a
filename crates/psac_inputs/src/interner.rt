// The distinct texts of a session.
ghost use Rattle.std.specs.Prelude.{◌≡◌, ◌<◌, ◌≤◌, ◌↔◌, ◌∷◌, ◌++◌, [], true, Some, IfOk, IfSome, IsErrOf, IsTrue, OnErr, OnOk, length, slice_get};
ghost use Rattle.std.specs.List.{position_from};
ghost use Rattle.std.specs.Str.{bytes_eq, is_utf8};
ghost use Rattle.psac_inputs.specs.Grid.{IsCellValue};
ghost use Rattle.psac_inputs.specs.Texts.{added, field, has_room, text_id};

use crate::fault::TextFault;
use indexmap::IndexSet;
use psac_base::{NoMemory, read_int};
use psac_ops::{Plain, TextId};
use std::alloc::Global;
use std::marker::Model;

const MOST_TEXTS: usize = 65_536;

const MOST_BYTES: usize = 16_777_216;

/// Distinct texts, in the order in which they were first seen; a text's place is its number. There are at most 65,536
/// of them, and together they have at most 16,777,216 bytes.
#[derive(Drop)]
pub struct Interner {
    texts: IndexSet<Vec<u8>>,
    // How many bytes the texts have together.
    size: usize,
}

impl Model for Interner {
    ghost use Rattle.psac_inputs.specs.Texts.{Texts};

    ghost Value = { Texts };

    ghost use Rattle.psac_inputs.specs.TextList.{shown, IsTextList};

    ghost view = { shown };

    ghost invariant = { IsTextList };
}

// Whether the bytes are UTF-8.
fn is_text(bytes: &[u8]) -> bool
    ensures { result ≡ is_utf8 bytes.now }
{
    str::from_utf8(bytes).is_ok()
}

fn text_id(place: usize, bytes: &[u8]) -> TextId
    requires place { place < 65536 }
    requires short { length bytes.now ≤ 16777216 }
    ensures { result ≡ text_id place bytes.now }
{
    TextId {
        id: place as u32,
        len: bytes.len() as u32,
    }
}

impl Interner {
    /// A list without a text.
    pub fn new(alloc: Global) -> Result<Interner, NoMemory>
        ensures { IfOk result (λ made. made ≡ []) }
    {
        Ok(Interner {
            texts: IndexSet::new(alloc),
            size: 0,
        })
    }

    /// How many texts there are.
    pub fn len(&self) -> usize
        ensures { result ≡ length self.now }
    {
        self.texts.len()
    }

    /// Whether there is no text.
    pub fn is_empty(&self) -> bool
        ensures { IsTrue result ↔ (self.now ≡ []) }
    {
        self.len() == 0
    }

    /// The bytes of a text of the list.
    pub fn text(&self, id: TextId) -> &[u8]
        requires { id.id < length self.now }
        ensures { slice_get self.now id.id ≡ Some result.now }
    {
        let text = self.texts.get_index(id.id as usize).unwrap();
        text.as_slice()
    }

    // The place of a text, where the list has it.
    fn place(&self, bytes: &[u8]) -> Option<usize>
        ensures value { result ≡ position_from (bytes_eq bytes.now) 0 self.now }
        ensures fits { IfSome result (λ place. (place < 65536) × (length bytes.now ≤ 16777216)) }
    {
        self.texts.get_index_of(bytes)
    }

    // Whether a new text is within both limits.
    fn has_room(&self, bytes: &[u8]) -> bool
        ensures { result ≡ has_room bytes.now self.now }
    {
        self.texts.len() < MOST_TEXTS && bytes.len() <= MOST_BYTES - self.size
    }

    // Appends a new text.
    fn push(&mut self, bytes: &[u8]) -> Result<TextId, NoMemory>
        requires new { position_from (bytes_eq bytes.now) 0 self.old ≡ None }
        requires room { has_room bytes.now self.old ≡ true }
        ensures id { IfOk result (λ id. id ≡ text_id (length self.old) bytes.now) }
        ensures ok { OnOk result (self.new ≡ self.old ++ bytes.now ∷ []) }
        ensures err { OnErr result (self.new ≡ self.old) }
    {
        let mut text = Vec::with_capacity(*self.texts.allocator(), bytes.len())?;
        text.extend_from_slice(bytes)?;
        let (place, _) = self.texts.insert_full(text)?;
        self.size += bytes.len();
        Ok(text_id(place, bytes))
    }

    /// The number of a text, which joins the list where it is new. `Utf8` comes exactly where the bytes aren't UTF-8,
    /// `Limit` exactly where the text is new and would pass a limit of the list. The list stands as it was after each
    /// error.
    pub fn add(&mut self, bytes: &[u8]) -> Result<TextId, TextFault>
        ensures ok { IfOk result (λ id. added bytes.now self.old ≡ Ok (id, self.new)) }
        ensures utf8 { IsErrOf result TextFault.Utf8 ↔ (added bytes.now self.old ≡ Err TextFault.Utf8) }
        ensures limit { IsErrOf result TextFault.Limit ↔ (added bytes.now self.old ≡ Err TextFault.Limit) }
        ensures err { OnErr result (self.new ≡ self.old) }
    {
        if !is_text(bytes) {
            return Err(TextFault::Utf8);
        }
        if let Some(place) = self.place(bytes) {
            return Ok(text_id(place, bytes));
        }
        if !self.has_room(bytes) {
            return Err(TextFault::Limit);
        }
        match self.push(bytes) {
            Ok(id) => Ok(id),
            Err(_) => Err(TextFault::NoMemory),
        }
    }

    /// The value of a field: an Int where the bytes are a decimal number of 64 bits, and else a Text, which is added to
    /// the list. The errors are those of `add`.
    pub fn field(&mut self, bytes: &[u8]) -> Result<Plain, TextFault>
        ensures ok { IfOk result (λ value. field bytes.now self.old ≡ Ok (value, self.new)) }
        ensures utf8 { IsErrOf result TextFault.Utf8 ↔ (field bytes.now self.old ≡ Err TextFault.Utf8) }
        ensures limit { IsErrOf result TextFault.Limit ↔ (field bytes.now self.old ≡ Err TextFault.Limit) }
        ensures err { OnErr result (self.new ≡ self.old) }
        ensures plain { IfOk result IsCellValue }
    {
        match read_int(bytes) {
            Some(value) => Ok(Plain::Int(value)),
            None => Ok(Plain::Text(self.add(bytes)?)),
        }
    }
}
