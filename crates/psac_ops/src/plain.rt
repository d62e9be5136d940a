/// The name of a modifiable: its slot, and which of the modifiables that had the slot it is.
/// Inputs and outputs have generation 0, those that a run makes have generations from 1.
#[derive(Clone, Copy, Debug, PartialEq, Eq)]
pub struct Handle {
    pub slot: u32,
    pub generation: u32,
}

/// A text: its place in the session's list of distinct texts, and its length in bytes.
#[derive(Clone, Copy, Debug, PartialEq, Eq)]
pub struct TextId {
    pub id: u32,
    pub len: u32,
}

/// A value of the language.
#[derive(Clone, Copy, Debug, PartialEq, Eq)]
pub enum Plain {
    Nil,
    Bool(bool),
    Int(i64),
    Text(TextId),
    /// A reference to a modifiable.
    Ref(Handle),
    /// Two references.
    Pair(Handle, Handle),
}
