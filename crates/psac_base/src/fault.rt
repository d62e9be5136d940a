// The answers of the outside that aren't Ok.
use std::alloc::{AllocError, AllocFailed};

/// Memory is wanting. It may be answered at any call whose result can hold it, and no clause says when.
#[derive(Clone, Copy, Debug, PartialEq, Eq)]
pub struct NoMemory;

impl From<AllocError> for NoMemory {
    fn from(_: AllocError) -> Self {
        NoMemory
    }
}

impl<T: Drop> From<AllocFailed<T>> for NoMemory {
    fn from(_: AllocFailed<T>) -> Self {
        NoMemory
    }
}

/// A read failed: the source's count of faults rose, and no byte was taken.
#[derive(Clone, Copy, Debug, PartialEq, Eq)]
pub struct SourceFailed;

/// A write failed: the sink's count of faults rose, and that call appended nothing.
#[derive(Clone, Copy, Debug, PartialEq, Eq)]
pub struct SinkFailed;

/// Why a file wasn't loaded.
#[derive(Clone, Copy, Debug, PartialEq, Eq)]
pub enum ShelfFault {
    /// No such file is held, or it could not be read. The count of faults rose.
    Failed,
    /// The file has more bytes than were asked for. The count of overs rose.
    TooLarge,
    /// There was no memory for the file's bytes.
    NoMemory,
}

/// Why no line was given. After each of them the lines aren't live any more.
#[derive(Clone, Copy, Debug, PartialEq, Eq)]
pub enum LineFault {
    /// A read failed, and no whole line was left of what was read before it.
    Failed,
    /// The source gave 16,777,217 bytes. The lines that end within the last piece of them, which has at most
    /// 4,096 bytes, aren't given.
    TooLong,
    /// There was no memory for a piece or for the line.
    NoMemory,
}
