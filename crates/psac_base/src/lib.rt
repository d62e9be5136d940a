//! The outside of the engine: what gives bytes, what takes bytes and what holds files, as traits whose
//! meanings contracts can name. Each tells how often it failed. There are such objects in memory, whose
//! failures are chosen by their maker, and adapters over readers, writers and files. Beside them stand what
//! every layer above reads and writes with: whole texts, lines and decimal numbers.
#![tactic(auto)]

mod calls;
mod dir_shelf;
mod fault;
mod lines;
mod mem_shelf;
mod mem_sink;
mod mem_source;
mod number;
mod outside;
mod std_sink;
mod std_source;
mod whole;

pub use dir_shelf::DirShelf;
pub use fault::{LineFault, NoMemory, ShelfFault, SinkFailed, SourceFailed};
pub use lines::Lines;
pub use mem_shelf::MemShelf;
pub use mem_sink::MemSink;
pub use mem_source::MemSource;
pub use number::{push_int, read_int};
pub use outside::{Shelf, Sink, Source};
pub use std_sink::StdSink;
pub use std_source::StdSource;
pub use whole::write_whole;
