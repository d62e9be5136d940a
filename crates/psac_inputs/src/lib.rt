//! The grid of input cells, the texts, and how inputs are read.
#![tactic(auto)]

mod batch;
mod fault;
mod grid;
mod interner;
mod lines;
mod load;
mod wide;

pub use batch::{Batch, Edit};
pub use fault::{BatchFault, InputFault, TextFault};
pub use grid::Grid;
pub use interner::Interner;
pub use lines::split_line;
pub use load::{load_csv, load_lines};
