//! The command line: what its words ask for.
#![tactic(auto)]

mod bench;
mod call;
mod request;
mod setting;
mod words;

pub use bench::{BenchRequest, Counts, read_bench_request};
pub use call::{TopCall, choose_call};
pub use request::{Mode, Request, Settings, read_request, read_single_request, read_watch_request};
