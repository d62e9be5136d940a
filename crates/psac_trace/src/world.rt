//! What a run goes over.
use crate::ground::Ground;
use psac_fork::{Crew, Tables};
use psac_ops::{Handle, TextId};
use psac_syntax::Func;

/// What every call of a run passes on: the tables with their threads, the grid, the program, and the destinations that
/// the run didn't make.
#[derive(Clone, Copy)]
pub struct World<'a> {
    pub crew: &'a Crew,
    pub tables: &'a Tables,
    pub ground: &'a Ground,
    pub texts: &'a [TextId],
    pub funcs: &'a [Func],
    pub olds: &'a [Handle],
}
