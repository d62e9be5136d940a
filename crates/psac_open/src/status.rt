// How the program ends.

/// What the program ends with: 0 where all was done, 2 for words that ask for nothing known, 3 for a load that failed,
/// 4 for a program and 5 for an input that isn't accepted, 6 for a failed read of the script, 7 for a failed write, 8
/// for a script that is too long, 9 where memory ran out.
#[derive(Clone, Copy, Debug, PartialEq, Eq)]
pub struct Status {
    pub code: u8,
}

pub const NO_MEMORY: Status = Status { code: 9 };
