// Why a text is no program.
ghost use Rattle.std.specs.Prelude.{◌≡◌};
ghost use Rattle.psac_lang.specs.declared.fault.Halt.TheVariants as halt;
ghost use Rattle.psac_lang.specs.declared.fault.ParseFault.TheVariants as faults;

use std::alloc::{AllocError, AllocFailed};

/// Why there is no program.
#[derive(Clone, Copy, Debug, PartialEq, Eq)]
pub enum ParseFault {
    /// No text of the grammar begins with the tokens up to the one at this place, or none can be read there.
    /// Lines and columns count from 1, columns in bytes.
    Syntax { line: u32, column: u32 },
    /// A text of the grammar exceeds this limit, first at a token in this line.
    Limit { which: u8, line: u32 },
    NoMemory,
}

impl From<AllocError> for ParseFault {
    ghost from_gives = { λ _ e. e ≡ faults.NoMemory };

    fn from(_: AllocError) -> ParseFault {
        ParseFault::NoMemory
    }
}

/// Why the parser stops, at the first fault in text order.
#[derive(Clone, Copy, Debug, PartialEq, Eq)]
pub enum Halt {
    Syntax { line: u32, column: u32 },
    Limit { which: u8, line: u32 },
    NoMemory,
}

impl From<AllocError> for Halt {
    ghost from_gives = { λ _ e. e ≡ halt.NoMemory };

    fn from(_: AllocError) -> Halt {
        Halt::NoMemory
    }
}

impl<T: Drop> From<AllocFailed<T>> for Halt {
    ghost from_gives = { λ _ e. e ≡ halt.NoMemory };

    fn from(_: AllocFailed<T>) -> Halt {
        Halt::NoMemory
    }
}
