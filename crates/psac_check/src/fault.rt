// What is wrong with a program, and where.
ghost use Rattle.std.specs.Prelude.{◌≡◌, Some, OnOk, Ok};
ghost use Rattle.psac_model.specs.Series.{so};
ghost use Rattle.psac_check.specs.Faults.{breach_of, fault_of, told};
ghost use Rattle.psac_check.specs.Follows.{Gives};

use std::alloc::{AllocError, AllocFailed};

/// What is wrong, wherever it stands.
#[derive(Clone, Copy, Debug, PartialEq, Eq)]
pub enum Breach {
    UnknownName,
    Rebound,
    ReadBeforeWrite,
    WrittenTwice,
    NotWritten,
    BranchesDiffer,
    WrittenInBothSides,
    UnknownFunction,
    Arity,
    NoMain,
    WrongSort,
}

/// Why a program is refused, with the line of the statement, or of the header, that is wrong.
#[derive(Clone, Copy, Debug, PartialEq, Eq)]
pub enum CheckFault {
    /// A name is used that isn't in scope.
    UnknownName { line: u32 },
    /// A function's name, a parameter, or a name bound by `let`, `new` or `read` is there already.
    Rebound { line: u32 },
    /// The whole expression of a read is a destination that isn't written yet.
    ReadBeforeWrite { line: u32 },
    /// What is written, or passed to be written, is written already.
    WrittenTwice { line: u32 },
    /// The destination of a `new` isn't written at the end of its body (the line is that of the `new`),
    /// or one of a function's own at the function's end (the line is that of the header).
    NotWritten { line: u32 },
    /// The branches of an `if` write different destinations from outside.
    BranchesDiffer { line: u32 },
    /// The sides of a `par` write one destination from outside.
    WrittenInBothSides { line: u32 },
    /// There is no function of the name that is called.
    UnknownFunction { line: u32 },
    /// The function that is called has another number of values or destinations.
    Arity { line: u32 },
    /// There is no `main` (the line is 1), or it has value parameters (the line is that of its header).
    NoMain { line: u32 },
    /// A destination that isn't written stands where a value is wanted, or a value where a destination is.
    WrongSort { line: u32 },
    /// Memory ran out. This may come for any program.
    NoMemory,
}

impl From<AllocError> for CheckFault {
    ghost use Rattle.psac_check.specs.declared.fault.CheckFault.TheVariants as faults;

    ghost from_gives = { λ _ e. e ≡ faults.NoMemory };

    fn from(_: AllocError) -> CheckFault {
        CheckFault::NoMemory
    }
}

impl<T: Drop> From<AllocFailed<T>> for CheckFault {
    ghost use Rattle.psac_check.specs.declared.fault.CheckFault.TheVariants as faults;

    ghost from_gives = { λ _ e. e ≡ faults.NoMemory };

    fn from(_: AllocFailed<T>) -> CheckFault {
        CheckFault::NoMemory
    }
}

impl Breach {
    pub fn at(self, line: u32) -> CheckFault
        ensures { fault_of result ≡ Some (breach_of self, line) }
    {
        match self {
            Breach::UnknownName => CheckFault::UnknownName { line },
            Breach::Rebound => CheckFault::Rebound { line },
            Breach::ReadBeforeWrite => CheckFault::ReadBeforeWrite { line },
            Breach::WrittenTwice => CheckFault::WrittenTwice { line },
            Breach::NotWritten => CheckFault::NotWritten { line },
            Breach::BranchesDiffer => CheckFault::BranchesDiffer { line },
            Breach::WrittenInBothSides => CheckFault::WrittenInBothSides { line },
            Breach::UnknownFunction => CheckFault::UnknownFunction { line },
            Breach::Arity => CheckFault::Arity { line },
            Breach::NoMain => CheckFault::NoMain { line },
            Breach::WrongSort => CheckFault::WrongSort { line },
        }
    }
}

/// What was found wrong, at a line.
pub fn at_line(line: u32, found: Result<(), Breach>) -> Result<(), CheckFault>
    ensures { Gives (λ done. done) result (so (told found) line (Ok tt)) }
{
    match found {
        Ok(()) => Ok(()),
        Err(breach) => Err(breach.at(line)),
    }
}
