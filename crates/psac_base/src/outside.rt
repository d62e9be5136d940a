// What a program reads, writes and loads.
ghost use Rattle.std.specs.Prelude.{◌≡◌, ◌+◌, ◌<◌, ◌≤◌, List, ℕ, Option, length, IfOk, IsErrOf};
ghost use Rattle.std.specs.Io.{ReadsAtMost};
ghost use Rattle.std.specs.Io.KnownBytes.{ReadConsumes};
ghost use Rattle.psac_base.specs.Causes.{HasCause, Rose};
ghost use Rattle.psac_base.specs.Outside.{WriteAppends, taken_by, IsFile, IsOver, NoneFalls};

use crate::{ShelfFault, SinkFailed, SourceFailed};
use std::alloc::Global;

/// What gives bytes, as standard input does.
pub trait Source {
    /// The bytes that reads will give from here on, where they are told. A source that tells them once tells
    /// them after each read too.
    ghost left: { Self → Option (List ℕ) };

    /// How many bytes reads gave so far.
    ghost taken: { Self → ℕ };

    /// How often a read failed. It never falls, and stands still at the last value of its counter.
    ghost faults: { Self → ℕ };

    /// Fills the first places of `into` with the next bytes, and answers their number. That is 0 only at the
    /// end. After an error no byte was taken; what `into` holds then isn't said.
    fn read(&mut self, into: &mut [u8]) -> Result<usize, SourceFailed>
        requires { 0 < length into.old }
        ensures bound { ReadsAtMost result into.new }
        ensures bytes { ReadConsumes (left self.old) (left self.new) result into.new }
        ensures count { taken self.new ≡ taken self.old + taken_by result }
        ensures cause { HasCause (faults self.old) (faults self.new) result };
}

/// What takes bytes, as standard output does.
pub trait Sink {
    /// All bytes that were written so far, where they are told. A sink may stop telling them, and never
    /// begins to.
    ghost held: { Self → Option (List ℕ) };

    /// How often a write failed. It never falls, and stands still at the last value of its counter.
    ghost faults: { Self → ℕ };

    /// Appends a first part of the bytes, and answers its length, which is at least 1. After an error nothing
    /// was appended.
    fn write(&mut self, bytes: &[u8]) -> Result<usize, SinkFailed>
        requires { 0 < length bytes.now }
        ensures some { IfOk result (λ n. 0 < n) }
        ensures bound { IfOk result (λ n. n ≤ length bytes.now) }
        ensures appends { WriteAppends (held self.old) (held self.new) result bytes.now }
        ensures cause { HasCause (faults self.old) (faults self.new) result };
}

/// What holds files, as a folder does. Loads don't change them.
pub trait Shelf {
    /// The files, by name and bytes, where they are told.
    ghost files: { Self → Option (List (List ℕ × List ℕ)) };

    /// How often the load of a name with that limit failed. It never falls, and stands still at the last
    /// value of its counter. One count for all names and limits is allowed.
    ghost faults: { Self → List ℕ → ℕ → ℕ };

    /// How often the load of a name with that limit met a file with more bytes. It is counted as faults are.
    ghost overs: { Self → List ℕ → ℕ → ℕ };

    /// All bytes of the file of that name, if they are at most `most`. A name that isn't held is a fault.
    fn load(&mut self, alloc: Global, name: &str, most: u64) -> Result<Vec<u8>, ShelfFault>
        ensures bytes { IfOk result (λ bytes. IsFile (files self.old) name.now bytes.items) }
        ensures bound { IfOk result (λ bytes. length bytes.items ≤ most) }
        ensures same { files self.new ≡ files self.old }
        ensures later { NoneFalls (faults self.old) (faults self.new) }
        ensures later_over { NoneFalls (overs self.old) (overs self.new) }
        ensures failed { IsErrOf result ShelfFault.Failed
            → Rose (faults self.old name.now most) (faults self.new name.now most) }
        ensures too_large { IsErrOf result ShelfFault.TooLarge
            → Rose (overs self.old name.now most) (overs self.new name.now most) }
        ensures over { IsErrOf result ShelfFault.TooLarge → IsOver (files self.old) name.now most };
}
