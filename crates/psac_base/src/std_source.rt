// A source over a reader.
ghost use Rattle.std.specs.Prelude.{◌≡◌, None};

use crate::{Source, SourceFailed};
use std::io::Read;

/// A source over a reader, which in a program is standard input. It doesn't tell its bytes. A read that the
/// reader refuses is a fault. So is one whose piece could bring the number of bytes taken past the greatest
/// `u64`: then nothing is read.
#[derive(Drop)]
pub struct StdSource<R> {
    reader: R,
    taken: u64,
    faults: u64,
}

impl<R: Read> StdSource<R> {
    /// Nothing was read through it yet.
    pub fn new(reader: R) -> Self
        ensures taken { ⟦<StdSource<R> as Source>⟧.taken result ≡ 0 }
        ensures faults { ⟦<StdSource<R> as Source>⟧.faults result ≡ 0 }
    {
        StdSource {
            reader,
            taken: 0,
            faults: 0,
        }
    }
}

impl<R: Read> Source for StdSource<R> {
    ghost use Rattle.std.specs.Prelude.{length, ◌+◌, ◌<◌};
    ghost use Rattle.std.specs.Io.{ReadsAtMost};
    ghost use Rattle.std.specs.Io.KnownBytes.{ReadConsumes};
    ghost use Rattle.psac_base.specs.Causes.{HasCause};
    ghost use Rattle.psac_base.specs.Outside.{taken_by};
    ghost use Rattle.psac_base.specs.StdSource.{reader_of};

    ghost left = { λ _. None };

    ghost taken = { λ s. s.taken };

    ghost faults = { λ s. s.faults };

    fn read(&mut self, into: &mut [u8]) -> Result<usize, SourceFailed>
        requires { 0 < length into.old }
        ensures bound { ReadsAtMost result into.new }
        ensures bytes { ReadConsumes (⟦<StdSource<R> as Source>⟧.left self.old) (⟦<StdSource<R> as Source>⟧.left self.new) result into.new }
        ensures count { ⟦<StdSource<R> as Source>⟧.taken self.new ≡ ⟦<StdSource<R> as Source>⟧.taken self.old + taken_by result }
        ensures cause { HasCause (⟦<StdSource<R> as Source>⟧.faults self.old) (⟦<StdSource<R> as Source>⟧.faults self.new) result }
        // Where the reader's bytes are known, they are what is given.
        ensures passed { ReadConsumes (R.remaining (reader_of self.old)) (R.remaining (reader_of self.new)) result into.new }
    {
        if into.len() as u64 <= u64::MAX - self.taken {
            if let Ok(count) = self.reader.read(into) {
                self.taken += count as u64;
                return Ok(count);
            }
        }
        self.faults = self.faults.saturating_add(1);
        Err(SourceFailed)
    }
}
