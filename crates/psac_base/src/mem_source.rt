// A source in memory.
ghost use Rattle.std.specs.Prelude.{◌≡◌, ◌+◌, ◌<◌, ◌≤◌, ◌↔◌, [], Some, vec_len, drop};

use crate::calls::Calls;
use crate::{Source, SourceFailed};

/// A source that gives bytes of memory, in pieces and with failures of its maker's choice. It tells its bytes.
#[derive(Drop)]
pub struct MemSource {
    bytes: Vec<u8>,
    at: usize,
    piece: usize,
    calls: Calls,
    ghost in_range: { at ≤ vec_len bytes },
    ghost moves: { 0 < piece },
}

impl MemSource {
    ghost use Rattle.psac_base.specs.MemSource.{calls_of, fails_of, piece_of};

    /// A source of these bytes. One read gives at most `piece` of them. The reads whose numbers are in `fails`
    /// fail, where the first read has the number 1; a failed read takes nothing, and is counted as a read too.
    pub fn new(bytes: Vec<u8>, piece: usize, fails: Vec<u64>) -> MemSource
        requires { 0 < piece }
        ensures left { ⟦<MemSource as Source>⟧.left result ≡ Some bytes.items }
        ensures taken { ⟦<MemSource as Source>⟧.taken result ≡ 0 }
        ensures faults { ⟦<MemSource as Source>⟧.faults result ≡ 0 }
        ensures piece { piece_of result ≡ piece }
        ensures calls { calls_of result ≡ 0 }
        ensures fails { fails_of result ≡ fails.items }
    {
        MemSource {
            bytes,
            at: 0,
            piece,
            calls: Calls::new(fails),
        }
    }
}

impl Source for MemSource {
    ghost use Rattle.std.specs.Prelude.{length, min, IfOk, IsErr, IsOk, Contains, ◌-◌, ◌^◌};
    ghost use Rattle.std.specs.Io.{ReadsAtMost};
    ghost use Rattle.std.specs.Io.KnownBytes.{ReadConsumes};
    ghost use Rattle.psac_base.specs.Causes.{HasCause};
    ghost use Rattle.psac_base.specs.Outside.{taken_by};
    ghost use Rattle.psac_base.specs.MemSource.{calls_of, fails_of, piece_of};

    ghost left = { λ s. Some (drop s.at s.bytes.items) };

    ghost taken = { λ s. s.at };

    ghost faults = { λ s. s.calls.faults };

    fn read(&mut self, into: &mut [u8]) -> Result<usize, SourceFailed>
        requires { 0 < length into.old }
        ensures bound { ReadsAtMost result into.new }
        ensures bytes { ReadConsumes (⟦<MemSource as Source>⟧.left self.old) (⟦<MemSource as Source>⟧.left self.new) result into.new }
        ensures count { ⟦<MemSource as Source>⟧.taken self.new ≡ ⟦<MemSource as Source>⟧.taken self.old + taken_by result }
        ensures cause { HasCause (⟦<MemSource as Source>⟧.faults self.old) (⟦<MemSource as Source>⟧.faults self.new) result }
        // It fails exactly where the call's number is listed, and so never with an empty list.
        ensures listed { IsErr result ↔ Contains (fails_of self.old) (calls_of self.new) }
        ensures never { fails_of self.old ≡ [] → IsOk result }
        ensures calls { calls_of self.new ≡ min (calls_of self.old + 1) (2 ^ 64 - 1) }
        ensures fails { fails_of self.new ≡ fails_of self.old }
        ensures piece { IfOk result (λ n. n ≤ piece_of self.old) }
        ensures same_piece { piece_of self.new ≡ piece_of self.old }
    {
        if self.calls.next_fails() {
            return Err(SourceFailed);
        }
        let left = self.bytes.len() - self.at;
        let count = left.min(self.piece).min(into.len());
        into[..count].copy_from_slice(&self.bytes[self.at..self.at + count]);
        self.at += count;
        Ok(count)
    }
}
