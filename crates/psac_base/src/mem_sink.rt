// A sink in memory.
ghost use Rattle.std.specs.Prelude.{◌≡◌, ◌<◌, ◌≤◌, ◌↔◌, [], Some, None, vec_len, vec_capacity, IfOk, option_map, if◌then◌else◌};

use crate::calls::Calls;
use crate::{NoMemory, Sink, SinkFailed};
use std::alloc::Global;

/// A sink that holds what is written in memory, with failures of its maker's choice. It tells its bytes as
/// long as no more were written than it has room for. After that it still takes bytes, and tells nothing.
#[derive(Drop)]
pub struct MemSink {
    bytes: Vec<u8>,
    room: usize,
    over: bool,
    piece: usize,
    calls: Calls,
    ghost has_room: { room ≤ vec_capacity bytes },
    ghost within: { vec_len bytes ≤ room },
    ghost moves: { 0 < piece },
}

impl MemSink {
    ghost use Rattle.psac_base.specs.MemSink.{calls_of, fails_of, piece_of, room_of};

    /// An empty sink with room for so many bytes, which is made here, so that a write takes no memory. One
    /// write takes at most `piece` bytes. The writes whose numbers are in `fails` fail, where the first write
    /// has the number 1; a failed write is counted as a write too.
    pub fn new(
        alloc: Global,
        room: usize,
        piece: usize,
        fails: Vec<u64>,
    ) -> Result<MemSink, NoMemory>
        requires { 0 < piece }
        ensures held { IfOk result (λ s. ⟦<MemSink as Sink>⟧.held s ≡ Some []) }
        ensures faults { IfOk result (λ s. ⟦<MemSink as Sink>⟧.faults s ≡ 0) }
        ensures room { IfOk result (λ s. room_of s ≡ room) }
        ensures piece { IfOk result (λ s. piece_of s ≡ piece) }
        ensures calls { IfOk result (λ s. calls_of s ≡ 0) }
        ensures fails { IfOk result (λ s. fails_of s ≡ fails.items) }
    {
        Ok(MemSink {
            bytes: Vec::with_capacity(alloc, room)?,
            room,
            over: false,
            piece,
            calls: Calls::new(fails),
        })
    }

    /// All bytes that were written, or `None` where they were more than there is room for.
    pub fn bytes(&self) -> Option<&[u8]>
        ensures { option_map (λ bytes. bytes.now) result ≡ ⟦<MemSink as Sink>⟧.held self.now }
    {
        if self.over { None } else { Some(&self.bytes) }
    }
}

impl Sink for MemSink {
    ghost use Rattle.std.specs.Prelude.{length, min, take, IsErr, IsOk, MatchResult, Contains, ◌+◌, ◌-◌, ◌^◌};
    ghost use Rattle.psac_base.specs.Causes.{HasCause};
    ghost use Rattle.psac_base.specs.Outside.{WriteAppends};
    ghost use Rattle.psac_base.specs.MemSink.{calls_of, fails_of, held_within, piece_of, room_of};

    ghost held = { λ s. if s.over then None else Some s.bytes.items };

    ghost faults = { λ s. s.calls.faults };

    fn write(&mut self, bytes: &[u8]) -> Result<usize, SinkFailed>
        requires { 0 < length bytes.now }
        ensures some { IfOk result (λ n. 0 < n) }
        ensures bound { IfOk result (λ n. n ≤ length bytes.now) }
        ensures appends { WriteAppends (⟦<MemSink as Sink>⟧.held self.old) (⟦<MemSink as Sink>⟧.held self.new) result bytes.now }
        ensures cause { HasCause (⟦<MemSink as Sink>⟧.faults self.old) (⟦<MemSink as Sink>⟧.faults self.new) result }
        // It tells what was written as long as that has room.
        ensures told { MatchResult result
            (λ n. ⟦<MemSink as Sink>⟧.held self.new ≡ held_within (room_of self.old) (⟦<MemSink as Sink>⟧.held self.old) (take n bytes.now))
            (λ _. ⟦<MemSink as Sink>⟧.held self.new ≡ ⟦<MemSink as Sink>⟧.held self.old) }
        // It fails exactly where the call's number is listed, and so never with an empty list.
        ensures listed { IsErr result ↔ Contains (fails_of self.old) (calls_of self.new) }
        ensures never { fails_of self.old ≡ [] → IsOk result }
        ensures calls { calls_of self.new ≡ min (calls_of self.old + 1) (2 ^ 64 - 1) }
        ensures fails { fails_of self.new ≡ fails_of self.old }
        ensures piece { IfOk result (λ n. n ≤ piece_of self.old) }
        ensures same_piece { piece_of self.new ≡ piece_of self.old }
        ensures same_room { room_of self.new ≡ room_of self.old }
    {
        if self.calls.next_fails() {
            return Err(SinkFailed);
        }
        let count = bytes.len().min(self.piece);
        if count > self.room - self.bytes.len() {
            self.over = true;
        } else {
            self.bytes.extend_from_slice(&bytes[..count]).unwrap();
        }
        Ok(count)
    }
}
