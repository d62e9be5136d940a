// A sink over a writer.
ghost use Rattle.std.specs.Prelude.{◌≡◌, None};

use crate::{Sink, SinkFailed};
use std::io::Write;

/// A sink over a writer, which in a program is standard output. It doesn't tell its bytes, and nothing is
/// buffered here. A write that the writer refuses is a fault, and so is one that takes no byte.
#[derive(Drop)]
pub struct StdSink<W> {
    writer: W,
    faults: u64,
}

impl<W: Write> StdSink<W> {
    /// Nothing was written through it yet.
    pub fn new(writer: W) -> Self
        ensures faults { ⟦<StdSink<W> as Sink>⟧.faults result ≡ 0 }
    {
        StdSink { writer, faults: 0 }
    }
}

impl<W: Write> Sink for StdSink<W> {
    ghost use Rattle.std.specs.Prelude.{length, IfOk, ◌<◌, ◌≤◌};
    ghost use Rattle.std.specs.Io.KnownBytes.{WriteAppends as WriterAppends};
    ghost use Rattle.psac_base.specs.Causes.{HasCause};
    ghost use Rattle.psac_base.specs.Outside.{WriteAppends};
    ghost use Rattle.psac_base.specs.StdSink.{writer_of};

    ghost held = { λ _. None };

    ghost faults = { λ s. s.faults };

    fn write(&mut self, bytes: &[u8]) -> Result<usize, SinkFailed>
        requires { 0 < length bytes.now }
        ensures some { IfOk result (λ n. 0 < n) }
        ensures bound { IfOk result (λ n. n ≤ length bytes.now) }
        ensures appends { WriteAppends (⟦<StdSink<W> as Sink>⟧.held self.old) (⟦<StdSink<W> as Sink>⟧.held self.new) result bytes.now }
        ensures cause { HasCause (⟦<StdSink<W> as Sink>⟧.faults self.old) (⟦<StdSink<W> as Sink>⟧.faults self.new) result }
        // Where the writer's bytes are known, what is taken is appended to them.
        ensures passed { WriterAppends (W.contents (writer_of self.old)) (W.contents (writer_of self.new)) result bytes.now }
    {
        match self.writer.write(bytes) {
            Ok(count) if count > 0 => Ok(count),
            _ => {
                self.faults = self.faults.saturating_add(1);
                Err(SinkFailed)
            }
        }
    }
}
