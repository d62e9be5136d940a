use psac_base::{Sink, SinkFailed, StdSink};
use std::fs;
use std::io::{self, Write};
use std::test::Fail;

// Takes three bytes of the first write, and then none.
#[derive(Drop)]
struct TakesThree(bool);

impl Write for TakesThree {
    fn write(&mut self, bytes: &[u8]) -> io::Result<usize> {
        let count = if self.0 { 0 } else { bytes.len().min(3) };
        self.0 = true;
        Ok(count)
    }

    fn flush(&mut self) -> io::Result<()> {
        Ok(())
    }
}

#[test]
fn a_sink_over_a_writer(rt: HostRuntime) -> Result<(), Fail> {
    let mut sink = StdSink::new(TakesThree(false));
    assert!(rt; sink.write(b"abcd") == Ok(3));
    assert!(rt; sink.write(b"d") == Err(SinkFailed));
    // A device that is always full.
    let full = fs::File::options().write(true).open(&rt, "/dev/full")?;
    let mut sink = StdSink::new(full);
    assert!(rt; sink.write(b"abcd") == Err(SinkFailed));
    Ok(())
}
