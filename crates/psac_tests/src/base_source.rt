use psac_base::{Source, SourceFailed, StdSource};
use std::fs;
use std::io::{self, ErrorKind, Read};
use std::test::Fail;

// Gives one byte, then fails once, then is at its end.
#[derive(Drop)]
struct FailsAfterOne(u8);

impl Read for FailsAfterOne {
    fn read(&mut self, into: &mut [u8]) -> io::Result<usize> {
        self.0 = self.0.saturating_add(1);
        match (self.0, into.first_mut()) {
            (1, Some(place)) => {
                *place = b'a';
                Ok(1)
            }
            (2, _) => Err(io::Error::from(ErrorKind::BrokenPipe)),
            _ => Ok(0),
        }
    }
}

#[test]
fn a_source_over_a_reader(rt: HostRuntime) -> Result<(), Fail> {
    let mut into = [0u8; 4];
    let mut source = StdSource::new(FailsAfterOne(0));
    assert!(rt; source.read(&mut into) == Ok(1));
    assert!(rt; into[0] == b'a');
    assert!(rt; source.read(&mut into) == Err(SourceFailed));
    assert!(rt; source.read(&mut into) == Ok(0));
    // A folder can be opened and not be read.
    let mut source = StdSource::new(fs::open(&rt, ".")?);
    assert!(rt; source.read(&mut into) == Err(SourceFailed));
    Ok(())
}
