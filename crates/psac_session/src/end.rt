/// How a session ends.
#[derive(Clone, Copy, Debug, PartialEq, Eq)]
pub enum SessionEnd {
    /// The script was read to its end, or to the line `quit`, and the whole report was written.
    Done,
    /// A read of the script failed.
    SourceFailed,
    /// A write of a reply failed, behind a first part of the report.
    SinkFailed,
    /// The script gave 16,777,217 bytes.
    TooLong,
    NoMemory,
}
