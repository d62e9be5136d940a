// The lines of a source.
ghost use Rattle.std.specs.Prelude.{◌≡◌, ◌+◌, ◌≤◌, ◌<◌, true, length, vec_len, slice_index, OnOk};
ghost use Rattle.psac_base.specs.Feeds.{NoFeed, line_text};

use crate::{LineFault, NoMemory, Source};
use std::alloc::Global;

// So many bytes are too many.
const LIMIT: usize = 16_777_217;

/// The lines of a source, and the bytes of it that were read so far, fewer than 16,777,217 while lines are
/// given. A line ends with a line feed. The last one may end with the source, if it has a byte.
#[derive(Drop)]
pub struct Lines {
    bytes: Vec<u8>,
    at: usize,
    seen: usize,
    ended: bool,
    live: bool,
    ghost in_range: { at ≤ seen },
    ghost within: { seen ≤ vec_len bytes },
    ghost short: { live ≡ true → vec_len bytes < 16777217 },
    ghost searched: { NoFeed bytes.items at seen },
}

// The first end of a line from a place on, or the end of the bytes.
fn feed_from(bytes: &[u8], from: usize) -> usize
    requires { from ≤ length bytes.now }
    ensures low { from ≤ result }
    ensures high { result ≤ length bytes.now }
    ensures none { NoFeed bytes.now from result }
    ensures found { result < length bytes.now → slice_index bytes.now result ≡ 10 }
{
    for i in from..bytes.len() {
        if bytes[i] == b'\n' {
            return i;
        }
    }
    bytes.len()
}

// A line without a carriage return at its end.
fn without_return(line: &[u8]) -> &[u8]
    ensures { result.now ≡ line_text line.now }
{
    if !line.is_empty() && line[line.len() - 1] == b'\r' {
        &line[..line.len() - 1]
    } else {
        line
    }
}

// Puts a text in place of what is there.
fn fill(line: &mut Vec<u8>, text: &[u8]) -> Result<(), NoMemory>
    ensures { OnOk result (line.new.items ≡ text.now) }
{
    line.clear();
    line.extend_from_slice(text)?;
    Ok(())
}

impl Lines {
    ghost use Rattle.std.specs.Prelude.{◌≡◌, ◌⊎◌, ◌+◌, ◌≤◌, ◌<◌, ◌↔◌, ℕ, [], Ok, Err, true, false, length, drop, take, slice_index, slice_range, IfOk, IfSome, IfNone, IfErr, OnOk, OnErr, IsErrOf, IsTrue, IsOk};
    ghost use Rattle.psac_base.specs.Causes.{Rose};
    ghost use Rattle.psac_base.specs.Feeds.{NoFeed};
    ghost use Rattle.psac_base.specs.Lines.{EndsAtEnd, Grew, IsEnd, GivesLine, NoFeedBeforePiece, WasNeeded};
    ghost use Rattle.psac_base.specs.Lines.{bytes_of, given_of, has_ended, is_live};

    /// The lines of a source that wasn't read yet. They are live.
    pub fn new(alloc: Global) -> Result<Lines, NoMemory>
        ensures bytes { IfOk result (λ l. bytes_of l ≡ []) }
        ensures given { IfOk result (λ l. given_of l ≡ 0) }
        ensures live { IfOk result (λ l. is_live l ≡ true) }
        ensures ended { IfOk result (λ l. has_ended l ≡ false) }
    {
        Ok(Lines {
            bytes: Vec::new(alloc),
            at: 0,
            seen: 0,
            ended: false,
            live: true,
        })
    }

    /// Whether a next line may be asked for: no call answered an error or `Ok(false)`.
    pub fn live(&self) -> bool
        ensures { result ≡ is_live self.now }
    {
        self.live
    }

    // Reads one piece.
    fn read_piece<S: Source>(&mut self, source: &mut S) -> Result<(), LineFault>
        requires { is_live self.old ≡ true }
        ensures grew { Grew (bytes_of self.old) (bytes_of self.new) (S.left source.old) (S.left source.new) (S.taken source.old) (S.taken source.new) }
        ensures at { self.new.at ≡ self.old.at }
        ensures seen { self.new.seen ≡ self.old.seen }
        ensures later { S.faults source.old ≤ S.faults source.new }
        ensures piece { length (bytes_of self.new) ≤ length (bytes_of self.old) + 4096 }
        ensures live { IsTrue (is_live self.new) ↔ IsOk result }
        ensures progress { OnOk result ((length (bytes_of self.old) < length (bytes_of self.new)) ⊎ (has_ended self.new ≡ true)) }
        ensures ended { OnOk result (EndsAtEnd (has_ended self.old) (has_ended self.new) (S.left source.new)) }
        ensures unended { OnErr result (has_ended self.new ≡ has_ended self.old) }
        ensures failed { IsErrOf result LineFault.Failed → Rose (S.faults source.old) (S.faults source.new) }
        ensures kept { IsErrOf result LineFault.Failed → bytes_of self.new ≡ bytes_of self.old }
        ensures long { IsErrOf result LineFault.TooLong ↔ (length (bytes_of self.new) ≡ 16777217) }
    {
        let mut piece = [0u8; 4096];
        let size = (LIMIT - self.bytes.len()).min(4096);
        if self.bytes.reserve(size).is_err() {
            self.live = false;
            return Err(LineFault::NoMemory);
        }
        match source.read(&mut piece[..size]) {
            Err(_) => {
                self.live = false;
                Err(LineFault::Failed)
            }
            Ok(0) => {
                self.ended = true;
                Ok(())
            }
            Ok(count) => {
                self.bytes.extend_from_slice(&piece[..count]).unwrap();
                if self.bytes.len() == LIMIT {
                    self.live = false;
                    return Err(LineFault::TooLong);
                }
                Ok(())
            }
        }
    }

    // The end of the next whole line, or nothing at the end of the source.
    fn find_end<S: Source>(&mut self, source: &mut S) -> Result<Option<usize>, LineFault>
        requires { is_live self.old ≡ true }
        ensures grew { Grew (bytes_of self.old) (bytes_of self.new) (S.left source.old) (S.left source.new) (S.taken source.old) (S.taken source.new) }
        ensures at { self.new.at ≡ self.old.at }
        ensures later { S.faults source.old ≤ S.faults source.new }
        ensures live { IsTrue (is_live self.new) ↔ IsOk result }
        ensures some { IfOk result (λ found. IfSome found (IsEnd (bytes_of self.new) (given_of self.old))) }
        ensures none { IfOk result (λ found. IfNone found ((has_ended self.new ≡ true)
            × NoFeed (bytes_of self.new) (given_of self.old) (length (bytes_of self.new)))) }
        ensures still { has_ended self.old ≡ true → (source.new ≡ source.old) × (bytes_of self.new ≡ bytes_of self.old) }
        ensures lazy { ((source.new ≡ source.old) × (bytes_of self.new ≡ bytes_of self.old))
            ⊎ WasNeeded (bytes_of self.old) (bytes_of self.new) (given_of self.old) }
        ensures ended { OnOk result (EndsAtEnd (has_ended self.old) (has_ended self.new) (S.left source.new)) }
        ensures unended { OnErr result (has_ended self.new ≡ has_ended self.old) }
        ensures going { OnErr result (has_ended self.new ≡ false) }
        ensures failed { IsErrOf result LineFault.Failed → Rose (S.faults source.old) (S.faults source.new) }
        ensures given { IsErrOf result LineFault.Failed → NoFeed (bytes_of self.new) (given_of self.old) (length (bytes_of self.new)) }
        ensures long { IsErrOf result LineFault.TooLong ↔ (length (bytes_of self.new) ≡ 16777217) }
        ensures before { IsErrOf result LineFault.TooLong → NoFeedBeforePiece (bytes_of self.new) (given_of self.old) }
    {
        'pieces: loop {
            self.seen = feed_from(&self.bytes, self.seen);
            if self.seen < self.bytes.len() {
                return Ok(Some(self.seen));
            }
            if self.ended {
                return Ok(None);
            }
            self.read_piece(source)?;
        }
    }

    /// Puts the next line in place of what `line` holds, and answers `Ok(true)`: without its line feed, and
    /// without one carriage return before that. An unfinished last line stands as it is. `Ok(false)` comes at
    /// the end of the source, with no line. A piece is read only where no line ends in what was read before it.
    ///
    /// After `Ok(false)` and after each error no further line may be asked for. They leave `line` as it was,
    /// but for `NoMemory`, after which it may be empty.
    pub fn next_line<S: Source>(
        &mut self,
        source: &mut S,
        line: &mut Vec<u8>,
    ) -> Result<bool, LineFault>
        requires { is_live self.old ≡ true }
        // What was read is what the source lost.
        ensures grew { Grew (bytes_of self.old) (bytes_of self.new) (S.left source.old) (S.left source.new) (S.taken source.old) (S.taken source.new) }
        ensures later { S.faults source.old ≤ S.faults source.new }
        ensures live { IsTrue (is_live self.new) ↔ (result ≡ Ok true) }
        // The next line of what was read and not given.
        ensures line { result ≡ Ok true
            → GivesLine (bytes_of self.new) (given_of self.old) (given_of self.new) (has_ended self.new) line.new.items }
        // The end, exactly where a read gave 0 and no byte is left.
        ensures end { (result ≡ Ok false) ↔ ((has_ended self.new ≡ true) × (given_of self.old ≡ length (bytes_of self.new))) }
        ensures ended { EndsAtEnd (has_ended self.old) (has_ended self.new) (S.left source.new) }
        // No more is read than the line needs, and nothing after a read that gave 0.
        ensures still { has_ended self.old ≡ true → (source.new ≡ source.old) × (bytes_of self.new ≡ bytes_of self.old) }
        ensures lazy { ((source.new ≡ source.old) × (bytes_of self.new ≡ bytes_of self.old))
            ⊎ WasNeeded (bytes_of self.old) (bytes_of self.new) (given_of self.old) }
        // A read failed, and every whole line was given before.
        ensures failed { IsErrOf result LineFault.Failed → Rose (S.faults source.old) (S.faults source.new) }
        ensures given { IsErrOf result LineFault.Failed → NoFeed (bytes_of self.new) (given_of self.old) (length (bytes_of self.new)) }
        // Too much was read, exactly there, and every whole line before the last piece was given before.
        ensures long { IsErrOf result LineFault.TooLong ↔ (length (bytes_of self.new) ≡ 16777217) }
        ensures before { IsErrOf result LineFault.TooLong → NoFeedBeforePiece (bytes_of self.new) (given_of self.old) }
        // Where no line is given, nothing else changes.
        ensures stays { (result ≡ Ok true) ⊎ (given_of self.new ≡ given_of self.old) }
        ensures kept { (result ≡ Ok true) ⊎ IsErrOf result LineFault.NoMemory ⊎ (line.new.items ≡ line.old.items) }
    {
        match self.find_end(source)? {
            Some(end) => {
                if fill(line, without_return(&self.bytes[self.at..end])).is_err() {
                    self.live = false;
                    return Err(LineFault::NoMemory);
                }
                self.seen = end + 1;
                self.at = end + 1;
                Ok(true)
            }
            None => {
                let end = self.bytes.len();
                if self.at == end {
                    self.live = false;
                    return Ok(false);
                }
                if fill(line, &self.bytes[self.at..]).is_err() {
                    self.live = false;
                    return Err(LineFault::NoMemory);
                }
                self.seen = end;
                self.at = end;
                Ok(true)
            }
        }
    }
}
