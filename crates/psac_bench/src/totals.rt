// The sums over the commits of a bench, and their line.
ghost use Rattle.std.specs.Prelude.{◌≡◌, ◌+◌, ◌*◌, ◌<◌, ◌≤◌, ◌∷◌, ◌++◌, IfOk, OnOk};
ghost use Rattle.std.specs.Fmt.{decimal};
ghost use Rattle.psac_report.specs.Report.{bench_line, with_work};

use psac_base::NoMemory;
use psac_command::Counts;
use psac_model::{Mode, Work};
use std::alloc::Global;

/// How many commits there were of each kind, and the sums of what those that ended well did.
#[derive(Drop)]
pub struct Totals {
    pub repaired: u32,
    pub anew: u32,
    pub failed: u32,
    pub visited: u128,
    pub rerun: u128,
    pub inside: u128,
    pub dropped: u128,
    // No sum is above what so many commits can give.
    ghost visited_within: { visited ≤ (repaired + anew) * 18446744073709551615 },
    ghost rerun_within: { rerun ≤ (repaired + anew) * 18446744073709551615 },
    ghost inside_within: { inside ≤ (repaired + anew) * 18446744073709551615 },
    ghost dropped_within: { dropped ≤ (repaired + anew) * 18446744073709551615 },
}

fn push_sum(text: &mut Vec<u8>, word: &[u8], value: u128) -> Result<(), NoMemory>
    ensures { OnOk result (text.new.items ≡ text.old.items ++ (word.now ++ 61 ∷ decimal value)) }
{
    text.extend_from_slice(word)?;
    text.push(b'=')?;
    let digits = value.to_string(*text.allocator())?;
    text.extend_from_slice(digits.as_bytes())?;
    Ok(())
}

impl Totals {
    ghost use Rattle.psac_bench.specs.Totals.{commits_of, sums_of, with_failed};
    ghost use Rattle.psac_report.specs.Report.{no_totals};

    /// The sums over no commit.
    pub fn new() -> Totals
        ensures { sums_of result ≡ no_totals }
    {
        Totals {
            repaired: 0,
            anew: 0,
            failed: 0,
            visited: 0,
            rerun: 0,
            inside: 0,
            dropped: 0,
        }
    }

    /// Counts a commit that ended well.
    pub fn count(&mut self, work: &Work)
        requires { commits_of self.old < 4294967295 }
        ensures value { sums_of self.new ≡ with_work (sums_of self.old) work.now }
        ensures commits { commits_of self.new ≡ commits_of self.old + 1 }
    {
        match work.mode {
            Mode::Repair => self.repaired += 1,
            Mode::Anew => self.anew += 1,
        }
        self.visited += u128::from(work.visited);
        self.rerun += u128::from(work.rerun);
        self.inside += u128::from(work.inside);
        self.dropped += u128::from(work.dropped);
    }

    /// Counts a commit after which no run is kept.
    pub fn count_failed(&mut self)
        requires { commits_of self.old < 4294967295 }
        ensures value { sums_of self.new ≡ with_failed (sums_of self.old) }
        ensures commits { commits_of self.new ≡ commits_of self.old + 1 }
    {
        self.failed += 1;
    }

    /// The line of the sums.
    pub fn line(&self, alloc: Global, counts: Counts) -> Result<Vec<u8>, NoMemory>
        ensures { IfOk result (λ text. text.items ≡ bench_line counts.cells counts.batches (sums_of self.now)) }
    {
        let mut text = Vec::new(alloc);
        push_sum(&mut text, b"cells", u128::from(counts.cells))?;
        push_sum(&mut text, b" batches", u128::from(counts.batches))?;
        push_sum(&mut text, b" repaired", u128::from(self.repaired))?;
        push_sum(&mut text, b" anew", u128::from(self.anew))?;
        push_sum(&mut text, b" failed", u128::from(self.failed))?;
        push_sum(&mut text, b" visited", self.visited)?;
        push_sum(&mut text, b" rerun", self.rerun)?;
        push_sum(&mut text, b" inside", self.inside)?;
        push_sum(&mut text, b" dropped", self.dropped)?;
        text.push(b'\n')?;
        Ok(text)
    }
}
