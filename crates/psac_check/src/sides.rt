// What two branches or two sides leave.
ghost use Rattle.std.specs.Prelude.{◌≡◌, ◌&&◌, ◌||◌, ◌++◌, not, IfOk};
ghost use Rattle.std.specs.List.{list_all};
ghost use Rattle.psac_model.specs.Series.{has, BranchesDiffer, WrittenInBothSides, all_in, without, unless};
ghost use Rattle.psac_check.specs.Faults.{told};

use crate::fault::Breach;
use std::alloc::AllocError;

fn is_within(names: &[u16], others: &[u16]) -> bool
    ensures { result ≡ all_in names.now others.now }
{
    for name in names {
        if !others.contains(name) {
            return false;
        }
    }
    true
}

/// Both branches must leave the same set.
pub fn same_branches(first: &[u16], second: &[u16]) -> Result<(), Breach>
    ensures { told result ≡ unless (all_in first.now second.now && all_in second.now first.now) BranchesDiffer }
{
    if is_within(first, second) && is_within(second, first) {
        return Ok(());
    }
    Err(Breach::BranchesDiffer)
}

fn are_apart(before: &[u16], first: &[u16], second: &[u16]) -> bool
    ensures { result ≡ list_all (λ x. has x before.now || not (has x second.now)) first.now }
{
    for name in first {
        if !before.contains(name) && second.contains(name) {
            return false;
        }
    }
    true
}

/// What both sides leave must have been written before.
#[tactic(auto, using(crate::proofs::Members::apart_is))]
pub fn apart_sides(before: &[u16], first: &[u16], second: &[u16]) -> Result<(), Breach>
    ensures { told result ≡ unless (all_in first.now (before.now ++ without second.now first.now)) WrittenInBothSides }
{
    if are_apart(before, first, second) {
        return Ok(());
    }
    Err(Breach::WrittenInBothSides)
}

/// What one of two sides leaves, or both do.
pub fn union(mut first: Vec<u16>, mut second: Vec<u16>) -> Result<Vec<u16>, AllocError>
    ensures { IfOk result (λ all. all.items ≡ first.items ++ without first.items second.items) }
{
    second.retain(|name| !first.as_slice().contains(name));
    first.append(&mut second)?;
    Ok(first)
}
