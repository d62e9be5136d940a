ghost use Rattle.std.specs.Prelude.{ℕ, List, ◌≤◌, sum_by};
ghost use Rattle.psac_readers.specs.declared.view.ReadersView.{ReadersView};
ghost use Rattle.psac_readers.specs.Chained.{Readable, named};
ghost use Rattle.psac_readers.specs.Promised.{Promised};
ghost use Rattle.psac_readers.specs.Steps.{IsSet};
ghost use Rattle.psac_readers.specs.Walked.{Walked};

/// A law, with nothing to run. Where the rule of reader sets holds of words and views, a set that one pass alone has
/// is whole, so is a shared one, a link is one pass's, one that is free is nobody's, a dead word says who is dead, and
/// claims are apart.
pub fn sets_are_whole()
    ensures { (links mods : ℕ) (words : List ℕ) (views : List ReadersView) → Readable links mods words views → Promised links mods words views }
{}

/// A law, with nothing to run. Where a chain has the links of a set, each once, and no link of the pass stands twice, the
/// answers of `first` and then of `next` are the live links of the set, each once, and then none.
pub fn a_walk_lists_the_live_links()
    ensures { (v : ReadersView) (m : ℕ) (chain : List ℕ) → IsSet v m chain → ((l : ℕ) → sum_by (named l) v.links ≤ 1) → Walked v m chain }
{}
