ghost use Rattle.std.specs.Prelude.{ℕ, List};
ghost use Rattle.psac_slots.specs.declared.view.ClaimView.{ClaimView};
ghost use Rattle.psac_slots.specs.Claiming.{Rule};
ghost use Rattle.psac_slots.specs.Promised.{Promised};

/// A law, with nothing to run. Where the rule of claims holds of words and views, live branches are apart, each
/// index below the counter was drawn once and no other was, no slot has two holders, what is free is free once and
/// held by none, and a `fetch_add` doesn't wrap.
pub fn claims_are_apart()
    ensures { (count : ℕ) (words : List ℕ) (views : List ClaimView) → Rule count words views → Promised words views }
{}
