ghost use Rattle.std.specs.Prelude.{ℕ, List};
ghost use Rattle.psac_values.specs.declared.view.ValueView.{ValueView};
ghost use Rattle.psac_values.specs.Valued.{Rule};
ghost use Rattle.psac_values.specs.Promised.{Promised};

/// A law, with nothing to run. Where the rule of values holds of words and views, the words that a view has stand in
/// the table, no slot has two writers, what one pass may write no other knows, what is free no pass has or knows, and
/// claims are apart.
pub fn known_words_stand()
    ensures { (fixed count : ℕ) (words : List ℕ) (views : List ValueView) → Rule fixed count words views → Promised fixed count words views }
{}
