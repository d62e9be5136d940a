ghost use Rattle.std.specs.Prelude.{List, ℕ};
ghost use Rattle.psac_grammar.specs.Language.{HasOneVerdict};

/// Each list of bytes is a text of one program, or has its first fault at one place: a fault of syntax, or one limit that is exceeded.
pub fn one_verdict()
    ensures { (bytes : List ℕ) → HasOneVerdict bytes }
{}
