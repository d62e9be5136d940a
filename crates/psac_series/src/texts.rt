ghost use Rattle.std.specs.Prelude.{◌≡◌, ◌++◌, ℕ, false, List, length, take, Some, Ok};
ghost use Rattle.psac_ops.specs.declared.plain.TextId.{TextId};
ghost use Rattle.psac_ops.specs.declared.plain.Plain.{Plain};
ghost use Rattle.psac_inputs.specs.Texts.{Texts, added, field};
ghost use Rattle.psac_tokens.specs.declared.place.Place.{Place};
ghost use Rattle.psac_tokens.specs.Lex.{closing, content, skip};
ghost use Rattle.psac_series.specs.Blanks.{Leaves};
ghost use Rattle.psac_series.specs.Quoted.{Closes};
ghost use Rattle.psac_series.specs.Texts.{AreDistinct};

/// Where no text stands in a list twice, none does once a text, or a field, came to it. So the number of a text says
/// which text it is.
pub fn texts_stay_distinct()
    ensures added { (bytes : List ℕ) (texts : Texts) (told : TextId × Texts) → AreDistinct texts
        → added bytes texts ≡ Ok told → AreDistinct told.1 }
    ensures field { (bytes : List ℕ) (texts : Texts) (told : Plain × Texts) → AreDistinct texts
        → field bytes texts ≡ Ok told → AreDistinct told.1 }
{}

/// Between tokens blanks and comments are skipped, and nothing else.
pub fn blanks_and_comments_are_skipped()
    ensures { (bytes : List ℕ) (place : Place) → Leaves bytes (skip false bytes place).0 }
{}

/// Behind its opening quote a TEXT goes to the quote that closes it, and stands for what its bytes and escapes do.
/// Where none closes it there is none.
pub fn a_text_is_what_its_quotes_hold()
    ensures closes { (bytes : List ℕ) (n : ℕ) → closing false 0 bytes ≡ Some n
        → Closes (take n bytes) (content false bytes) }
    ensures ends { (spelled text rest : List ℕ) → Closes spelled text
        → closing false 0 (spelled ++ rest) ≡ Some (length spelled) }
    ensures stands_for { (spelled text rest : List ℕ) → Closes spelled text
        → content false (spelled ++ rest) ≡ text }
{}
