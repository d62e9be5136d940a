// The history that was reached: the rule of its one word, and its name.
ghost use Rattle.std.specs.Prelude.{◌≡◌, [], ◌∷◌};
ghost use Rattle.psac_publish.specs.History.{nothing};
ghost use Rattle.psac_publish.specs.Kept.{word_of};

use crate::Seen;
use logbook::{Gain, Plain, Play, Rule, Start, Word};
use std::marker::Brand;

/// What is known of a history. It has no bytes.
pub type Token = logbook::Seen<Seen, u64, Law>;

/// The rule of the history: numbers of commits rise.
pub struct Law;

impl Rule<Seen, u64> for Law {
    ghost use Rattle.std.specs.Prelude.{[], ◌∷◌};
    ghost use base.Fml.{ftrue};
    ghost use Rattle.psac_publish.specs.History.{nothing};
    ghost use Rattle.psac_publish.specs.Kept.{IsKept};

    ghost holds = { λ cells log. IsKept cells log };

    ghost first = { nothing ∷ [] };

    ghost hinted = { λ n log. Unit {0} };

    ghost shows = { λ log. [] };

    ghost keeps = { λ names log. ftrue };

    ghost moves = { λ ask before after answer. Unit {0} };
}

/// Nothing is traded.
pub struct Untraded;

impl Gain<Seen, u64> for Untraded {
    ghost use base.Fml.{ftrue};

    ghost after = { λ names about answer. ftrue };
}

/// A step that adds a value.
pub struct Adds;

impl Play<Seen, u64> for Adds {
    ghost use Rattle.psac_publish.specs.Kept.{Added};

    ghost then = { Added };
}

impl Plain<Seen, Seen, u64> for Adds {
    ghost use Rattle.std.specs.Prelude.{None};

    ghost ask = { λ seen. seen };

    ghost state = { λ seen. None };
}

/// A step that only reads.
pub struct Reads;

impl Play<Seen, u64> for Reads {
    ghost use Rattle.psac_publish.specs.Kept.{WasRead};

    ghost then = { WasRead };
}

impl Plain<Seen, Seen, u64> for Reads {
    ghost use Rattle.std.specs.Prelude.{None};

    ghost ask = { λ seen. seen };

    ghost state = { λ seen. None };
}

/// Names a history: which one it is, and what its values are, where that is told. It has no functions.
pub trait SeenName {
    ghost use Rattle.logbook.specs.Pages.{Book};
    ghost use Rattle.psac_publish.specs.History.{Course};

    ghost book: { Book };

    /// For each number of commits what is shown after them, where that is told.
    ghost course: { Course };
}

impl SeenName for Brand {
    ghost use Rattle.std.specs.Prelude.{None};

    ghost book = { record { number = 0; log_name = 0; cells_name = 0 } };

    ghost course = { None };
}

/// A history in which nothing is published, and which has no name yet.
#[derive(Drop)]
pub struct Opened {
    pub word: Word<Seen, u64, Law>,
    pub token: Token,
    ghost begun: { token.log ≡ nothing ∷ [] },
    ghost word_is: { word ≡ word_of token.book },
}

impl Opened {
    pub fn new() -> Opened {
        let (token, mut pen, _second) = logbook::Seen::open(Start::alone(), 0, 0);
        Opened {
            word: Word::tracked(0, &mut pen),
            token,
        }
    }
}
