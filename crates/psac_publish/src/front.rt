// Beginnings of a history.
use crate::Seen;
use crate::ledger::{Adds, Law, Reads, Token, Untraded};
use left_right::Absorb;
use logbook::{Offer, Word};
use std::alloc::AllocError;
use std::marker::Model;

/// A beginning of a history that was reached. Contracts see which history it is, and its values.
#[derive(Drop)]
pub struct Front {
    last: Seen,
    token: Token,
}

impl Model for Front {
    ghost use Rattle.psac_publish.specs.History.{IsHistory, IsLast, Reached, reached};

    ghost Value = { Reached };

    ghost view = { λ f. reached f.token.book f.token.log };

    ghost invariant = { λ f. IsHistory f.token.log × IsLast f.last f.token.log };
}

impl Front {
    ghost use Rattle.std.specs.Prelude.{◌≡◌, ◌⊎◌, ◌<◌, [], ◌∷◌, ◌++◌, true, IfSome};
    ghost use mathlib.Core.List.{IsPrefix};
    ghost use Rattle.psac_publish.specs.History.{IsLast, IsHistory, last_commit, nothing, reached};
    ghost use Rattle.psac_publish.specs.Kept.{word_of};

    /// The beginning that has commit 0 alone.
    pub fn first(token: Token) -> Front
        requires { token.log ≡ nothing ∷ [] }
        ensures { result ≡ reached token.book (nothing ∷ []) }
    {
        Front {
            last: Seen::nothing(),
            token,
        }
    }

    /// The last value.
    pub fn last(&self) -> &Seen
        ensures last { IsLast result.now self.now.log }
        ensures commit { result.now.commit ≡ last_commit self.now.log }
        ensures history { IsHistory self.now.log }
    {
        &self.last
    }

    /// A copy.
    pub fn again(&self) -> Front
        ensures { result ≡ self.now }
    {
        Front {
            last: self.last.again(),
            token: self.token.again(),
        }
    }

    /// The longer of two beginnings of one history, which the other one begins.
    pub fn longer(&self, other: &Front) -> Front
        requires { other.now.book ≡ self.now.book }
        ensures one { (result ≡ self.now) ⊎ (result ≡ other.now) }
        ensures this { IsPrefix self.now.log result.log }
        ensures that { IsPrefix other.now.log result.log }
    {
        let mut both = self.token.again();
        both.learn(&other.token);
        if self.last.commit < other.last.commit {
            other.again()
        } else {
            self.again()
        }
    }

    /// Whether all of the history is this beginning. If it is, the other one is a beginning of this.
    pub fn is_all(&self, word: &Word<Seen, u64, Law>, other: &Front) -> bool
        requires word { word.now ≡ word_of self.now.book }
        requires book { other.now.book ≡ self.now.book }
        ensures { result ≡ true → IsPrefix other.now.log self.now.log }
    {
        let mut token = self.token.again();
        token.learn(&other.token);
        let mut offer: Offer<Seen, u64, Law, Untraded> = token.plain::<Untraded, Seen, Reads>(
            &self.last,
        );
        word.load::<Reads, Untraded>(&mut token, &mut offer) == self.last.commit
    }

    /// The beginning with one value more. Nothing where the history went on without this beginning.
    pub fn grown(&self, word: &Word<Seen, u64, Law>, seen: Seen) -> Option<Front>
        requires word { word.now ≡ word_of self.now.book }
        requires later { last_commit self.now.log < seen.commit }
        ensures { IfSome result (λ f. f ≡ reached self.now.book (self.now.log ++ seen ∷ [])) }
    {
        let mut token = self.token.again();
        let mut offer: Offer<Seen, u64, Law, Untraded> = token.plain::<Untraded, Seen, Adds>(&seen);
        let mut pen = token.no_pen();
        let last = self.last.commit;
        let found = word.compare_exchange::<Adds, Untraded>(
            last,
            seen.commit,
            &mut token,
            &mut offer,
            &mut pen,
        );
        if found != last {
            return None;
        }
        Some(Front { last: seen, token })
    }
}

// Both copies take over the beginning that is published.
impl Absorb<Front> for Front {
    ghost use Rattle.std.specs.Prelude.{◌≡◌};

    type State = Front;

    ghost state = { λ f. f };

    ghost applied = { λ _ f. f };

    ghost never_fails = { Unit {0} };

    fn absorb_first(&mut self, operation: &Front, _other: &Front) -> Result<(), AllocError> {
        *self = operation.again();
        Ok(())
    }
}
