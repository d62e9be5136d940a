// The rule of what the copies hold, by the history's name.
use crate::SeenName;
use crate::front::Front;
use crossbeam_utils::rule::{Outcome, Protocol};
use std::marker::PhantomData;

/// What is published is a beginning of the history with this name.
pub struct Named<N: SeenName> {
    of: PhantomData<N>,
}

impl<N: SeenName> Protocol<Front, ()> for Named<N> {
    ghost use Rattle.psac_publish.specs.History.{IsOf};

    ghost holds = { λ front views. IsOf N.book N.course front };

    ghost first = { tt };
}

/// What a look or a publication tells.
pub struct Sees<N: SeenName> {
    of: PhantomData<N>,
}

impl<N: SeenName> Outcome<Front, ()> for Sees<N> {
    ghost use Rattle.psac_publish.specs.History.{IsOf};

    ghost then = { λ before from to after. IsOf N.book N.course to };
}
