// Who is shown the outputs.
ghost use Rattle.std.specs.Prelude.{None, Option, List};
ghost use Rattle.psac_publish.specs.declared.seen.Seen.{Seen as SeenValue};
ghost use Rattle.psac_watch.specs.Showed.{Saw};

use psac_publish::Seen;

/// What is shown the outputs after commits.
pub trait Eye: Send {
    /// What it was shown so far, where it tells that. It may stop telling it, and never begins to.
    ghost shown: { Self → Option (List SeenValue) };

    fn saw(&mut self, seen: &Seen)
        ensures { Saw (shown self.old) (shown self.new) seen.now };
}

/// Does nothing with what it is shown.
#[derive(Drop)]
pub struct NoEye;

impl Eye for NoEye {
    ghost shown = { λ _. None };

    fn saw(&mut self, _seen: &Seen) {}
}
