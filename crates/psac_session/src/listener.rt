// Who hears of the commits of a session.
ghost use Rattle.std.specs.Prelude.{◌≡◌, [], ◌∷◌, None, Option, IfSome, OnOk, OnErr};
ghost use Rattle.psac_engine.specs.Engine.{caps_in, commits_in, grid_in, kept_in, world_in};
ghost use Rattle.psac_engine.specs.Held.{HandlesGo, nothing_dropped};
ghost use Rattle.psac_session.specs.Heard.{HasRoom, Heard, IsNext, Shows, shown_in};

use psac_base::NoMemory;
use psac_engine::Engine;

/// What hears of each commit of a session, before its reply is written. `Rt` is the handle that it may use.
pub trait Listener<Rt> {
    /// What it heard so far, where that is told. It may stop telling it, and never begins to.
    ghost heard: { Self → Option Shows };

    /// All that it is to hear, where that is told.
    ghost course: { Self → Option Shows };

    /// Hears that there was a commit. The engine shows its outputs, and holds what it held.
    fn hear(&mut self, rt: &Rt, engine: &mut Engine) -> Result<(), NoMemory>
        requires room { HasRoom (heard self.old) }
        requires expected { IfSome (course self.old) (λ told. IsNext told (heard self.old) (shown_in engine.old)) }
        ensures heard { OnOk result (Heard (heard self.old) (heard self.new) (shown_in engine.old ∷ [])) }
        ensures refused { OnErr result (heard self.new ≡ heard self.old) }
        ensures course { course self.new ≡ course self.old }
        ensures handles { HandlesGo engine.old engine.new nothing_dropped }
        ensures kept { kept_in engine.new ≡ kept_in engine.old }
        ensures grid { grid_in engine.new ≡ grid_in engine.old }
        ensures commits { commits_in engine.new ≡ commits_in engine.old }
        ensures world { world_in engine.new ≡ world_in engine.old }
        ensures caps { caps_in engine.new ≡ caps_in engine.old };
}

/// Hears nothing.
#[derive(Drop)]
pub struct Nobody;

impl<Rt> Listener<Rt> for Nobody {
    ghost heard = { λ _. None };

    ghost course = { λ _. None };

    fn hear(&mut self, _rt: &Rt, _engine: &mut Engine) -> Result<(), NoMemory> {
        Ok(())
    }
}
