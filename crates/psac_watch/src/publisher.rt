// The listener that publishes what it hears.
ghost use Rattle.std.specs.Prelude.{◌≡◌, IfOk};
ghost use Rattle.psac_engine.specs.Engine.{caps_in, commits_in, grid_in, kept_in, world_in};
ghost use Rattle.psac_engine.specs.Held.{HandlesGo, nothing_dropped};
ghost use Rattle.psac_session.specs.Heard.{shown_in};
ghost use Rattle.psac_watch.specs.Published.{IsCounted, heard_in};

use psac_base::NoMemory;
use psac_engine::Engine;
use psac_publish::{Outputs, Published, Seen, SeenName};
use psac_session::Listener;
use std::sync::Wait;

/// Publishes the outputs after each commit of which it hears.
pub struct Publisher<N: SeenName> {
    pub published: Published<N>,
    ghost counted: { IsCounted published },
}

// The outputs of an engine. There are never more than a program may have; for more there would be no memory.
fn outputs_now(engine: &mut Engine) -> Result<Option<Outputs>, NoMemory>
    ensures shown { IfOk result (λ outputs. outputs ≡ shown_in engine.old) }
    ensures handles { HandlesGo engine.old engine.new nothing_dropped }
    ensures kept { kept_in engine.new ≡ kept_in engine.old }
    ensures grid { grid_in engine.new ≡ grid_in engine.old }
    ensures commits { commits_in engine.new ≡ commits_in engine.old }
    ensures world { world_in engine.new ≡ world_in engine.old }
    ensures caps { caps_in engine.new ≡ caps_in engine.old }
{
    let Some(values) = engine.shown()? else {
        return Ok(None);
    };
    match Outputs::of(&values) {
        Some(outputs) => Ok(Some(outputs)),
        None => Err(NoMemory),
    }
}

impl<Rt: Wait, N: SeenName> Listener<Rt> for Publisher<N> {
    ghost heard = { λ p. heard_in p.published };

    ghost course = { λ _. N.course };

    fn hear(&mut self, rt: &Rt, engine: &mut Engine) -> Result<(), NoMemory> {
        let outputs = outputs_now(engine)?;
        let commit = self.published.last() + 1;
        self.published.publish_here(rt, Seen { commit, outputs })
    }
}
