// What is shown of the run that is kept.
ghost use Rattle.std.specs.Prelude.{◌≡◌, IfOk, option_map};
ghost use Rattle.psac_model.specs.Outputs.{outputs_from};
ghost use Rattle.psac_report.specs.Session.{outputs_reply, shown_tree};
ghost use Rattle.psac_script.specs.Replies.{reply_view};
ghost use Rattle.psac_engine.specs.Engine.{caps_in, commits_in, grid_in, kept_in, world_in};
ghost use Rattle.psac_engine.specs.Held.{HandlesGo, nothing_dropped};
ghost use Rattle.psac_session.specs.State.{kept_of};

use psac_base::NoMemory;
use psac_engine::Engine;
use psac_script::Reply;

/// The outputs of the run that is kept, or that there is none.
pub fn shown_reply(engine: &mut Engine) -> Result<Reply, NoMemory>
    ensures shown { IfOk result (λ reply. reply_view reply
        ≡ outputs_reply (option_map (λ r. outputs_from r.heap 0 (world_in engine.old).main.dests) (kept_in engine.old))) }
    ensures handles { HandlesGo engine.old engine.new nothing_dropped }
    ensures kept { kept_in engine.new ≡ kept_in engine.old }
    ensures grid { grid_in engine.new ≡ grid_in engine.old }
    ensures commits { commits_in engine.new ≡ commits_in engine.old }
    ensures world { world_in engine.new ≡ world_in engine.old }
    ensures caps { caps_in engine.new ≡ caps_in engine.old }
{
    match engine.shown()? {
        Some(values) => Ok(Reply::Outputs(values)),
        None => Ok(Reply::NoRecord),
    }
}

/// The size of the record that is kept, or that there is none.
pub fn sized_reply(engine: &Engine) -> Reply
    ensures { reply_view result ≡ shown_tree (option_map kept_of (kept_in engine.now)) }
{
    match engine.size() {
        Some(size) => Reply::Sized(size),
        None => Reply::NoRecord,
    }
}
