// What places are made to hold, and what is told of it.
ghost use Rattle.std.specs.Prelude.{◌≡◌, ◌<◌, length, nat_lt};
ghost use Rattle.psac_ops.specs.Named.{value_of};
ghost use Rattle.psac_inputs.specs.Batch.{Batch};
ghost use Rattle.psac_inputs.specs.Texts.{Texts};
ghost use Rattle.psac_model.specs.Outputs.{shown_of};
ghost use Rattle.psac_report.specs.Session.{held_reply, hold_by, hold_out, place_count, value_at};
ghost use Rattle.psac_script.specs.Replies.{reply_view};
ghost use Rattle.psac_engine.specs.Engine.{caps_in, commits_in, grid_in, kept_in, world_in};
ghost use Rattle.psac_engine.specs.Held.{AreNamed, HandlesGo, names_in, nothing_dropped};
ghost use Rattle.psac_session.specs.Read.{IsRead, handle_of, name_of};
ghost use Rattle.psac_session.specs.Handles.{AreHeld, state_of};

use crate::places::Places;
use psac_engine::{Engine, Held};
use psac_model::{Shown, main_of};
use psac_ops::{Handle, Plain};
use psac_script::Reply;

/// Which modifiable of a value is held.
#[derive(Clone, Copy)]
pub enum Part {
    /// The one that it refers to.
    Referred,
    /// The first one of a pair.
    First,
    /// The second one.
    Second,
}

fn handle_of(part: Part, value: Plain) -> Option<Handle>
    ensures { result ≡ handle_of part value }
{
    match (part, value) {
        (Part::Referred, Plain::Ref(handle)) => Some(handle),
        (Part::First, Plain::Pair(first, _)) => Some(first),
        (Part::Second, Plain::Pair(_, second)) => Some(second),
        _ => None,
    }
}

fn show(value: Plain) -> Shown
    ensures { result ≡ shown_of (value_of value) }
{
    match value {
        Plain::Nil => Shown::Nil,
        Plain::Bool(b) => Shown::Bool(b),
        Plain::Int(i) => Shown::Int(i),
        Plain::Text(t) => Shown::Text(t),
        Plain::Ref(_) => Shown::Ref,
        Plain::Pair(_, _) => Shown::Pair,
    }
}

// The value of what a place holds, or the reply in its place.
fn value_at(engine: &mut Engine, places: &Places, place: u32) -> Result<Plain, Reply>
    requires { place < place_count }
    ensures read { (b : Batch) (texts : Texts)
        → IsRead (names_in engine.old) result (value_at (state_of engine.old b texts places.now.held) place) }
    ensures handles { HandlesGo engine.old engine.new nothing_dropped }
    ensures named { AreNamed engine.new }
    ensures kept { kept_in engine.new ≡ kept_in engine.old }
    ensures grid { grid_in engine.new ≡ grid_in engine.old }
    ensures commits { commits_in engine.new ≡ commits_in engine.old }
    ensures world { world_in engine.new ≡ world_in engine.old }
    ensures caps { caps_in engine.new ≡ caps_in engine.old }
{
    let Some(handle) = places.at(place) else {
        engine.handles();
        return Err(Reply::RefusedEmpty);
    };
    let told = engine.held(handle);
    engine.handles();
    match told {
        Held::Value(value) => Ok(value),
        Held::Stale => Err(Reply::Stale),
        Held::Unwritten => Err(Reply::NoRecord),
    }
}

// Whether main has an output of this number.
fn has_output(engine: &Engine, out: u32) -> bool
    ensures { result ≡ nat_lt out (length (world_in engine.now).main.dests) }
{
    match main_of(engine.program()) {
        Some(main) => (out as usize) < main.dests.as_slice().len(),
        None => false,
    }
}

/// The place holds an output.
pub fn hold_out(engine: &Engine, places: &mut Places, place: u32, out: u32) -> Reply
    requires { AreHeld engine.now places.old.held }
    ensures step { (b : Batch) (texts : Texts)
        → hold_out (world_in engine.now) place out (state_of engine.now b texts places.old.held)
        ≡ (state_of engine.now b texts places.new.held, reply_view result) }
    ensures held { AreHeld engine.now places.new.held }
{
    if !Places::has(place) || !has_output(engine, out) {
        return Reply::RefusedRange;
    }
    places.put(place, engine.out_handle(out));
    Reply::Nothing
}

/// The place holds a modifiable that the value of another one names.
pub fn hold_part(
    engine: &mut Engine,
    places: &mut Places,
    place: u32,
    source: u32,
    part: Part,
) -> Reply
    requires { AreHeld engine.old places.old.held }
    ensures step { (b : Batch) (texts : Texts)
        → hold_by (name_of part) place source (state_of engine.old b texts places.old.held)
        ≡ (state_of engine.new b texts places.new.held, reply_view result) }
    ensures held { AreHeld engine.new places.new.held }
    ensures commits { commits_in engine.new ≡ commits_in engine.old }
    ensures world { world_in engine.new ≡ world_in engine.old }
    ensures caps { caps_in engine.new ≡ caps_in engine.old }
    ensures grid { grid_in engine.new ≡ grid_in engine.old }
{
    if !Places::has(place) || !Places::has(source) {
        return Reply::RefusedRange;
    }
    match value_at(engine, places, source) {
        Ok(value) => match handle_of(part, value) {
            Some(handle) => {
                places.put(place, handle);
                Reply::Nothing
            }
            None => Reply::RefusedKind,
        },
        Err(reply) => reply,
    }
}

/// What a place holds.
pub fn held_reply(engine: &mut Engine, places: &Places, place: u32) -> Reply
    requires { AreHeld engine.old places.now.held }
    ensures told { (b : Batch) (texts : Texts)
        → reply_view result ≡ held_reply place (state_of engine.old b texts places.now.held) }
    ensures same { (b : Batch) (texts : Texts)
        → state_of engine.new b texts places.now.held ≡ state_of engine.old b texts places.now.held }
    ensures held { AreHeld engine.new places.now.held }
    ensures commits { commits_in engine.new ≡ commits_in engine.old }
    ensures world { world_in engine.new ≡ world_in engine.old }
    ensures caps { caps_in engine.new ≡ caps_in engine.old }
    ensures grid { grid_in engine.new ≡ grid_in engine.old }
{
    if !Places::has(place) {
        return Reply::RefusedRange;
    }
    match value_at(engine, places, place) {
        Ok(value) => Reply::Held {
            place,
            value: show(value),
        },
        Err(reply) => reply,
    }
}
