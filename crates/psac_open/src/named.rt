// What is opened for the words of a call, by the names of its files.
ghost use Rattle.std.specs.Prelude.{IfOk, IfErr, Some};
ghost use Rattle.psac_command.specs.Asked.{AreCaps};
ghost use Rattle.psac_command.specs.Views.{request_view};
ghost use Rattle.psac_open.specs.Loaded.{HasProgram, LoadFailed, RoseFor};
ghost use Rattle.psac_open.specs.Named.{Began, WasEnded, WasRefused};

use crate::load::load_named;
use crate::opening::{Opened, open};
use crate::program::accept;
use crate::refusal::Refusal;
use crate::status::{NO_MEMORY, Status};
use psac_base::Shelf;
use psac_check::Checked;
use psac_command::Request;
use std::alloc::Global;

/// Why nothing is opened.
#[derive(Drop)]
pub enum Unopened {
    /// The program or the input isn't accepted, as this line says, and this is the status.
    Refused { line: Vec<u8>, code: u8 },
    /// A load failed, or memory ran out.
    Ended(Status),
}

// Loads the input of a program that is run, and opens an engine over both.
fn open_input<F: Shelf>(
    alloc: Global,
    program: Checked,
    request: &Request<'_>,
    shelf: &mut F,
) -> Result<Opened, Unopened>
    requires caps { AreCaps request.now.settings.caps }
    requires program { HasProgram (F.files shelf.old) request.now.program.now program }
    ensures opened { IfOk result (Began (F.files shelf.old) (request_view request.now)) }
    ensures refused { IfErr result (WasRefused (F.files shelf.old) (request_view request.now)) }
    ensures ended { IfErr result (WasEnded (RoseFor request.now.input.now (F.faults shelf.old) (F.faults shelf.new)
        (F.overs shelf.old) (F.overs shelf.new))) }
{
    let bytes = match load_named(shelf, alloc, request.input) {
        Ok(bytes) => bytes,
        Err(status) => return Err(Unopened::Ended(status)),
    };
    match open(alloc, program, request.input, &bytes, &request.settings) {
        Ok(opened) => Ok(opened),
        Err(Refusal::Line(line)) => Err(Unopened::Refused { line, code: 5 }),
        Err(Refusal::NoMemory) => Err(Unopened::Ended(NO_MEMORY)),
    }
}

/// Loads the program and the input that the words name, and opens an engine over both.
pub fn open_named<F: Shelf>(
    alloc: Global,
    request: &Request<'_>,
    shelf: &mut F,
) -> Result<Opened, Unopened>
    requires caps { AreCaps request.now.settings.caps }
    ensures opened { IfOk result (Began (F.files shelf.old) (request_view request.now)) }
    ensures refused { IfErr result (WasRefused (F.files shelf.old) (request_view request.now)) }
    ensures ended { IfErr result (WasEnded (LoadFailed (F.files shelf.old) (Some (request_view request.now))
        (F.faults shelf.old) (F.faults shelf.new) (F.overs shelf.old) (F.overs shelf.new))) }
{
    let bytes = match load_named(shelf, alloc, request.program) {
        Ok(bytes) => bytes,
        Err(status) => return Err(Unopened::Ended(status)),
    };
    match accept(alloc, &bytes) {
        Ok(checked) => open_input(alloc, checked, request, shelf),
        Err(Refusal::Line(line)) => Err(Unopened::Refused { line, code: 4 }),
        Err(Refusal::NoMemory) => Err(Unopened::Ended(NO_MEMORY)),
    }
}
