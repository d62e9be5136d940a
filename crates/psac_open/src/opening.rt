// What a program and an input open.
ghost use Rattle.std.specs.Prelude.{IfOk, IfErr};
ghost use Rattle.psac_command.specs.Asked.{AreCaps};
ghost use Rattle.psac_open.specs.Accept.{MeansLine};
ghost use Rattle.psac_open.specs.Opens.{RefusesBeside};
ghost use Rattle.psac_open.specs.Views.{Holds};

use crate::input::take_input;
use crate::refusal::Refusal;
use crate::texts::enter_texts;
use psac_check::Checked;
use psac_command::Settings;
use psac_engine::Engine;
use psac_inputs::Interner;
use std::alloc::Global;

/// An engine in which nothing has run, and the texts of its program and of its grid.
#[derive(Drop)]
pub struct Opened {
    pub engine: Engine,
    pub texts: Interner,
}

/// Opens an engine on a program and an input of this name and these bytes, where the input is taken. Else the line of
/// its first faulty record.
pub fn open(
    alloc: Global,
    program: Checked,
    name: &str,
    bytes: &[u8],
    settings: &Settings,
) -> Result<Opened, Refusal>
    requires caps { AreCaps settings.now.caps }
    ensures opened { IfOk result (Holds program name.now bytes.now settings.now.rows settings.now.caps) }
    ensures refused { IfErr result (MeansLine (RefusesBeside program name.now bytes.now)) }
{
    let mut texts = Interner::new(alloc)?;
    let consts = enter_texts(alloc, program.program().texts.as_slice(), &mut texts)?;
    let grid = take_input(alloc, name, bytes, settings.rows, &mut texts)?;
    let engine = Engine::open(alloc, program, consts, grid, settings.caps)?;
    Ok(Opened { engine, texts })
}
