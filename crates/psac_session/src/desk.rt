// What is staged and what is held, and what a line of a script does.
ghost use Rattle.std.specs.Prelude.{◌≡◌, ◌+◌, ◌≤◌, ◌<◌, Some, IfOk, OnOk, option_map};
ghost use Rattle.psac_inputs.specs.Grid.{has_cell};
ghost use Rattle.psac_inputs.specs.Batch.{empty_batch, put_all, GoesInto};
ghost use Rattle.psac_inputs.specs.Texts.{Texts};
ghost use Rattle.psac_report.specs.Script.{command_of};
ghost use Rattle.psac_report.specs.Script as script;
ghost use Rattle.psac_report.specs.Session.{committed, rows_step, set_step, step_of};
ghost use Rattle.psac_report.specs.Steps.{quits};
ghost use Rattle.psac_script.specs.Commands.{command_view};
ghost use Rattle.psac_script.specs.Replies.{reply_view};
ghost use Rattle.psac_engine.specs.Commit.{most_commits};
ghost use Rattle.psac_engine.specs.Engine.{caps_in, commits_in, grid_in, world_in};
ghost use Rattle.psac_session.specs.Heard.{commits};
ghost use Rattle.psac_session.specs.Replied.{IsReplyTo};

use crate::hold::{Part, held_reply, hold_out, hold_part};
use crate::places::Places;
use crate::show::{shown_reply, sized_reply};
use psac_base::NoMemory;
use psac_engine::{Answer, Engine};
use psac_fork::{Crew, Gate};
use psac_inputs::{Batch, Interner, TextFault};
use psac_model::Work;
use psac_script::{Command, Reply, read_command, reply_text};
use std::alloc::Global;
use std::thread::Threads;

/// What a session holds besides its engine and its texts.
#[derive(Drop)]
pub struct Desk {
    pub batch: Batch,
    pub places: Places,
}

/// What a line came to.
#[derive(Drop)]
pub enum Carried {
    /// The line was carried out. This is the text of its reply, and whether it is a commit.
    Reply { text: Vec<u8>, commits: bool },
    /// The line ends the script.
    Quit,
}

// The reply to a commit.
fn reply_to(answer: Result<Work, Answer>) -> Result<Reply, NoMemory>
    ensures { IfOk result (λ reply. IsReplyTo answer (reply_view reply)) }
{
    match answer {
        Ok(work) => Ok(Reply::Worked(work)),
        Err(Answer::Fault { kind, line }) => Ok(Reply::Faulted(kind, line)),
        Err(Answer::Full { .. }) => Ok(Reply::Full),
        Err(Answer::NoMemory) => Err(NoMemory),
    }
}

// The command ends the script.
fn ends_script(command: &Option<Command<'_>>) -> bool
    ensures { result ≡ quits (option_map command_view command.now) }
{
    match command {
        Some(Command::Quit) => true,
        _ => false,
    }
}

// The command is a commit.
fn is_commit(command: &Option<Command<'_>>) -> bool
    ensures { result ≡ commits (option_map command_view command.now) }
{
    match command {
        Some(Command::Commit) => true,
        _ => false,
    }
}

impl Desk {
    ghost use Rattle.psac_session.specs.Handles.{AreHeld, state_in};
    ghost use Rattle.psac_session.specs.Carried.{IsCarried};
    ghost use Rattle.psac_session.specs.Holding.{none_held};

    /// Nothing is staged, and nothing is held.
    pub fn new(alloc: Global, engine: &Engine) -> Result<Desk, NoMemory>
        ensures empty { IfOk result (λ d. d.batch ≡ empty_batch (grid_in engine.now)) }
        ensures goes { IfOk result (λ d. GoesInto d.batch (grid_in engine.now)) }
        ensures none { IfOk result (λ d. d.places.held ≡ none_held) }
        ensures held { IfOk result (λ d. AreHeld engine.now d.places.held) }
    {
        engine.handles();
        Ok(Desk {
            batch: Batch::new(alloc, engine.grid())?,
            places: Places::new(),
        })
    }

    // Whether the staged grid has a cell in a present row.
    fn has_cell(&self, engine: &Engine, row: u32, col: u32) -> bool
        ensures { result ≡ has_cell row col (put_all self.now.batch (grid_in engine.now)) }
    {
        row < self.batch.staged_rows() && col < engine.grid().cols()
    }

    // Stages the value of a field for a cell.
    fn set(
        &mut self,
        engine: &Engine,
        texts: &mut Interner,
        row: u32,
        col: u32,
        field: &[u8],
    ) -> Result<Reply, NoMemory>
        requires { GoesInto self.old.batch (grid_in engine.now) }
        ensures step { IfOk result (λ reply.
            set_step row col field.now (state_in engine.now self.old texts.old) ≡ (state_in engine.now self.new texts.new, reply_view reply)) }
        ensures goes { OnOk result (GoesInto self.new.batch (grid_in engine.now)) }
        ensures held { self.new.places ≡ self.old.places }
    {
        if !self.has_cell(engine, row, col) {
            return Ok(Reply::RefusedRange);
        }
        match texts.field(field) {
            Ok(value) => match self.batch.set(row, col, value) {
                Ok(()) => Ok(Reply::Nothing),
                Err(_) => Err(NoMemory),
            },
            Err(TextFault::Utf8) => Ok(Reply::RefusedUtf8),
            Err(TextFault::Limit) => Ok(Reply::RefusedLimit),
            Err(TextFault::NoMemory) => Err(NoMemory),
        }
    }

    // Stages a number of rows.
    fn rows(&mut self, engine: &Engine, count: u32) -> Result<Reply, NoMemory>
        requires { GoesInto self.old.batch (grid_in engine.now) }
        ensures step { IfOk result (λ reply. (texts : Texts)
            → rows_step count (state_in engine.now self.old texts) ≡ (state_in engine.now self.new texts, reply_view reply)) }
        ensures goes { OnOk result (GoesInto self.new.batch (grid_in engine.now)) }
        ensures held { self.new.places ≡ self.old.places }
    {
        if count > engine.grid().room() {
            return Ok(Reply::RefusedRange);
        }
        match self.batch.rows(count) {
            Ok(()) => Ok(Reply::Nothing),
            Err(_) => Err(NoMemory),
        }
    }

    // Commits what is staged.
    fn commit<Rt: Threads + Sync, G: Gate + Sync>(
        &mut self,
        rt: &Rt,
        engine: &mut Engine,
        crew: &Crew,
        gate: &G,
    ) -> Result<Reply, NoMemory>
        requires goes { GoesInto self.old.batch (grid_in engine.old) }
        requires few { commits_in engine.old < most_commits }
        requires held { AreHeld engine.old self.old.places.held }
        ensures step { IfOk result (λ reply. (texts : Texts)
            → committed (world_in engine.old) (caps_in engine.old) (state_in engine.old self.old texts) ≡ (state_in engine.new self.new texts, reply_view reply)) }
        ensures goes { GoesInto self.new.batch (grid_in engine.new) }
        ensures held { AreHeld engine.new self.new.places.held }
        ensures commits { commits_in engine.new ≡ commits_in engine.old + 1 }
        ensures world { world_in engine.new ≡ world_in engine.old }
        ensures caps { caps_in engine.new ≡ caps_in engine.old }
    {
        let answer = engine.commit(rt, &mut self.batch, crew, gate);
        engine.handles();
        reply_to(answer)
    }

    // Shows the outputs.
    fn show(&self, engine: &mut Engine) -> Result<Reply, NoMemory>
        requires { AreHeld engine.old self.now.places.held }
        ensures step { IfOk result (λ reply. (texts : Texts)
            → step_of (world_in engine.old) (caps_in engine.old) (state_in engine.old self.now texts) (Some script.Show)
            ≡ (state_in engine.new self.now texts, reply_view reply)) }
        ensures held { AreHeld engine.new self.now.places.held }
        ensures grid { grid_in engine.new ≡ grid_in engine.old }
        ensures commits { commits_in engine.new ≡ commits_in engine.old }
        ensures world { world_in engine.new ≡ world_in engine.old }
        ensures caps { caps_in engine.new ≡ caps_in engine.old }
    {
        let reply = shown_reply(engine);
        engine.handles();
        reply
    }

    // Carries out a command.
    fn carry_out<Rt: Threads + Sync, G: Gate + Sync>(
        &mut self,
        rt: &Rt,
        alloc: Global,
        engine: &mut Engine,
        texts: &mut Interner,
        crew: &Crew,
        command: Command<'_>,
        gate: &G,
    ) -> Result<Reply, NoMemory>
        requires goes { GoesInto self.old.batch (grid_in engine.old) }
        requires few { commits_in engine.old < most_commits }
        requires held { AreHeld engine.old self.old.places.held }
        ensures step { IfOk result (λ reply.
            step_of (world_in engine.old) (caps_in engine.old) (state_in engine.old self.old texts.old) (Some (command_view command.entry))
            ≡ (state_in engine.new self.new texts.new, reply_view reply)) }
        ensures goes { OnOk result (GoesInto self.new.batch (grid_in engine.new)) }
        ensures held { OnOk result (AreHeld engine.new self.new.places.held) }
        ensures commits { commits_in engine.new ≤ commits_in engine.old + 1 }
        ensures world { world_in engine.new ≡ world_in engine.old }
        ensures caps { caps_in engine.new ≡ caps_in engine.old }
    {
        match command {
            Command::Skip => Ok(Reply::Nothing),
            Command::Set { row, col, field } => self.set(engine, texts, row, col, field),
            Command::Rows { count } => self.rows(engine, count),
            Command::Commit => self.commit(rt, engine, crew, gate),
            Command::Show => self.show(engine),
            Command::Tree => Ok(sized_reply(engine)),
            Command::HoldOut { place, out } => {
                Ok(hold_out(engine, &mut self.places, place, out))
            }
            Command::HoldRef { place, source } => {
                Ok(hold_part(engine, &mut self.places, place, source, Part::Referred))
            }
            Command::HoldFst { place, source } => {
                Ok(hold_part(engine, &mut self.places, place, source, Part::First))
            }
            Command::HoldSnd { place, source } => {
                Ok(hold_part(engine, &mut self.places, place, source, Part::Second))
            }
            Command::Held { place } => Ok(held_reply(engine, &self.places, place)),
            Command::Quit => Ok(Reply::Nothing),
        }
    }

    // What is answered to a line that doesn't end the script.
    fn answer<Rt: Threads + Sync, G: Gate + Sync>(
        &mut self,
        rt: &Rt,
        alloc: Global,
        engine: &mut Engine,
        texts: &mut Interner,
        crew: &Crew,
        command: Option<Command<'_>>,
        gate: &G,
    ) -> Result<Reply, NoMemory>
        requires goes { GoesInto self.old.batch (grid_in engine.old) }
        requires few { commits_in engine.old < most_commits }
        requires held { AreHeld engine.old self.old.places.held }
        ensures step { IfOk result (λ reply.
            step_of (world_in engine.old) (caps_in engine.old) (state_in engine.old self.old texts.old) (option_map command_view command.entry)
            ≡ (state_in engine.new self.new texts.new, reply_view reply)) }
        ensures goes { OnOk result (GoesInto self.new.batch (grid_in engine.new)) }
        ensures held { OnOk result (AreHeld engine.new self.new.places.held) }
        ensures commits { commits_in engine.new ≤ commits_in engine.old + 1 }
        ensures world { world_in engine.new ≡ world_in engine.old }
        ensures caps { caps_in engine.new ≡ caps_in engine.old }
    {
        match command {
            Some(command) => self.carry_out(rt, alloc, engine, texts, crew, command, gate),
            None => Ok(Reply::RefusedForm),
        }
    }

    /// Carries out one line.
    pub fn one_line<Rt: Threads + Sync, G: Gate + Sync>(
        &mut self,
        rt: &Rt,
        alloc: Global,
        engine: &mut Engine,
        texts: &mut Interner,
        crew: &Crew,
        line: &[u8],
        gate: &G,
    ) -> Result<Carried, NoMemory>
        requires goes { GoesInto self.old.batch (grid_in engine.old) }
        requires few { commits_in engine.old < most_commits }
        requires held { AreHeld engine.old self.old.places.held }
        ensures carried { IfOk result (IsCarried (world_in engine.old) (command_of line.now)
            (step_of (world_in engine.old) (caps_in engine.old) (state_in engine.old self.old texts.old) (command_of line.now))
            (state_in engine.new self.new texts.new)) }
        ensures goes { OnOk result (GoesInto self.new.batch (grid_in engine.new)) }
        ensures held { OnOk result (AreHeld engine.new self.new.places.held) }
        ensures commits { commits_in engine.new ≤ commits_in engine.old + 1 }
        ensures world { world_in engine.new ≡ world_in engine.old }
        ensures caps { caps_in engine.new ≡ caps_in engine.old }
    {
        let command = read_command(line).ok();
        if ends_script(&command) {
            return Ok(Carried::Quit);
        }
        let commits = is_commit(&command);
        let reply = self.answer(rt, alloc, engine, texts, crew, command, gate)?;
        let text = reply_text(alloc, &reply, engine.program(), texts)?;
        Ok(Carried::Reply { text, commits })
    }
}
