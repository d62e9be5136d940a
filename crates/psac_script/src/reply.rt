// What is answered to a line of a script, and its text.
ghost use Rattle.std.specs.Prelude.{◌≡◌, ◌++◌, IfOk, OnOk};
ghost use Rattle.psac_report.specs.Printed.{text_bytes, value_text, output_line, output_lines, held_line};
ghost use Rattle.psac_script.specs.Replies.{name_bytes, names_of, main_names, IsTextOfOutputs, IsTextOfReply};

use crate::counts::{fault_line, size_line, work_line};
use crate::quoted::push_quoted;
use crate::text::push_number;
use psac_base::{NoMemory, push_int};
use psac_inputs::Interner;
use psac_model::{FaultKind, Shown, Size, Work, main_of};
use psac_ops::TextId;
use psac_syntax::Program;
use std::alloc::Global;

/// What is answered to a line of a script.
#[derive(Drop)]
pub enum Reply {
    /// Nothing is printed.
    Nothing,
    /// A commit ended well, and did this.
    Worked(Work),
    /// A commit's run stopped, at this line.
    Faulted(FaultKind, u32),
    /// A commit's run made more than a cap allows.
    Full,
    /// What is shown of main's outputs, in its order.
    Outputs(Vec<Shown>),
    /// No record is kept.
    NoRecord,
    /// The size of the record.
    Sized(Size),
    /// What a place holds.
    Held { place: u32, value: Shown },
    /// What a place holds was dropped.
    Stale,
    /// The line is no command.
    RefusedForm,
    /// A number is past its range.
    RefusedRange,
    /// A field is no text.
    RefusedUtf8,
    /// A text is past the limits of texts.
    RefusedLimit,
    /// A place holds nothing.
    RefusedEmpty,
    /// A value isn't of the kind that is asked for.
    RefusedKind,
}

// The bytes of a text, and none where the list doesn't have it.
fn bytes_of(texts: &Interner, id: TextId) -> &[u8]
    ensures { result.now ≡ text_bytes texts.now id.id }
{
    if (id.id as usize) < texts.len() {
        texts.text(id)
    } else {
        &[]
    }
}

/// Appends a value as it is shown. A text that the list doesn't have is printed as an empty one. After an `Err` a first part of it
/// may stand there.
pub fn push_value(text: &mut Vec<u8>, texts: &Interner, value: Shown) -> Result<(), NoMemory>
    ensures { OnOk result (text.new.items ≡ text.old.items ++ value_text texts.now value) }
{
    match value {
        Shown::Nil => text.extend_from_slice(b"nil")?,
        Shown::Bool(true) => text.extend_from_slice(b"true")?,
        Shown::Bool(false) => text.extend_from_slice(b"false")?,
        Shown::Int(number) => push_int(text, number)?,
        Shown::Text(id) => push_quoted(text, bytes_of(texts, id))?,
        Shown::Ref => text.extend_from_slice(b"ref")?,
        Shown::Pair => text.extend_from_slice(b"pair")?,
    }
    Ok(())
}

fn push_output(
    text: &mut Vec<u8>,
    texts: &Interner,
    name: &[u8],
    value: Shown,
) -> Result<(), NoMemory>
    ensures { OnOk result (text.new.items ≡ text.old.items ++ output_line texts.now name.now value) }
{
    text.extend_from_slice(name)?;
    text.extend_from_slice(b" = ")?;
    push_value(text, texts, value)?;
    text.push(b'\n')?;
    Ok(())
}

/// The bytes of the name at a place, and none where the program doesn't have it.
pub fn name_of(program: &Program, name: u16) -> &[u8]
    ensures { result.now ≡ name_bytes program.now name }
{
    match program.names.get(usize::from(name)) {
        Some(word) => word.bytes(),
        None => &[],
    }
}

fn push_outputs(
    text: &mut Vec<u8>,
    program: &Program,
    texts: &Interner,
    dests: &[u16],
    values: &[Shown],
) -> Result<(), NoMemory>
    ensures { OnOk result (text.new.items ≡ text.old.items ++ output_lines texts.now (names_of program.now dests.now) values.now) }
{
    let [dest, dests @ ..] = dests else {
        return Ok(());
    };
    let [value, values @ ..] = values else {
        return Ok(());
    };
    push_output(text, texts, name_of(program, *dest), *value)?;
    push_outputs(text, program, texts, dests, values)
}

fn named_outputs(
    alloc: Global,
    program: &Program,
    texts: &Interner,
    values: &[Shown],
) -> Result<Vec<u8>, NoMemory>
    ensures { IfOk result (λ text. text.items ≡ output_lines texts.now (main_names program.now) values.now) }
{
    let mut text = Vec::new(alloc);
    if let Some(main) = main_of(program) {
        push_outputs(&mut text, program, texts, main.dests.as_slice(), values)?;
    }
    Ok(text)
}

fn outputs_text(
    alloc: Global,
    program: &Program,
    texts: &Interner,
    values: &[Shown],
) -> Result<Vec<u8>, NoMemory>
    ensures { IfOk result (λ text. IsTextOfOutputs program.now texts.now values.now text.items) }
{
    let text = named_outputs(alloc, program, texts, values)?;
    Ok(text)
}

fn held_text(alloc: Global, texts: &Interner, place: u32, value: Shown) -> Result<Vec<u8>, NoMemory>
    ensures { IfOk result (λ text. text.items ≡ held_line texts.now place value) }
{
    let mut text = Vec::new(alloc);
    let mut name = Vec::new(alloc);
    name.extend_from_slice(b"held ")?;
    push_number(&mut name, u64::from(place))?;
    push_output(&mut text, texts, &name, value)?;
    Ok(text)
}

fn fixed(alloc: Global, bytes: &[u8]) -> Result<Vec<u8>, NoMemory>
    ensures { IfOk result (λ text. text.items ≡ bytes.now) }
{
    Ok(Vec::from_slice(alloc, bytes)?)
}

/// The bytes that are printed for a reply; none for `Nothing`. The names of outputs are those of the program's
/// main, and a text that the list doesn't have is printed as an empty one.
pub fn reply_text(
    alloc: Global,
    reply: &Reply,
    program: &Program,
    texts: &Interner,
) -> Result<Vec<u8>, NoMemory>
    ensures { IfOk result (λ text. IsTextOfReply program.now texts.now reply.now text.items) }
{
    match reply {
        Reply::Nothing => Ok(Vec::new(alloc)),
        Reply::Worked(work) => work_line(alloc, work),
        Reply::Faulted(kind, line) => fault_line(alloc, *kind, *line),
        Reply::Full => fixed(alloc, b"full\n"),
        Reply::Outputs(values) => outputs_text(alloc, program, texts, values),
        Reply::NoRecord => fixed(alloc, b"none\n"),
        Reply::Sized(size) => size_line(alloc, size),
        Reply::Held { place, value } => held_text(alloc, texts, *place, *value),
        Reply::Stale => fixed(alloc, b"stale\n"),
        Reply::RefusedForm => fixed(alloc, b"refused form\n"),
        Reply::RefusedRange => fixed(alloc, b"refused range\n"),
        Reply::RefusedUtf8 => fixed(alloc, b"refused utf8\n"),
        Reply::RefusedLimit => fixed(alloc, b"refused limit\n"),
        Reply::RefusedEmpty => fixed(alloc, b"refused empty\n"),
        Reply::RefusedKind => fixed(alloc, b"refused kind\n"),
    }
}
