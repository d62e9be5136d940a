// Names, texts and lists of names. After an `Err` a first part of a piece may stand at the end of the text.
ghost use Rattle.std.specs.Prelude.{◌≡◌, ◌++◌, OnOk, map};
ghost use Rattle.psac_spelling.specs.Canonical.{bytes_at, name_text, names_text, dests_text, behind, escaped, quoted};

use psac_base::NoMemory;
use psac_syntax::Program;

/// Appends the name at a place, and nothing where there is none.
pub fn push_name(text: &mut Vec<u8>, program: &Program, name: u16) -> Result<(), NoMemory>
    ensures { OnOk result (text.new.items ≡ text.old.items ++ name_text program.now name) }
{
    if let Some(word) = program.names.get(name as usize) {
        text.extend_from_slice(word.bytes())?;
    }
    Ok(())
}

/// Appends the names, joined by a comma and a space.
pub fn push_names(text: &mut Vec<u8>, program: &Program, names: &[u16]) -> Result<(), NoMemory>
    ensures { OnOk result (text.new.items ≡ text.old.items ++ names_text program.now names.now) }
{
    let mut before: &[u8] = &[];
    for name in names {
        text.extend_from_slice(before)?;
        push_name(text, program, *name)?;
        before = b", ";
    }
    Ok(())
}

/// Appends the destinations that stand behind a semicolon.
pub fn push_dests(text: &mut Vec<u8>, program: &Program, dests: &[u16]) -> Result<(), NoMemory>
    ensures { OnOk result (text.new.items ≡ text.old.items ++ dests_text program.now dests.now) }
{
    if dests.is_empty() {
        return Ok(());
    }
    text.push(b' ')?;
    push_names(text, program, dests)
}

fn push_escaped(text: &mut Vec<u8>, byte: u8) -> Result<(), NoMemory>
    ensures { OnOk result (text.new.items ≡ text.old.items ++ escaped byte) }
{
    match byte {
        b'"' => text.extend_from_slice(b"\\\"")?,
        b'\\' => text.extend_from_slice(b"\\\\")?,
        b'\n' => text.extend_from_slice(b"\\n")?,
        _ => text.push(byte)?,
    }
    Ok(())
}

fn push_quoted(text: &mut Vec<u8>, bytes: &[u8]) -> Result<(), NoMemory>
    ensures { OnOk result (text.new.items ≡ text.old.items ++ quoted bytes.now) }
{
    text.push(b'"')?;
    for byte in bytes {
        push_escaped(text, *byte)?;
    }
    text.push(b'"')?;
    Ok(())
}

/// Appends the TEXT at a place between quotes, an empty one where there is none.
pub fn push_text(text: &mut Vec<u8>, program: &Program, place: u16) -> Result<(), NoMemory>
    ensures { OnOk result (text.new.items ≡ text.old.items ++ quoted (bytes_at program.now.texts place)) }
{
    match program.texts.get(place as usize) {
        Some(found) => push_quoted(text, found.bytes()),
        None => push_quoted(text, &[]),
    }
}
