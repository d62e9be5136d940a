// From a program to its canonical text.
ghost use Rattle.std.specs.Prelude.{◌≡◌, ◌≤◌, ◌++◌, ℕ, List, length, OnOk, IfOk, map};
ghost use Rattle.psac_grammar.specs.Language.{IsProgram};
ghost use Rattle.psac_spelling.specs.Canonical.{canonical, func_text, name_text, header_text};
ghost use Rattle.psac_spelling.specs.Unlined.{ReadsBack};

use crate::statement::{push_body, push_end};
use crate::words::{push_name, push_names};
use psac_base::NoMemory;
use psac_syntax::{Func, Program};
use std::alloc::Global;

fn push_header(text: &mut Vec<u8>, program: &Program, func: &Func) -> Result<(), NoMemory>
    ensures { OnOk result (text.new.items ≡ text.old.items ++ header_text program.now func.now.name (map (name_text program.now) func.now.values) func.now.dests) }
{
    push_name(text, program, func.name)?;
    text.push(b'(')?;
    push_names(text, program, func.values.as_slice())?;
    push_end(text, program, func.dests.as_slice())
}

fn push_func(text: &mut Vec<u8>, program: &Program, func: &Func) -> Result<(), NoMemory>
    ensures { OnOk result (text.new.items ≡ text.old.items ++ func_text program.now func.now) }
{
    text.extend_from_slice(b"func ")?;
    push_header(text, program, func)?;
    text.push(b' ')?;
    push_body(text, program, func.body.as_slice(), &[])?;
    text.push(b'\n')?;
    Ok(())
}

/// The canonical text of a program.
pub fn print(alloc: Global, program: &Program) -> Result<Vec<u8>, NoMemory>
    ensures text { IfOk result (λ text. text.items ≡ canonical program.now) }
    // What is printed of a program that is parsed is the same program but for its lines, unless it is too long a text.
    ensures again { IfOk result (λ text. (bytes : List ℕ) → IsProgram bytes program.now → length text.items ≤ 65536 → ReadsBack program.now text.items) }
{
    let mut text = Vec::new(alloc);
    for func in program.funcs.as_slice() {
        push_func(&mut text, program, func)?;
    }
    Ok(text)
}
