// From bytes to a program.
ghost use Rattle.std.specs.Prelude.{◌≡◌, ◌⊎◌, ℕ, Ok, Err, IfOk};
ghost use Rattle.psac_syntax.specs.declared.program.Program.{Program as ProgramValue};
ghost use Rattle.psac_grammar.specs.Language.{IsProgram, SyntaxAt, LimitAt};

use crate::fault::{Halt, ParseFault};
use crate::function::whole;
use psac_syntax::Program;
use psac_tokens::{Lexed, lex};
use std::alloc::Global;

const MAX_BYTES: usize = 65_536;

/// The program that the bytes are.
pub fn parse(alloc: Global, bytes: &[u8]) -> Result<Program, ParseFault>
    // What is accepted is a program.
    ensures text { IfOk result (λ p. IsProgram bytes.now p) }
    // Each program is accepted, unless memory runs out.
    ensures only { (p : ProgramValue) → IsProgram bytes.now p → (result ≡ Ok p) ⊎ (result ≡ Err ParseFault.NoMemory) }
    // No text of the grammar begins with the tokens up to the place.
    ensures syntax { (line column : ℕ) → result ≡ Err (ParseFault.Syntax line column) → SyntaxAt bytes.now line column }
    // The token at the place exceeds the limit, first of all.
    ensures limit { (which line : ℕ) → result ≡ Err (ParseFault.Limit which line) → LimitAt bytes.now which line }
{
    if bytes.len() > MAX_BYTES {
        return Err(ParseFault::Limit { which: 1, line: 1 });
    }
    let Lexed {
        tokens,
        names,
        texts,
        reads,
    } = lex(alloc, bytes)?;
    match whole(alloc, &tokens) {
        Ok(funcs) => Ok(Program {
            names,
            texts,
            funcs,
            blocks: reads,
        }),
        Err(Halt::Syntax { line, column }) => Err(ParseFault::Syntax { line, column }),
        Err(Halt::Limit { which, line }) => Err(ParseFault::Limit { which, line }),
        Err(Halt::NoMemory) => Err(ParseFault::NoMemory),
    }
}
