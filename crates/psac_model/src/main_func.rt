ghost use Rattle.std.specs.Prelude.{◌≡◌};
ghost use Rattle.std.specs.Option.{option_copied};
ghost use Rattle.psac_model.specs.Fresh.{main_of, is_named_main};

use psac_syntax::{Func, Program};

const MAIN: &[u8; 4] = b"main";

/// The first function named `main`.
pub fn main_of(program: &Program) -> Option<&Func>
    ensures { option_copied result ≡ main_of program.now }
{
    for func in program.funcs.as_slice() {
        if is_main(program, func) {
            return Some(func);
        }
    }
    None
}

fn is_main(program: &Program, func: &Func) -> bool
    ensures { result ≡ is_named_main program.now func.now }
{
    match program.names.get(usize::from(func.name)) {
        Some(name) => name.bytes() == MAIN.as_slice(),
        None => false,
    }
}
