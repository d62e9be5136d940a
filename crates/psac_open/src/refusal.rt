// Why there is nothing to run.
ghost use Rattle.std.specs.Prelude.{◌≡◌, MatchResult};

use psac_base::NoMemory;

/// What keeps a program from being run.
#[derive(Drop)]
pub enum Refusal {
    /// The program or the input isn't accepted, as this line says.
    Line(Vec<u8>),
    NoMemory,
}

/// The refusal with a line, unless there was no memory for it.
pub fn refused(line: Result<Vec<u8>, NoMemory>) -> Refusal
    ensures { MatchResult line (λ text. result ≡ Refusal.Line text) (λ _. result ≡ Refusal.NoMemory) }
{
    match line {
        Ok(text) => Refusal::Line(text),
        Err(NoMemory) => Refusal::NoMemory,
    }
}

impl From<NoMemory> for Refusal {
    ghost use Rattle.psac_open.specs.declared.refusal.Refusal.TheVariants as refusal;

    ghost from_gives = { λ _ e. e ≡ refusal.NoMemory };

    fn from(_: NoMemory) -> Refusal {
        Refusal::NoMemory
    }
}
