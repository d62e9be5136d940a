//! What a write does for the readers of a destination that the run didn't make.
ghost use Rattle.std.specs.Prelude.{◌≡◌, ℕ, true, false, List, Some};
ghost use Rattle.psac_ops.specs.declared.plain.Plain.{Plain};
ghost use Rattle.psac_ops.specs.Words.{of_words, words_of};
ghost use Rattle.psac_slots.specs.Handles.{Member};
ghost use Rattle.psac_fork.specs.Whole.{IsOf};
ghost use Rattle.psac_trace.specs.Raising.{Raisable, Roused};

use psac_fork::{Pass, Tables};
use psac_ops::Handle;
use psac_raise::raise_readers;

/// Whether a destination is one of these.
fn is_among(olds: &[Handle], m: Handle) -> bool
    ensures yes { result ≡ true → Member m olds.now }
    ensures no { result ≡ false → Member m olds.now → ⊥ }
{
    for old in olds {
        if old.slot == m.slot && old.generation == m.generation {
            return true;
        }
    }
    false
}

/// Whether words are the same; others hold another value.
fn is_same(a: [u64; 3], b: [u64; 3]) -> bool
    ensures yes { result ≡ true → a ≡ b }
    ensures no { result ≡ false → a ≡ b → ⊥ }
    ensures other { result ≡ false → (x : Plain) → b ≡ words_of x → of_words a ≡ Some x → ⊥ }
{
    a[0] == b[0] && a[1] == b[1] && a[2] == b[2]
}

/// Marks all who read an old destination that is to get other words.
pub fn warned(tables: &Tables, olds: &[Handle], m: Handle, words: [u64; 3], mut pass: Pass) -> Pass
    requires of { IsOf pass tables.now }
    requires may { Member m olds.now → Raisable pass m }
    ensures { Roused tables.now olds.now m words pass result }
{
    if !is_among(olds, m) {
        return pass;
    }
    let before = tables.values.read(&mut pass.values, m);
    if is_same(before, words) {
        return pass;
    }
    let Pass {
        values,
        mut readers,
        mut marks,
        depth,
    } = pass;
    raise_readers(&tables.readers, &tables.marks, &mut readers, &mut marks, m);
    Pass {
        values,
        readers,
        marks,
        depth,
    }
}
