// Pieces at the end of a text. After an `Err` a first part of a piece may stand there.
ghost use Rattle.std.specs.Prelude.{◌≡◌, ◌++◌, ◌∷◌, OnOk};
ghost use Rattle.std.specs.Fmt.{decimal};

use psac_base::NoMemory;

/// Appends the decimal digits of a number.
pub fn push_number(text: &mut Vec<u8>, value: u64) -> Result<(), NoMemory>
    ensures { OnOk result (text.new.items ≡ text.old.items ++ decimal value) }
{
    let digits = value.to_string(*text.allocator())?;
    text.extend_from_slice(digits.as_bytes())?;
    Ok(())
}

/// Appends a word, an equals sign and a number. After an `Err` a first part of them may stand there.
pub fn push_count(text: &mut Vec<u8>, word: &[u8], value: u64) -> Result<(), NoMemory>
    ensures { OnOk result (text.new.items ≡ text.old.items ++ (word.now ++ 61 ∷ decimal value)) }
{
    text.extend_from_slice(word)?;
    text.push(b'=')?;
    push_number(text, value)
}
