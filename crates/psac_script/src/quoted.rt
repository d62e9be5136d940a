// A text between quotes. After an `Err` a first part of a piece may stand at the end of the text.
ghost use Rattle.std.specs.Prelude.{◌≡◌, ◌++◌, ◌<◌, false, OnOk, codes};
ghost use Rattle.std.specs.Fmt.{digit_glyph};
ghost use Rattle.psac_report.specs.Printed.{escaped, hexadecimal, quoted};

use psac_base::NoMemory;

/// Appends a text between quotes.
pub fn push_quoted(text: &mut Vec<u8>, bytes: &[u8]) -> Result<(), NoMemory>
    ensures { OnOk result (text.new.items ≡ text.old.items ++ quoted bytes.now) }
{
    text.push(b'"')?;
    for byte in bytes {
        push_escaped(text, *byte)?;
    }
    text.push(b'"')?;
    Ok(())
}

fn push_escaped(text: &mut Vec<u8>, byte: u8) -> Result<(), NoMemory>
    ensures { OnOk result (text.new.items ≡ text.old.items ++ escaped byte) }
{
    match byte {
        b'"' => text.extend_from_slice(b"\\\"")?,
        b'\\' => text.extend_from_slice(b"\\\\")?,
        b'\n' => text.extend_from_slice(b"\\n")?,
        0..=31 | 127 => push_hexadecimal(text, byte)?,
        _ => text.push(byte)?,
    }
    Ok(())
}

// A byte as two hexadecimal digits.
fn push_hexadecimal(text: &mut Vec<u8>, byte: u8) -> Result<(), NoMemory>
    ensures { OnOk result (text.new.items ≡ text.old.items ++ (codes "\\x" ++ hexadecimal byte)) }
{
    text.extend_from_slice(b"\\x")?;
    text.push(hexadecimal_digit(byte / 16))?;
    text.push(hexadecimal_digit(byte % 16))?;
    Ok(())
}

fn hexadecimal_digit(value: u8) -> u8
    requires { value < 16 }
    ensures { result ≡ digit_glyph false value }
{
    if value < 10 {
        b'0' + value
    } else {
        b'a' + (value - 10)
    }
}
