// Decimal numbers.
ghost use Rattle.std.specs.Prelude.{◌≡◌, ◌++◌, ◌≤◌, ◌^◌, Some, OnOk, OnErr, IfSome, drop, length};
ghost use Rattle.std.specs.Fmt.{signed_decimal};
ghost use Rattle.psac_base.specs.Number.{int_of, magnitude_of};

use crate::NoMemory;

const MOST: u128 = 1 << 63;

// The number that plain digits write.
fn magnitude(digits: &[u8]) -> Option<u64>
    ensures value { result ≡ magnitude_of digits.now }
    ensures bound { IfSome result (λ n. n ≤ 2 ^ 63) }
{
    if digits.is_empty() || (digits[0] == b'0' && digits.len() > 1) {
        return None;
    }
    let mut value: u64 = 0;
    for c in digits {
        if !c.is_ascii_digit() {
            return None;
        }
        let next = u128::from(value) * 10 + u128::from(*c - b'0');
        if next > MOST {
            return None;
        }
        value = next as u64;
    }
    Some(value)
}

// The number that a sign and digits write.
fn signed(bytes: &[u8]) -> Option<i64>
    ensures { result ≡ int_of bytes.now }
{
    if bytes.is_empty() {
        return None;
    }
    if bytes[0] == b'-' {
        let value = magnitude(&bytes[1..])?;
        if value == 0 {
            None
        } else {
            // The least number has no opposite.
            Some(-1 - (value - 1) as i64)
        }
    } else {
        let value = magnitude(bytes)?;
        i64::try_from(value).ok()
    }
}

/// The number that the bytes write: `0`, or digits that don't begin with `0`, with a `-` before them or none,
/// from -2^63 to 2^63 - 1. `None` comes for all other bytes, such as `007`, `-0`, `+5`, ` 5` and no bytes.
pub fn read_int(bytes: &[u8]) -> Option<i64>
    ensures value { result ≡ int_of bytes.now }
    // The bytes are the text that is printed for the number: no other text of it is read.
    ensures printed { IfSome result (λ z. bytes.now ≡ signed_decimal z) }
{
    signed(bytes)
}

/// Appends the decimal text of a number: a minus where it is negative, and digits without a needless zero.
pub fn push_int(text: &mut Vec<u8>, value: i64) -> Result<(), NoMemory>
    ensures ok { OnOk result (text.new.items ≡ text.old.items ++ signed_decimal value) }
    // What was appended reads back as the number.
    ensures back { OnOk result (int_of (drop (length text.old.items) text.new.items) ≡ Some value) }
    ensures err { OnErr result (text.new.items ≡ text.old.items) }
{
    let digits = value.to_string(*text.allocator())?;
    text.extend_from_slice(digits.as_bytes())?;
    Ok(())
}
