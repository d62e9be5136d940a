// The numbers of a script.
ghost use Rattle.std.specs.Prelude.{◌≡◌};
ghost use Rattle.std.specs.Char.{is_ascii_digit};
ghost use Rattle.std.specs.List.{list_all};
ghost use Rattle.psac_report.specs.Script.{is_number, number};

const MOST_DIGITS: usize = 9;

/// The number that one to nine decimal digits write.
pub fn read_number(digits: &[u8]) -> Option<u32>
    ensures { result ≡ number digits.now }
{
    if !is_number(digits) {
        return None;
    }
    let mut value = 0;
    for digit in digits {
        value = value * 10 + u32::from(*digit - b'0');
    }
    Some(value)
}

fn is_number(digits: &[u8]) -> bool
    ensures { result ≡ is_number digits.now }
{
    if digits.is_empty() || digits.len() > MOST_DIGITS {
        return false;
    }
    are_digits(digits)
}

fn are_digits(bytes: &[u8]) -> bool
    ensures { result ≡ list_all is_ascii_digit bytes.now }
{
    bytes.iter().all(|byte| byte.is_ascii_digit())
}
