// The numbers of settings.
ghost use Rattle.std.specs.Prelude.{◌≡◌, ◌≤◌, IfSome, option_map};
ghost use Rattle.psac_command.specs.Asked.{IsIn, number_within, setting};
ghost use Rattle.psac_command.specs.Views.{bounds_view};

use psac_script::read_number;

/// Where a setting begins and ends, and what it is where the words don't give it.
#[derive(Clone, Copy, Debug, PartialEq, Eq)]
pub struct Bounds {
    pub least: u32,
    pub most: u32,
    pub default: u32,
}

/// The number that these digits write, where it is within the bounds.
pub fn read_within(bounds: Bounds, digits: &[u8]) -> Option<u32>
    ensures value { result ≡ number_within (bounds_view bounds) digits.now }
    ensures within { IfSome result (IsIn (bounds_view bounds)) }
{
    let number = read_number(digits)?;
    if bounds.least <= number && number <= bounds.most {
        Some(number)
    } else {
        None
    }
}

/// A setting, which the words may give.
pub fn read_setting(bounds: Bounds, word: Option<&str>) -> Option<u32>
    ensures value { result ≡ setting (bounds_view bounds) (option_map (λ s. s.now) word.entry) }
    ensures within { bounds.least ≤ bounds.default → bounds.default ≤ bounds.most → IfSome result (IsIn (bounds_view bounds)) }
{
    match word {
        Some(word) => read_within(bounds, word.as_bytes()),
        None => Some(bounds.default),
    }
}
