// A line, part by part.
ghost use Rattle.std.specs.Prelude.{◌≡◌, position};
ghost use Rattle.psac_script.specs.Parts.{is_space};

use crate::number::read_number;
use std::marker::Model;

/// What is left of a line, as its parts between single spaces.
#[derive(Drop)]
pub struct Parts<'a> {
    left: Option<&'a [u8]>,
}

impl<'a> Model for Parts<'a> {
    ghost use Rattle.std.specs.Prelude.{List, ℕ};
    ghost use Rattle.std.specs.Option.{option_copied};
    ghost use Rattle.psac_script.specs.Parts.{parts_left};

    ghost Value = { List (List ℕ) };

    ghost view = { λ p. parts_left (option_copied p.left) };
}

impl<'a> Parts<'a> {
    ghost use Rattle.std.specs.Prelude.{◌≡◌, [], ◌∷◌, drop, MatchOption, OnSome};
    ghost use Rattle.std.specs.Option.{option_copied};
    ghost use Rattle.psac_script.specs.Parts.{parts_of, first_number, joined};

    /// The parts of a whole line.
    pub fn of(line: &'a [u8]) -> Parts<'a>
        ensures { result ≡ parts_of line.now }
    {
        Parts { left: Some(line) }
    }

    /// Takes the first part.
    pub fn next(&mut self) -> Option<&'a [u8]>
        ensures { MatchOption result (self.old ≡ []) (λ part. self.old ≡ part.now ∷ self.new) }
    {
        let left = self.left?;
        match first_space(left) {
            Some(end) => {
                self.left = Some(&left[end + 1..]);
                Some(&left[..end])
            }
            None => {
                self.left = None;
                Some(left)
            }
        }
    }

    /// Takes the first part, which has to be a number.
    pub fn number(&mut self) -> Option<u32>
        ensures value { result ≡ first_number self.old }
        ensures rest { OnSome result (self.new ≡ drop 1 self.old) }
    {
        read_number(self.next()?)
    }

    /// All that is left, spaces and all.
    pub fn rest(self) -> Option<&'a [u8]>
        ensures { option_copied result ≡ joined self.entry }
    {
        self.left
    }
}

// Where the first space stands.
fn first_space(text: &[u8]) -> Option<usize>
    ensures { result ≡ position is_space text.now }
{
    text.iter().position(|byte| *byte == b' ')
}
