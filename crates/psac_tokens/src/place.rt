//! Lines and columns, and what separates tokens.

ghost use Rattle.std.specs.Prelude.{◌≡◌, ◌+◌, ◌<◌, ◌≤◌, ◌^◌, length, false};
ghost use Rattle.psac_tokens.specs.Lex as spec;

#[derive(Clone, Copy, Debug, PartialEq, Eq)]
pub struct Place {
    pub line: u32,
    pub column: u32,
}

impl Place {
    /// The place behind a byte that stands here.
    pub fn after(self, b: u8) -> Place
        requires { spec.FitsPlace 1 self }
        ensures { result ≡ spec.after b self }
    {
        if b == b'\n' {
            Place {
                line: self.line + 1,
                column: 1,
            }
        } else {
            Place {
                line: self.line,
                column: self.column + 1,
            }
        }
    }
}

fn is_blank(b: u8) -> bool
    ensures { result ≡ spec.is_blank b }
{
    b == b' ' || b == b'\t' || b == b'\r' || b == b'\n'
}

/// Goes past blanks and comments.
pub fn skip(text: &[u8], place: Place) -> (&[u8], Place)
    requires { spec.FitsPlace (length text.now) place }
    ensures value { (result.0.now ≡ (spec.skip false text.now place).0) × (result.1 ≡ (spec.skip false text.now place).1) }
    ensures fits { spec.FitsPlace (length result.0.now) result.1 }
    ensures within { length result.0.now ≤ length text.now }
{
    let mut rest = text;
    let mut at = place;
    let mut in_comment = false;
    'bytes: while let [b, more @ ..] = rest {
        if in_comment {
            in_comment = *b != b'\n';
        } else if *b == b'#' {
            in_comment = true;
        } else if !is_blank(*b) {
            break;
        }
        at = at.after(*b);
        rest = more;
    }
    (rest, at)
}
