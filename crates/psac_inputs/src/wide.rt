// Records of more fields than may be kept, found without keeping a field.

ghost use Rattle.std.specs.Prelude.{◌≡◌, ◌≤◌, length, IfSome};
ghost use Rattle.csv.specs.Machine.{ends_at_end, step as csv_step};
ghost use Rattle.csv.specs.Reading.{default_config, is_bom, records, strip_bom};
ghost use Rattle.psac_inputs.specs.Wide.{mark_of, state_of, IsWide};

// Where csv's reader stands in a text, as far as its default settings come.
#[derive(Clone, Copy, Debug, PartialEq, Eq)]
enum Place {
    Between,
    FieldStart,
    InField,
    InQuotes,
    BehindQuote,
    BehindReturn,
}

// What a byte ends.
#[derive(Clone, Copy, Debug, PartialEq, Eq)]
enum Mark {
    Nothing,
    Field,
    Record,
}

fn in_field(byte: u8) -> (Place, Mark)
    ensures place { state_of result.0 ≡ (csv_step default_config (state_of Place.InField) byte).0 }
    ensures mark { result.1 ≡ mark_of (csv_step default_config (state_of Place.InField) byte).1 }
{
    if byte == b',' {
        (Place::FieldStart, Mark::Field)
    } else if byte == b'\r' {
        (Place::BehindReturn, Mark::Record)
    } else if byte == b'\n' {
        (Place::Between, Mark::Record)
    } else {
        (Place::InField, Mark::Nothing)
    }
}

fn field_start(byte: u8) -> (Place, Mark)
    ensures place { state_of result.0 ≡ (csv_step default_config (state_of Place.FieldStart) byte).0 }
    ensures mark { result.1 ≡ mark_of (csv_step default_config (state_of Place.FieldStart) byte).1 }
{
    if byte == b'"' {
        (Place::InQuotes, Mark::Nothing)
    } else {
        in_field(byte)
    }
}

fn between(byte: u8) -> (Place, Mark)
    ensures place { state_of result.0 ≡ (csv_step default_config (state_of Place.Between) byte).0 }
    ensures mark { result.1 ≡ mark_of (csv_step default_config (state_of Place.Between) byte).1 }
{
    if byte == b'\r' || byte == b'\n' {
        (Place::Between, Mark::Nothing)
    } else {
        field_start(byte)
    }
}

// The place behind a byte, and what the byte ends.
fn step(place: Place, byte: u8) -> (Place, Mark)
    ensures place { state_of result.0 ≡ (csv_step default_config (state_of place) byte).0 }
    ensures mark { result.1 ≡ mark_of (csv_step default_config (state_of place) byte).1 }
{
    match place {
        Place::Between => between(byte),
        Place::FieldStart => field_start(byte),
        Place::InField => in_field(byte),
        Place::InQuotes if byte == b'"' => (Place::BehindQuote, Mark::Nothing),
        Place::InQuotes => (Place::InQuotes, Mark::Nothing),
        Place::BehindQuote if byte == b'"' => (Place::InQuotes, Mark::Nothing),
        Place::BehindQuote => in_field(byte),
        Place::BehindReturn if byte == b'\n' => (Place::Between, Mark::Nothing),
        Place::BehindReturn => between(byte),
    }
}

// Whether the end of the text ends a record.
fn is_open(place: Place) -> bool
    ensures { result ≡ ends_at_end (state_of place) }
{
    match place {
        Place::Between | Place::BehindReturn => false,
        _ => true,
    }
}

// Whether three bytes are a byte order mark.
fn is_mark(first: u8, second: u8, third: u8) -> bool
    ensures { result ≡ is_bom first second third }
{
    first == 0xef && second == 0xbb && third == 0xbf
}

// The text without a byte order mark, which csv's reader takes off too.
fn without_mark(text: &[u8]) -> &[u8]
    ensures stripped { result.now ≡ strip_bom text.now }
    ensures within { length result.now ≤ length text.now }
{
    let [first, second, third, rest @ ..] = text else {
        return text;
    };
    if is_mark(*first, *second, *third) {
        rest
    } else {
        text
    }
}

/// A record with more fields than `most`, by the number of records before it. It takes no memory, so that a text can
/// be refused for such a record before its fields are kept.
pub(crate) fn wide_record(text: &[u8], most: usize) -> Option<usize>
    ensures { IfSome result (λ n. IsWide most n (records default_config (strip_bom text.now))) }
{
    let mut rest = without_mark(text);
    let mut place = Place::Between;
    let mut at = 0;
    let mut count = 0;
    'bytes: while let [byte, more @ ..] = rest {
        let (next, mark) = step(place, *byte);
        match mark {
            Mark::Nothing => {}
            Mark::Field => count += 1,
            Mark::Record => {
                if count >= most {
                    return Some(at);
                }
                at += 1;
                count = 0;
            }
        }
        place = next;
        rest = more;
    }
    if is_open(place) && count >= most {
        return Some(at);
    }
    None
}
