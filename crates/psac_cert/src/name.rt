// The name of a modifiable, and its text. After an `Err` a first part of a piece may stand at the end of the text.
ghost use Rattle.std.specs.Prelude.{◌≡◌, ◌++◌, OnOk, flat_map};
ghost use Rattle.std.specs.Fmt.{decimal};
ghost use Rattle.psac_report.specs.Dump.{name_text};
ghost use Rattle.psac_cert.specs.Named.{name_view};

use psac_base::NoMemory;
use psac_script::push_number;

/// The name of a modifiable.
#[derive(Clone, Copy)]
pub enum Name<'a> {
    Input { row: u32, col: u32 },
    /// An output of main, by its place.
    Out(u32),
    /// The number of rows.
    Rows,
    /// A modifiable that `new` made, by the turns from the root to it.
    Made(&'a [u8]),
}

fn push_path(text: &mut Vec<u8>, path: &[u8]) -> Result<(), NoMemory>
    ensures { OnOk result (text.new.items ≡ text.old.items ++ flat_map decimal path.now) }
{
    for turn in path {
        push_number(text, u64::from(*turn))?;
    }
    Ok(())
}

/// Appends a name.
pub fn push_name(text: &mut Vec<u8>, name: Name<'_>) -> Result<(), NoMemory>
    ensures { OnOk result (text.new.items ≡ text.old.items ++ name_text (name_view name.entry)) }
{
    match name {
        Name::Input { row, col } => {
            text.extend_from_slice(b"c/")?;
            push_number(text, u64::from(row))?;
            text.push(b'/')?;
            push_number(text, u64::from(col))?;
        }
        Name::Out(place) => {
            text.extend_from_slice(b"o/")?;
            push_number(text, u64::from(place))?;
        }
        Name::Rows => text.push(b'r')?,
        Name::Made(path) => {
            text.extend_from_slice(b"m/")?;
            push_path(text, path)?;
        }
    }
    Ok(())
}
