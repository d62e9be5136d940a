// The lines of a record, one after the other.
ghost use Rattle.std.specs.Prelude.{◌≡◌, ◌++◌, ◌<◌, [], true, false, IfOk, OnOk, length};
ghost use Rattle.psac_record.specs.Shown.{kept_of};
ghost use Rattle.psac_cert.specs.declared.dictionary.Dictionary.{Dictionary as With};
ghost use Rattle.psac_cert.specs.Lines.{lines_left, lines_of};

use crate::dictionary::Dictionary;
use psac_base::NoMemory;
use psac_record::{Look, Record};
use std::alloc::Global;

// Appends the line of a record's first part, and leaves what stands in it, what comes first as the last.
fn push_line<'a>(
    with: &Dictionary<'_>,
    tree: &'a Record,
    left: &mut Vec<&'a Record>,
    line: &mut Vec<u8>,
) -> Result<(), NoMemory>
    requires { line.old.items ≡ [] }
    ensures lines { OnOk result (lines_of with.now (kept_of tree.now) ++ lines_left with.now left.old.items ≡ line.new.items ++ lines_left with.now left.new.items) }
    ensures some { OnOk result (0 < length line.new.items) }
{
    match tree.look() {
        Look::End => line.extend_from_slice(b"E\n")?,
        Look::Made(_, rest) => {
            line.extend_from_slice(b"A\n")?;
            left.push(rest)?;
        }
        Look::Wrote(handle, value, rest) => {
            with.push_write(line, handle, value)?;
            left.push(rest)?;
        }
        Look::Step(_, inner, rest) => {
            line.extend_from_slice(b"S\n")?;
            left.push(rest)?;
            left.push(inner)?;
        }
        Look::Both(_, first, second) => {
            line.extend_from_slice(b"P\n")?;
            left.push(second)?;
            left.push(first)?;
        }
        Look::Block(reading, inner) => {
            with.push_block(line, reading)?;
            left.push(inner)?;
        }
    }
    Ok(())
}

/// A whole record is left.
pub fn whole<'a>(alloc: Global, tree: &'a Record) -> Result<Vec<&'a Record>, NoMemory>
    ensures { IfOk result (λ left. (d : With) → lines_left d left.items ≡ lines_of d (kept_of tree.now)) }
{
    let mut left = Vec::new(alloc);
    left.push(tree)?;
    Ok(left)
}

/// The next line of the records that are left, the last of them first; `false` exactly where none is left.
pub fn next_line<'a>(
    with: &Dictionary<'_>,
    left: &mut Vec<&'a Record>,
    line: &mut Vec<u8>,
) -> Result<bool, NoMemory>
    ensures line { IfOk result (λ more. more ≡ true → lines_left with.now left.old.items ≡ line.new.items ++ lines_left with.now left.new.items) }
    ensures some { IfOk result (λ more. more ≡ true → 0 < length line.new.items) }
    ensures end { IfOk result (λ more. more ≡ false → lines_left with.now left.old.items ≡ []) }
{
    line.clear();
    let Some(tree) = left.pop() else {
        return Ok(false);
    };
    push_line(with, tree, left, line)?;
    Ok(true)
}
