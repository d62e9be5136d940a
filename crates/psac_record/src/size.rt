// How much a record has.
ghost use Rattle.std.specs.Prelude.{◌≡◌};
ghost use Rattle.psac_model.specs.Tree.{add_size, one_r};
ghost use Rattle.psac_model.specs.Plain.{capped};
ghost use Rattle.psac_record.specs.Kept.{counts};
ghost use Rattle.psac_record.specs.Shown.{kept_of};

use crate::look::Look;
use crate::record::Record;
use psac_model::Size;

const NONE: Size = Size {
    s: 0,
    p: 0,
    r: 0,
    mods: 0,
    links: 0,
};

const ONE_S: Size = Size { s: 1, ..NONE };

const ONE_P: Size = Size { p: 1, ..NONE };

const ONE_MOD: Size = Size { mods: 1, ..NONE };

/// A read block with so many reads.
fn one_block(links: usize) -> Size
    ensures { result ≡ one_r links }
{
    Size {
        r: 1,
        links: links as u64,
        ..NONE
    }
}

/// A count that would pass the greatest number stays there.
fn grow(size: &mut Size, by: Size)
    ensures { size.new ≡ capped (add_size size.old by) }
{
    size.s = size.s.saturating_add(by.s);
    size.p = size.p.saturating_add(by.p);
    size.r = size.r.saturating_add(by.r);
    size.mods = size.mods.saturating_add(by.mods);
    size.links = size.links.saturating_add(by.links);
}

/// Each count is a number of 64 bits.
fn counted(size: &Size)
    ensures { capped size.now ≡ size.now }
{
    let _s = size.s;
    let _p = size.p;
    let _r = size.r;
    let _mods = size.mods;
    let _links = size.links;
}

fn count(tree: &Record, size: &mut Size)
    ensures { capped size.new ≡ capped (add_size size.old (counts (kept_of tree.now))) }
{
    match tree.look() {
        Look::End => {}
        Look::Made(_, rest) => {
            grow(size, ONE_MOD);
            count(rest, size);
        }
        Look::Wrote(_, _, rest) => count(rest, size),
        Look::Step(_, inner, rest) => {
            grow(size, ONE_S);
            count(inner, size);
            count(rest, size);
        }
        Look::Both(_, left, right) => {
            grow(size, ONE_P);
            count(left, size);
            count(right, size);
        }
        Look::Block(reading, inner) => {
            grow(size, one_block(reading.reads.len()));
            count(inner, size);
        }
    }
}

impl Record {
    /// How many nodes of each kind, made modifiables and reads the record has; each count at most the greatest number of
    /// 64 bits.
    pub fn size(&self) -> Size
        ensures { result ≡ capped (counts (kept_of self.now)) }
    {
        let mut size = NONE;
        count(self, &mut size);
        counted(&size);
        size
    }
}
