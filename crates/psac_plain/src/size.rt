// How much a run makes.
ghost use Rattle.std.specs.Prelude.{◌≡◌};
ghost use Rattle.psac_model.specs.Tree.{add_size, one_s, one_p, one_r, one_mod};
ghost use Rattle.psac_model.specs.Plain.{capped};

use psac_model::Size;

pub const NONE: Size = Size {
    s: 0,
    p: 0,
    r: 0,
    mods: 0,
    links: 0,
};

pub const ONE_S: Size = Size { s: 1, ..NONE };

pub const ONE_P: Size = Size { p: 1, ..NONE };

pub const ONE_MOD: Size = Size { mods: 1, ..NONE };

/// A read block with so many reads.
pub fn one_block(links: usize) -> Size
    ensures { result ≡ one_r links }
{
    Size {
        r: 1,
        links: links as u64,
        ..NONE
    }
}

/// A count that would pass the greatest number stays there.
pub fn grow(size: &mut Size, by: Size)
    ensures { size.new ≡ capped (add_size size.old by) }
{
    size.s = size.s.saturating_add(by.s);
    size.p = size.p.saturating_add(by.p);
    size.r = size.r.saturating_add(by.r);
    size.mods = size.mods.saturating_add(by.mods);
    size.links = size.links.saturating_add(by.links);
}

/// Each count is a number of 64 bits.
pub fn counted(size: &Size)
    ensures { capped size.now ≡ size.now }
{
    let _s = size.s;
    let _p = size.p;
    let _r = size.r;
    let _mods = size.mods;
    let _links = size.links;
}
