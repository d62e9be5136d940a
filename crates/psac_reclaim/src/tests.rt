ghost use Rattle.std.specs.Prelude.{◌≡◌, ◌+◌, IfOk, IfSome};
ghost use Rattle.psac_slots.specs.Claiming.{IsSole};
ghost use Rattle.psac_fork.specs.Whole.{IsOf};
ghost use Rattle.psac_marks.specs.Steps as marks;
ghost use Rattle.psac_record.specs.Kept.{E};
ghost use Rattle.psac_record.specs.Shown.{kept_of};
ghost use Rattle.psac_readers.specs.Steps as readers;
ghost use Rattle.psac_values.specs.Steps as values;

use super::*;
use psac_model::Caps;
use psac_ops::Handle;
use std::alloc::{AllocError, Global};
use std::test::Fail;

// Makes one modifiable, and gives it back as a subtree that was dropped, or with all that was made.
fn make_and_drop(
    alloc: Global,
    tree: &Record,
    tables: &Tables,
    pass: Pass,
    caps: Caps,
    all: bool,
) -> Result<Option<(Handle, Pass)>, AllocError>
    requires tree { kept_of tree.now ≡ E }
    requires of { IsOf pass tables.now }
    requires values { pass.values.knows ≡ values.first_view 1 caps.mods }
    requires readers { pass.readers.knows ≡ readers.first_view caps.links (1 + caps.mods) }
    requires marks { pass.marks.knows ≡ marks.first_view caps.nodes }
    ensures of { IfOk result (λ r. IfSome r (λ q. IsOf q.1 tables.now × IsSole q.1.values.knows.claims)) }
{
    let Pass {
        mut values,
        readers,
        marks,
        depth,
    } = pass;
    let Ok(m) = tables.values.claim(&mut values) else {
        return Ok(None);
    };
    if m.generation == u32::MAX {
        return Ok(None);
    }
    let pass = Pass {
        values,
        readers,
        marks,
        depth,
    };
    let mut dropped = Dropped::new();
    dropped.add(Record::made(alloc, m, Record::empty())?);
    if all {
        return Ok(Some((m, reset(Record::empty(), dropped, tables, pass))));
    }
    Ok(Some((m, reclaim(tree, dropped, tables, pass))))
}

#[test]
fn what_was_dropped_has_the_next_generation(rt: HostRuntime) -> Result<(), Fail> {
    for all in [false, true] {
        let tree = Record::empty();
        let caps = Caps {
            nodes: 4,
            mods: 1,
            links: 4,
        };
        let (tables, pass) = Tables::new(rt.alloc(), 1, caps)?;
        let made = make_and_drop(rt.alloc(), &tree, &tables, pass, caps, all)?;
        let (m, mut pass) = made.expect(&rt, "a slot");
        assert!(rt; m.slot == 1 && m.generation == 1);
        let live = tables.values.is_live(&mut pass.values, m);
        assert!(rt; !live);
    }
    Ok(())
}
