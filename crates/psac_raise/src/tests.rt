ghost use Rattle.std.specs.Prelude.{◌≡◌, ◌<◌, []};
ghost use Rattle.psac_slots.specs.Handles.{Member};
ghost use Rattle.psac_readers.specs.Chained.{mods_of};

use super::*;
use std::test::Fail;

const SET: Handle = Handle {
    slot: 1,
    generation: 1,
};

// Whether the one reader of a modifiable is marked after it is raised.
fn raise_one(
    readers: &Readers,
    marks: &Marks,
    mut sets: ReadersPass,
    mut nodes: MarksPass,
    m: Handle,
) -> Option<bool>
    requires of { (sets.table ≡ readers.now) × (nodes.table ≡ marks.now) }
    requires room { (sets.knows.claims.over ≡ 0) × (nodes.knows.claims.over ≡ 0) }
    requires inside { m.slot < sets.knows.mods }
    requires walk { Member m.slot (mods_of sets.knows.walk) }
    requires empty { (sets.knows.links ≡ []) × (nodes.knows.dropped ≡ []) }
{
    let Ok(node) = marks.claim(&mut nodes, None) else {
        return None;
    };
    let Ok(_link) = readers.enter(&mut sets, m, node) else {
        return None;
    };
    raise_readers(readers, marks, &mut sets, &mut nodes, m);
    Some(marks.is_marked(&mut nodes, node))
}

#[test]
fn a_reader_is_marked(rt: HostRuntime) -> Result<(), Fail> {
    let (readers, sets) = Readers::new(rt.alloc(), 2, 4)?;
    let (marks, nodes) = Marks::new(rt.alloc(), 4)?;
    let marked = raise_one(&readers, &marks, sets, nodes, SET);
    assert!(rt; marked == Some(true));
    Ok(())
}
