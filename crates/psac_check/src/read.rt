// The reads of a block.
ghost use Rattle.std.specs.Prelude.{◌≡◌, [], ◌∷◌, ◌≤◌, map, OnOk};
ghost use Rattle.psac_syntax.specs.declared.program.Expr.{out-Expr};
ghost use Rattle.psac_model.specs.Series.{has, first_wrong, from_wrong, new_wrong, items_wrong, with_items};
ghost use Rattle.psac_check.specs.Faults.{told};

use crate::expression::read_from;
use crate::fault::Breach;
use crate::names::Scope;
use psac_syntax::ReadItem;
use std::alloc::AllocError;

/// Whether one of these reads binds the name.
fn binds(items: &[ReadItem], name: u16) -> bool
    ensures { result ≡ has name (map (λ i. i.bound) items.now) }
{
    for item in items {
        if item.bound == name {
            return true;
        }
    }
    false
}

/// One read, beside those before it. It doesn't see the names that they bind, but binds another one.
#[tactic(auto, using(crate::proofs::Bound::bound_there, crate::proofs::Bound::bound_elsewhere, crate::proofs::Firsts::first_one))]
fn read_item(
    scope: &Scope,
    written: &[u16],
    earlier: &[ReadItem],
    item: &ReadItem,
) -> Result<(), Breach>
    ensures { told result ≡ first_wrong (from_wrong scope.now written.now (out-Expr item.now.from) item.now.from ∷ new_wrong (with_items earlier.now scope.now) item.now.bound ∷ []) }
{
    read_from(scope, written, &item.from)?;
    if binds(earlier, item.bound) {
        return Err(Breach::Rebound);
    }
    scope.new_name(item.bound)
}

/// The reads of a block.
pub fn read_items(scope: &Scope, written: &[u16], items: &[ReadItem]) -> Result<(), Breach>
    ensures { told result ≡ items_wrong scope.now written.now scope.now items.now }
{
    for i in 0..items.len() {
        read_item(scope, written, &items[..i], &items[i])?;
    }
    Ok(())
}

/// Binds what the reads of a block bind.
pub fn bind_items(scope: &mut Scope, items: &[ReadItem]) -> Result<(), AllocError>
    ensures { OnOk result (scope.new ≡ with_items items.now scope.old) }
{
    for item in items {
        scope.add_value(item.bound)?;
    }
    Ok(())
}
