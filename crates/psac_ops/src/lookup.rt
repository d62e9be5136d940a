// The look-up of an operator by its name.
ghost use Rattle.std.specs.Prelude.{◌≡◌};
ghost use Rattle.std.specs.List.{position_from};
ghost use Rattle.psac_ops.specs.Rows.{has_name};

use crate::rows::OpRow;

/// The place of the first row of that name. `None` comes exactly where no row has it.
pub fn find(rows: &[OpRow], name: &str) -> Option<usize>
    ensures { result ≡ position_from (has_name name.now) 0 rows.now }
{
    for i in 0..rows.len() {
        if rows[i].name == name {
            return Some(i);
        }
    }
    None
}
