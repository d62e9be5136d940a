// What is shown of main's outputs, in place.
use psac_model::Shown;
use std::marker::Model;

/// As many outputs as a program may have.
pub const MOST_OUTPUTS: usize = 24;

/// What is shown of main's outputs, in its order. A copy takes no memory.
#[derive(Drop)]
pub struct Outputs {
    values: [Shown; 24],
    count: usize,
}

impl Model for Outputs {
    ghost use Rattle.std.specs.Prelude.{◌≤◌, List, take};
    ghost use Rattle.psac_model.specs.declared.ends.Shown.{Shown};

    ghost Value = { List Shown };

    ghost view = { λ o. take o.count o.values };

    ghost invariant = { λ o. o.count ≤ 24 };
}

impl Outputs {
    ghost use Rattle.std.specs.Prelude.{◌≡◌, ◌≤◌, length, IfSome};

    /// The values, unless there are too many.
    pub fn of(values: &[Shown]) -> Option<Outputs>
        ensures { IfSome result (λ o. o ≡ values.now) }
    {
        if values.len() > MOST_OUTPUTS {
            return None;
        }
        let mut placed = [Shown::Nil; 24];
        placed[..values.len()].copy_from_slice(values);
        Some(Outputs {
            values: placed,
            count: values.len(),
        })
    }

    pub fn as_slice(&self) -> &[Shown]
        ensures { result.now ≡ self.now }
    {
        &self.values[..self.count]
    }

    /// A copy.
    pub fn again(&self) -> Outputs
        ensures { result ≡ self.now }
    {
        Outputs {
            values: self.values,
            count: self.count,
        }
    }
}
