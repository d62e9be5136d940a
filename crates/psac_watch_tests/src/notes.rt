// An eye that keeps what it is shown.
ghost use Rattle.std.specs.Prelude.{◌≤◌, if◌then◌else◌, Some, None, vec_capacity, vec_len};

use psac_publish::Seen;
use psac_watch::Eye;
use std::alloc::{AllocError, Global};

/// Keeps as many values as it was made for. Once it is shown more it tells nothing.
#[derive(Drop)]
pub struct Notes {
    pub values: Vec<Seen>,
    pub is_over: bool,
}

impl Notes {
    pub fn new(alloc: Global, room: usize) -> Result<Notes, AllocError> {
        let mut values = Vec::new(alloc);
        values.reserve(room)?;
        Ok(Notes {
            values,
            is_over: false,
        })
    }
}

impl Eye for Notes {
    ghost shown = { λ n. if n.is_over then None else Some n.values.items };

    fn saw(&mut self, seen: &Seen) {
        if self.values.len() == self.values.capacity() {
            self.is_over = true;
        }
        if !self.is_over {
            self.values.push_reserved(seen.again());
        }
    }
}
