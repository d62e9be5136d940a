// The places of a session that hold modifiables.
use psac_ops::Handle;

const PLACES: usize = 64;

/// What each place holds: the handle of a modifiable, or nothing.
#[derive(Drop)]
pub struct Places {
    held: [Option<Handle>; PLACES],
}

impl Places {
    ghost use Rattle.std.specs.Prelude.{◌≡◌, ◌<◌, Some, nat_lt, slice_get, slice_set};
    ghost use Rattle.psac_report.specs.Session.{place_count};
    ghost use Rattle.psac_session.specs.Holding.{none_held};

    /// Nothing is held.
    #[tactic(auto, unfolding(crate::specs::Holding::none_held))]
    pub fn new() -> Places
        ensures { result.held ≡ none_held }
    {
        Places {
            held: [None; PLACES],
        }
    }

    /// Whether there is a place of this number.
    pub fn has(place: u32) -> bool
        ensures { result ≡ nat_lt place place_count }
    {
        (place as usize) < PLACES
    }

    /// What the place holds.
    pub fn at(&self, place: u32) -> Option<Handle>
        requires { place < place_count }
        ensures { slice_get self.now.held place ≡ Some result }
    {
        self.held[place as usize]
    }

    /// The place holds this, in place of what it held.
    pub fn put(&mut self, place: u32, handle: Handle)
        requires { place < place_count }
        ensures { self.new.held ≡ slice_set self.old.held place (Some handle) }
    {
        self.held[place as usize] = Some(handle);
    }
}
