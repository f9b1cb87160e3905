//! What a way tells.

ghost use Rattle.std.specs.Prelude.{◌≡◌, take};
ghost use Rattle.path.specs.Ways.{step_of};

use crate::place::{Origin, Path, Place};

impl Path {
    /// How the name comes to the first place.
    pub fn origin(&self) -> Origin
        ensures { result ≡ self.now.origin }
    {
        self.origin
    }

    /// How many places there are.
    pub fn count(&self) -> usize
        ensures { result ≡ self.now.count }
    {
        self.count
    }

    /// The places of the way, from the first to the last.
    pub fn places(&self) -> &[Place]
        ensures { result.now ≡ take self.now.count self.now.places }
    {
        &self.places[..self.count]
    }

    /// The place at an index below the count; past the last place in the room, the first scalar at the first point stands for none.
    pub fn place(&self, index: usize) -> Place
        ensures { result ≡ step_of self.now index }
    {
        let none = Place {
            point: 0,
            scalar: 0,
        };
        self.places.get(index).copied().unwrap_or(none)
    }
}
