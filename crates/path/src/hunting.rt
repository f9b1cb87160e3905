//! The hunt for a way, backwards from its end, nearest places first.

ghost use Rattle.std.specs.Prelude.{ℕ, ◌<◌, ◌≤◌};
ghost use Rattle.listing.specs.Forms.{routine_of};
ghost use Rattle.path.specs.Hunts.{Noted, Extends, MetAt, place_at, NoneSeen};

use crate::hunt::{Entry, Hunt};
use crate::place::Place;
use crate::steps::carries;
use listing::Routine;
use reach::{counts_of, leads_to, node_at};

impl Hunt {
    // No place was found.
    pub(crate) fn none() -> Hunt
        ensures { NoneSeen result }
    {
        let place = Place {
            point: 0,
            scalar: 0,
        };
        Hunt {
            entries: [Entry { place, next: 0 }; 3096],
            seen: [false; 3096],
            count: 0,
        }
    }

    // Notes a place that leads on to an entry, unless it was seen before.
    pub(crate) fn note(&mut self, place: Place, next: usize)
        requires { (place.point ≤ 128) × (place.scalar < 24) }
        ensures { Noted self.old self.new place next }
    {
        let slot = place.point as usize * 24 + place.scalar as usize;
        if !self.seen[slot] {
            let count = self.count;
            self.seen[slot] = true;
            self.entries[count] = Entry { place, next };
            self.count = count + 1;
        }
    }

    // Notes the places at the point that lead on to the entry.
    fn note_at(&mut self, routine: &Routine, point: u32, index: usize)
        requires { (index < self.old.count) × (point < routine.now.listing.counts.nodes) }
        ensures extends { Extends (routine_of routine.now.listing) self.old self.new index }
        ensures met { (k : ℕ) → k < routine.now.listing.counts.scalars → MetAt (routine_of routine.now.listing) self.new (place_at self.old index) point k }
    {
        let counts = counts_of(routine);
        let node = node_at(routine, point as usize);
        let to = self.entries[index].place;
        if leads_to(node, point, to.point) {
            // A scalar's number is its name; no slice is gone over.
            for scalar in 0..counts.scalars {
                if carries(node, scalar, to.scalar) {
                    self.note(Place { point, scalar }, index);
                }
            }
        }
    }

    // Notes all places that lead on to the entry.
    pub(crate) fn note_all(&mut self, routine: &Routine, index: usize)
        requires { index < self.old.count }
        ensures extends { Extends (routine_of routine.now.listing) self.old self.new index }
        ensures met { (p k : ℕ) → k < routine.now.listing.counts.scalars → MetAt (routine_of routine.now.listing) self.new (place_at self.old index) p k }
    {
        let counts = counts_of(routine);
        // A node's number is its name; no slice is gone over.
        for point in 0..counts.nodes {
            self.note_at(routine, point, index);
        }
    }
}
