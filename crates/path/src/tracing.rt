//! A shortest way from a start name to a scalar at a point.

ghost use Rattle.std.specs.Prelude.{◌≡◌, ◌<◌};
ghost use Rattle.listing.specs.Forms.{routine_of};
ghost use Rattle.path.specs.Ways.{WayAnswer, at_place};
ghost use Rattle.path.specs.Hunts.{Falling, Followed};

use crate::hunt::Hunt;
use crate::place::{Origin, Path, Place};
use crate::steps::origin_of;
use listing::Routine;
use reach::counts_of;

// From an entry on to the end of the way.
fn follow(hunt: &Hunt, index: usize, origin: Origin) -> Path
    requires { (Falling hunt.now) × (index < hunt.now.count) }
    ensures origin { result.origin ≡ origin }
    ensures places { Followed hunt.now index result }
{
    let first = hunt.entries[index].place;
    let mut places = [first; 3096];
    let mut count = 1;
    let mut at = index;
    // Each entry names the one that it leads on to, so this is no range.
    while at > 0 {
        at = hunt.entries[at].next;
        places[count] = hunt.entries[at].place;
        count += 1;
    }
    Path {
        origin,
        places,
        count,
    }
}

/// A shortest way by which the start name reaches the scalar at the point; none where it does not reach it.
pub fn path_to(routine: &Routine, name: u32, point: u32, scalar: u32) -> Option<Path>
    ensures { WayAnswer (routine_of routine.now.listing) name (at_place point scalar) result }
{
    let counts = counts_of(routine);
    if point > counts.nodes || scalar >= counts.scalars {
        return None;
    }
    let mut hunt = Hunt::none();
    hunt.note(Place { point, scalar }, 0);
    let mut index = 0;
    // The entries that are noted in this loop are gone over too, so this is no range.
    while index < hunt.count {
        if let Some(origin) = origin_of(routine, name, hunt.entries[index].place) {
            return Some(follow(&hunt, index, origin));
        }
        hunt.note_all(routine, index);
        index += 1;
    }
    None
}
