//! The steps of a way.

ghost use Rattle.std.specs.Prelude.{◌≡◌, ◌<◌, true, ◌↔◌};
ghost use Rattle.listing.specs.Forms.{routine_of};
ghost use Rattle.path.specs.Ways.{Carries, ReadsName, OriginAnswer};

use crate::place::{Origin, Place};
use listing::Routine;
use reach::{counts_of, node_at};
use rules::Node;

// Whether a node carries what reaches scalar `from` on to scalar `to`.
pub(crate) fn carries(node: Node, from: u32, to: u32) -> bool
    ensures { (result ≡ true) ↔ Carries node from to }
{
    let kept = !node.sets(from) && to == from;
    let taken = node.sets(to) && node.reads(from);
    kept || taken
}

// Whether a node at the point reads the array that is the start name, into the scalar of the place and on to its point.
fn reads_name(node: Node, point: u32, scalars: u32, name: u32, place: Place) -> bool
    ensures { (result ≡ true) ↔ ReadsName node point scalars name place }
{
    matches!(node, Node::Read { target, array, .. }
        if place.scalar == target && place.point.checked_sub(point) == Some(1) && name.checked_sub(array) == Some(scalars))
}

// How the start name comes to the place first.
pub(crate) fn origin_of(routine: &Routine, name: u32, place: Place) -> Option<Origin>
    ensures { OriginAnswer (routine_of routine.now.listing) name place result }
{
    let counts = counts_of(routine);
    if place.point == 0 && place.scalar == name && name < counts.scalars {
        return Some(Origin::Start);
    }
    let reads = |point: &u32| {
        let node = node_at(routine, *point as usize);
        reads_name(node, *point, counts.scalars, name, place)
    };
    (0..counts.nodes)
        .find(reads)
        .map(|node| Origin::Read { node })
}
