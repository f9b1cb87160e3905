//! A step of a routine. (A struct with a ghost field stands in a file of its own.)

ghost use Rattle.std.specs.Prelude.{◌≡◌, ◌<◌};
ghost use Rattle.rules.specs.Routine.{node as node_of};
ghost use Rattle.listing.specs.Forms.{routine_of};

use listing::Routine;
use rules::Node;

// The step from a point before the end, with the node at that point.
#[derive(Clone, Copy)]
pub struct Step<'a> {
    pub routine: &'a Routine,
    pub point: u32,
    pub node: Node,
    ghost before: { point < routine.now.listing.counts.nodes },
    ghost found: { node ≡ node_of (routine_of routine.now.listing) point },
}
