//! The counts, nodes and regions of a routine, with what they promise within this crate's limits: so these are functions here, and no
//! methods of the routine, which is declared below.

ghost use Rattle.std.specs.Prelude.{◌≡◌, ℕ, ◌<◌, ◌≤◌};
ghost use Rattle.rules.specs.Routine.{node, region, end, Next, OperandsExist, Accepted};
ghost use Rattle.listing.specs.Forms.{routine_of};
ghost use Rattle.reach.specs.Limits.{WithinLimits};

use listing::{Counts, Routine};
use rules::{Node, Region};

/// How many scalars, arrays and nodes the routine has.
pub fn counts_of(routine: &Routine) -> Counts
    ensures is { result ≡ routine.now.listing.counts }
    ensures within { WithinLimits result }
    ensures ends { result.nodes ≡ end (routine_of routine.now.listing) }
{
    routine.listing().counts
}

/// The node at the point; past the last node, a constant that stands for none.
pub fn node_at(routine: &Routine, point: usize) -> Node
    ensures is { result ≡ node (routine_of routine.now.listing) point }
    ensures operands { point < routine.now.listing.counts.nodes → OperandsExist routine.now.listing.counts.scalars routine.now.listing.counts.arrays result }
    ensures next { point < routine.now.listing.counts.nodes → (q : ℕ) → Next result point q → q ≤ routine.now.listing.counts.nodes }
{
    let listing = routine.listing();
    let nodes = &listing.nodes[..listing.counts.nodes as usize];
    nodes.get(point).copied().unwrap_or(Node::Constant {
        target: 0,
        value: 0,
    })
}

/// The region of the array; past the last array, a region of no cell.
pub fn region_at(routine: &Routine, array: usize) -> Region
    ensures is { result ≡ region (routine_of routine.now.listing) array }
    ensures accepted { array < routine.now.listing.counts.arrays → Accepted result.start result.length }
{
    let listing = routine.listing();
    let regions = &listing.regions[..listing.counts.arrays as usize];
    regions.get(array).copied().unwrap_or(Region {
        start: 0,
        length: 0,
    })
}
