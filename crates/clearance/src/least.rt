//! The levels of the least typing table.

ghost use Rattle.clearance.specs.Least.{LevelAnswer};

use levels::{Level, join_of};
use listing::Routine;
use reach::{counts_of, reach};

/// The level of the scalar at the point in the least table; none where the level table has another length or there is no such point or scalar.
pub fn level_at<L: Level>(routine: &Routine, levels: &[L], point: usize, scalar: usize) -> Option<L>
    ensures { LevelAnswer L.order routine.now.listing levels.now point scalar result }
{
    let counts = counts_of(routine);
    let names = (counts.scalars + counts.arrays) as usize;
    if levels.len() != names || point > counts.nodes as usize || scalar >= counts.scalars as usize {
        return None;
    }
    Some(join_of(levels, reach(routine).names(point, scalar)))
}
