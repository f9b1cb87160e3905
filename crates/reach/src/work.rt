//! A reach table that is being filled: what reaches a point that is not pending has been passed on.

ghost use Rattle.std.specs.Prelude.{◌≡◌, ◌<◌, ◌≤◌, true, false};
ghost use Rattle.listing.specs.Forms.{routine_of};
ghost use Rattle.reach.specs.Work.{Put, Passed, Going, Swept};

use crate::merge::merge;
use crate::next::next_points;
use crate::passing::outgoing;
use crate::reading::{counts_of, node_at};
use crate::table::{ReachTable, Row};
use listing::Routine;

// The flags stand beside the rows, and not in them, since the table alone is handed out at the end.
#[derive(Clone, Copy, Debug, PartialEq, Eq)]
pub(crate) struct Work {
    pub(crate) table: ReachTable,
    pub(crate) pending: [bool; 129],
}

impl Work {
    // Puts the names of `from` into the row of the point, which is pending again if that brought new ones.
    fn put(&mut self, point: usize, from: &Row) -> bool
        requires { point < 129 }
        ensures { Put self.old self.new point from.now result }
    {
        let grew = merge(&mut self.table.rows[point].sets, &from.sets);
        self.pending[point] |= grew;
        grew
    }

    // Passes on what reaches the point, and tells whether that or an earlier point is pending again.
    fn pass_on(&mut self, routine: &Routine, point: usize) -> bool
        requires { point < routine.now.listing.counts.nodes }
        ensures { Passed (routine_of routine.now.listing) self.old self.new point result }
    {
        let node = node_at(routine, point);
        let next = next_points(node, point);
        let out = outgoing(routine, node, &self.table.rows[point]);
        self.pending[point] = false;
        let first = self.put(next.first, &out);
        let second = self.put(next.second, &out);
        is_back(point, next.first, first) | is_back(point, next.second, second)
    }

    // Passes on what reaches each pending point, and tells whether a point is pending again.
    // What a point passes on changes the flags of others while this goes over them, so the points are counted and no slice is lent out.
    pub(crate) fn sweep(&mut self, routine: &Routine) -> bool
        requires { Going (routine_of routine.now.listing) self.old }
        ensures { Swept (routine_of routine.now.listing) self.old self.new result }
    {
        let counts = counts_of(routine);
        let mut again = false;
        for point in 0..counts.nodes as usize {
            if self.pending[point] {
                again |= self.pass_on(routine, point);
            }
        }
        again
    }
}

// Whether a point that is pending again lies no further than another.
fn is_back(point: usize, to: usize, pending: bool) -> bool
    ensures back { result ≡ true → pending ≡ true }
    ensures ahead { result ≡ false → to ≤ point → pending ≡ false }
{
    pending & (to <= point)
}
