//! The search for the leak over all nodes.

ghost use Rattle.std.specs.Prelude.{◌<◌, true};
ghost use Rattle.rules.specs.declared.Node.TheVariants.{Write};
ghost use Rattle.rules.specs.Routine.{node, OperandsExist};
ghost use Rattle.listing.specs.Forms.{routine_of};
ghost use Rattle.reach.specs.Table.{cell};
ghost use Rattle.clearance.specs.Scenes.{setting};
ghost use Rattle.clearance.specs.Searches.{searched, Prepared};
ghost use Rattle.clearance.specs.Stops.{OperandAnswer, NodeAnswer, LeakAnswer};

use crate::leak::{Bound, LeakSite, first_of, operand_leak};
use leakage::LeakageModel;
use levels::{Level, NameSet, flowing};
use listing::Routine;
use reach::{ReachTable, counts_of, node_at, region_at};
use rules::{Node, Side};

// What is searched: the scene, what reaches each scalar at each point, and the names that flow to the listener.
// That it is prepared is no ghost field, since more than one derivation may show that a name reaches a scalar.
#[derive(Drop)]
pub(crate) struct Search<'a, L: Level, M: LeakageModel> {
    pub(crate) routine: &'a Routine,
    pub(crate) model: M,
    pub(crate) levels: &'a [L],
    pub(crate) listener: L,
    pub(crate) table: &'a ReachTable,
    pub(crate) heard: NameSet,
}

impl<'a, L: Level, M: LeakageModel> Search<'a, L, M> {
    // An operand that is held to the listener, if `held` says so.
    fn heard_leak(&self, held: bool, point: u32, operand: u32, scalar: u32) -> Option<LeakSite>
        ensures { OperandAnswer (cell self.now.table.now point scalar) self.now.heard held point operand Bound.Listener result }
    {
        let names = self.table.names(point as usize, scalar as usize);
        operand_leak(names, self.heard, held, point, operand, Bound::Listener)
    }

    // An operand that is held to an array's level, by the names that flow to it.
    fn stored_leak(
        &self,
        stored: NameSet,
        point: u32,
        operand: u32,
        scalar: u32,
    ) -> Option<LeakSite>
        ensures { OperandAnswer (cell self.now.table.now point scalar) stored true point operand Bound.Array result }
    {
        let names = self.table.names(point as usize, scalar as usize);
        operand_leak(names, stored, true, point, operand, Bound::Array)
    }

    // At a write: the index held to the listener if it is watched, then the index and the value held to the array's level.
    fn write_leak(&self, point: u32, array: u32, index: u32, value: u32) -> Option<LeakSite>
        requires prepared { Prepared L.order M.leakage self.now }
        requires operands { OperandsExist self.now.routine.now.listing.counts.scalars self.now.routine.now.listing.counts.arrays (Write array index value) }
        ensures { NodeAnswer (setting (searched L.order M.leakage self.now)) point (Write array index value) result }
    {
        let counts = counts_of(self.routine);
        let stored = flowing(self.levels, self.levels[(counts.scalars + array) as usize]);
        let watched = self
            .model
            .watches_index(region_at(self.routine, array as usize));
        let first = self.heard_leak(watched, point, 2, index);
        let second = self.stored_leak(stored, point, 2, index);
        let third = self.stored_leak(stored, point, 3, value);
        first_of(first, first_of(second, third))
    }

    // The leak at one node: the lowest operand, then bound, then start name.
    fn node_leak(&self, point: u32) -> Option<LeakSite>
        requires prepared { Prepared L.order M.leakage self.now }
        requires below { point < self.now.routine.now.listing.counts.nodes }
        ensures { NodeAnswer (setting (searched L.order M.leakage self.now)) point (node (routine_of self.now.routine.now.listing) point) result }
    {
        match node_at(self.routine, point as usize) {
            Node::If { condition, .. } | Node::While { condition, .. } => {
                self.heard_leak(true, point, 1, condition)
            }
            Node::Operate {
                operator,
                left,
                right,
                ..
            } => {
                let left_watched = self.model.watches_operand(operator, Side::Left);
                let right_watched = self.model.watches_operand(operator, Side::Right);
                let first = self.heard_leak(left_watched, point, 3, left);
                let second = self.heard_leak(right_watched, point, 4, right);
                first_of(first, second)
            }
            Node::Read { array, index, .. } => {
                let watched = self
                    .model
                    .watches_index(region_at(self.routine, array as usize));
                self.heard_leak(watched, point, 3, index)
            }
            Node::Write {
                array,
                index,
                value,
            } => self.write_leak(point, array, index, value),
            _ => None,
        }
    }

    // The leak of the routine, if there is one.
    pub(crate) fn first_leak(&self) -> Option<LeakSite>
        requires { Prepared L.order M.leakage self.now }
        ensures { LeakAnswer (setting (searched L.order M.leakage self.now)) result }
    {
        let counts = counts_of(self.routine);
        (0..counts.nodes).find_map(|point| self.node_leak(point))
    }
}
