//! What a node passes on of the names that reach the scalars before it.

ghost use Rattle.std.specs.Prelude.{◌≡◌, ℕ, true, ◌↔◌};
ghost use Rattle.levels.specs.Names.{Has};
ghost use Rattle.rules.specs.Routine.{sets, OperandsExist};
ghost use Rattle.reach.specs.Passing.{Inflow, Flow};
ghost use Rattle.reach.specs.Table.{at};

use crate::reading::counts_of;
use crate::table::Row;
use levels::NameSet;
use listing::Routine;
use rules::Node;

// What reaches the scalars that the node reads, and the array that it reads.
fn inflow(routine: &Routine, node: Node, row: &Row) -> NameSet
    requires { OperandsExist routine.now.listing.counts.scalars routine.now.listing.counts.arrays node }
    ensures { (d : ℕ) → sets node d ≡ true → (name : ℕ) → (Has result name ↔ Inflow routine.now.listing.counts.scalars node (λ k. Has (at row.now k) name) name) }
{
    let names = |scalar: u32| row.names(scalar as usize);
    match node {
        Node::Move { source, .. } => names(source),
        Node::Operate { left, right, .. } => names(left).union(names(right)),
        Node::Select {
            condition,
            then,
            otherwise,
            ..
        } => names(condition).union(names(then)).union(names(otherwise)),
        Node::Read { array, index, .. } => {
            let name = counts_of(routine).scalars + array;
            names(index).union(NameSet::single(name as usize))
        }
        _ => NameSet::empty(),
    }
}

// The row behind the node, where `row` stands before it.
pub(crate) fn outgoing(routine: &Routine, node: Node, row: &Row) -> Row
    requires { OperandsExist routine.now.listing.counts.scalars routine.now.listing.counts.arrays node }
    ensures { (name d : ℕ) → (Has (at result d) name ↔ Flow routine.now.listing.counts.scalars node (λ k. Has (at row.now k) name) name d) }
{
    let mut next = *row;
    if let Some(scalar) = node.target() {
        next.sets[scalar as usize] = inflow(routine, node, row);
    }
    next
}
