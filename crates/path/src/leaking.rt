//! The way of a leak.

ghost use Rattle.std.specs.Prelude.{◌≡◌};
ghost use Rattle.listing.specs.Forms.{routine_of};
ghost use Rattle.path.specs.LeakWays.{operand_of, LeakWay};

use crate::place::Path;
use crate::tracing::path_to;
use clearance::{ClearFault, Examination};
use leakage::LeakageModel;
use reach::node_at;
use rules::Node;

// The scalar that is an operand of the node, if it can be held to a bound.
fn operand_scalar(node: Node, operand: u32) -> Option<u32>
    ensures { result ≡ operand_of node operand }
{
    match (node, operand) {
        (Node::If { condition, .. } | Node::While { condition, .. }, 1) => Some(condition),
        (Node::Operate { left, .. }, 3) => Some(left),
        (Node::Operate { right, .. }, 4) => Some(right),
        (Node::Read { index, .. }, 3) => Some(index),
        (Node::Write { index, .. }, 2) => Some(index),
        (Node::Write { value, .. }, 3) => Some(value),
        _ => None,
    }
}

/// A shortest way by which the start name of the leak reaches the operand; none if there is no leak.
pub fn leak_path<M: LeakageModel>(exam: &Examination<M>) -> Option<Path>
    ensures { LeakWay (routine_of exam.now.routine.listing) exam.now.outcome result }
{
    let Err(ClearFault::Leak(site)) = exam.outcome() else {
        return None;
    };
    let node = node_at(exam.routine(), site.node as usize);
    let scalar = operand_scalar(node, site.operand)?;
    path_to(exam.routine(), site.name, site.node, scalar)
}
