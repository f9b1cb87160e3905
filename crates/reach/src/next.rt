//! Where a node goes.

ghost use Rattle.std.specs.Prelude.{◌≡◌, ℕ, ◌^◌, ◌<◌, true, ◌⊎◌, ◌↔◌};
ghost use Rattle.rules.specs.Routine.{Next};

use rules::Node;

// The next points of a node: both are the same unless it is an if or a while. (An optional second point would be asked for wherever
// both are gone to, and going to the same point twice does nothing more.)
#[derive(Clone, Copy, Debug, PartialEq, Eq)]
pub(crate) struct NextPoints {
    pub(crate) first: usize,
    pub(crate) second: usize,
}

impl NextPoints {
    // Whether the point is one of them.
    fn contains(&self, point: usize) -> bool
        ensures { (result ≡ true) ↔ ((point ≡ self.now.first) ⊎ (point ≡ self.now.second)) }
    {
        point == self.first || point == self.second
    }
}

// The next points of a node at the point.
pub(crate) fn next_points(node: Node, point: usize) -> NextPoints
    requires { point < 2 ^ 32 }
    ensures { (q : ℕ) → (Next node point q ↔ ((q ≡ result.first) ⊎ (q ≡ result.second))) }
{
    let (first, second) = match node {
        Node::If { otherwise, .. } => (point + 1, otherwise as usize + 1),
        Node::Else { end } => (end as usize, end as usize),
        Node::While { end, .. } => (point + 1, end as usize + 1),
        Node::EndWhile { head } => (head as usize, head as usize),
        _ => (point + 1, point + 1),
    };
    NextPoints { first, second }
}

/// Whether a node at the point goes to another.
pub fn leads_to(node: Node, point: u32, to: u32) -> bool
    ensures { (result ≡ true) ↔ Next node point to }
{
    next_points(node, point as usize).contains(to as usize)
}
