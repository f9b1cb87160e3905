//! The scalars that a node sets and reads.

ghost use Rattle.std.specs.Prelude.{◌≡◌, true, ◌↔◌};
ghost use Rattle.rules.specs.Routine.{target_of, sets, Reads};

use crate::Node;

impl Node {
    /// The scalar that this node sets, if it sets one.
    pub fn target(self) -> Option<u32>
        ensures { result ≡ target_of self }
    {
        match self {
            Node::Constant { target, .. }
            | Node::Move { target, .. }
            | Node::Operate { target, .. }
            | Node::Select { target, .. }
            | Node::Read { target, .. } => Some(target),
            _ => None,
        }
    }

    /// Whether this node sets the scalar.
    pub fn sets(self, scalar: u32) -> bool
        ensures { result ≡ sets self scalar }
    {
        self.target() == Some(scalar)
    }

    /// Whether this node reads the scalar.
    pub fn reads(self, scalar: u32) -> bool
        ensures { (result ≡ true) ↔ Reads self scalar }
    {
        match self {
            Node::Move { source, .. } => scalar == source,
            Node::Operate { left, right, .. } => scalar == left || scalar == right,
            Node::Select {
                condition,
                then,
                otherwise,
                ..
            } => scalar == condition || scalar == then || scalar == otherwise,
            Node::Read { index, .. } => scalar == index,
            Node::Write { index, value, .. } => scalar == index || scalar == value,
            Node::If { condition, .. } | Node::While { condition, .. } => scalar == condition,
            _ => false,
        }
    }
}
