//! Two orders side by side.

ghost use Rattle.levels.specs.Pairs.{pair_order};
ghost use Rattle.levels.specs.Laws.{pair_lawful};

use crate::level::Level;

/// Two levels, each in its own order.
#[derive(Clone, Copy, Debug, PartialEq, Eq)]
pub struct Pair<A, B> {
    pub first: A,
    pub second: B,
}

impl<A: Level, B: Level> Level for Pair<A, B> {
    ghost order = { pair_order A.order B.order };

    ghost lawful = { pair_lawful A.lawful B.lawful };

    fn least() -> Pair<A, B> {
        Pair {
            first: A::least(),
            second: B::least(),
        }
    }

    fn join(self, other: Pair<A, B>) -> Pair<A, B> {
        Pair {
            first: self.first.join(other.first),
            second: self.second.join(other.second),
        }
    }

    fn flows_to(self, other: Pair<A, B>) -> bool {
        self.first.flows_to(other.first) & self.second.flows_to(other.second)
    }
}
