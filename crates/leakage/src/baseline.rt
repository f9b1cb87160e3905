//! The model that hears the cell of each access.

ghost use Rattle.rules.specs.Standing.{baseline};
ghost use Rattle.rules.proofs.Standing.{baseline_honest};

use crate::model::LeakageModel;
use rules::{Operator, Region, Side};

/// Watches every index, with the cell as the mark; operators are unwatched.
#[derive(Clone, Copy, Debug, PartialEq, Eq)]
pub struct Baseline;

impl LeakageModel for Baseline {
    ghost leakage = { λ _. baseline };

    ghost honest = { λ _. baseline_honest };

    fn watches_operand(self, _operator: Operator, _side: Side) -> bool {
        false
    }

    fn operator_mark(self, _operator: Operator, _left: u32, _right: u32) -> u32 {
        0
    }

    fn watches_index(self, _region: Region) -> bool {
        true
    }

    fn access_mark(self, region: Region, index: u32) -> u32 {
        region.start + index
    }
}
