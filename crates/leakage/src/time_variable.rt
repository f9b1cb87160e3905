//! A layer over any model: quotient and remainder take a time by the sizes of their operands.

ghost use Rattle.std.specs.Prelude.{◌≡◌, ◌+◌, ◌*◌, ◌^◌, ◌<◌, ◌≤◌};
ghost use Rattle.rules.specs.Standing.{time_variable, significant, divides};
ghost use Rattle.rules.proofs.Standing.{time_honest};

use crate::model::LeakageModel;
use rules::{Operator, Region, Side};

/// Hears the sizes of the operands of quotient and remainder; all else is as the model below hears it.
#[derive(Clone, Copy, Debug, PartialEq, Eq)]
pub struct TimeVariable<M> {
    pub below: M,
}

// The number of significant bits of a value: 0 has none.
fn significant_bits(value: u32) -> u32
    ensures same { result ≡ significant value }
    ensures few { result ≤ 32 }
    ensures above { value < 2 ^ result }
    ensures least { 2 ^ result ≤ 2 * value + 1 }
{
    32 - value.leading_zeros()
}

// Whether the operator takes a time by the sizes of its operands.
fn takes_time(operator: Operator) -> bool
    ensures { result ≡ divides operator }
{
    matches!(operator, Operator::Quotient | Operator::Remainder)
}

impl<M: LeakageModel> LeakageModel for TimeVariable<M> {
    ghost leakage = { λ t. time_variable (M.leakage t.below) };

    ghost honest = { λ t. time_honest _ (M.honest t.below) };

    fn watches_operand(self, operator: Operator, side: Side) -> bool {
        takes_time(operator) || self.below.watches_operand(operator, side)
    }

    fn operator_mark(self, operator: Operator, left: u32, right: u32) -> u32 {
        if takes_time(operator) {
            64 * significant_bits(left) + significant_bits(right)
        } else {
            self.below.operator_mark(operator, left, right)
        }
    }

    fn watches_index(self, region: Region) -> bool {
        self.below.watches_index(region)
    }

    fn access_mark(self, region: Region, index: u32) -> u32 {
        self.below.access_mark(region, index)
    }
}
