//! The model that hears the program counter alone.

ghost use Rattle.rules.specs.Standing.{program_counter};
ghost use Rattle.rules.proofs.Standing.{counter_honest};

use crate::model::LeakageModel;
use rules::{Operator, Region, Side};

/// Watches nothing; every mark is 0.
#[derive(Clone, Copy, Debug, PartialEq, Eq)]
pub struct ProgramCounter;

impl LeakageModel for ProgramCounter {
    ghost leakage = { λ _. program_counter };

    ghost honest = { λ _. counter_honest };

    fn watches_operand(self, _operator: Operator, _side: Side) -> bool {
        false
    }

    fn operator_mark(self, _operator: Operator, _left: u32, _right: u32) -> u32 {
        0
    }

    fn watches_index(self, _region: Region) -> bool {
        false
    }

    fn access_mark(self, _region: Region, _index: u32) -> u32 {
        0
    }
}
