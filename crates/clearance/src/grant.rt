//! The clearance. (A struct with a ghost field stands in a file of its own.)

ghost use Rattle.std.specs.Prelude.{◌≡◌, true};
ghost use Rattle.clearance.specs.Outcomes.{is_granted};

use crate::record::Examination;
use leakage::LeakageModel;

/// Leave to start a run, on the record of an examination that was granted; `clear` alone hands one out.
#[derive(Drop)]
pub struct Clearance<'a, M: LeakageModel> {
    pub(crate) exam: &'a Examination<M>,
    ghost granted: { is_granted exam.now.outcome ≡ true },
}
