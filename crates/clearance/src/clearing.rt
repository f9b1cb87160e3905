//! Clearing: reads the outcome of an examination, and hands out a clearance if it was granted.

ghost use Rattle.std.specs.Prelude.{◌≡◌, true, Some, MatchResult};
ghost use Rattle.clearance.specs.Outcomes.{is_granted, fault_of};

use crate::grant::Clearance;
use crate::outcome::ClearFault;
use crate::record::Examination;
use leakage::LeakageModel;

/// A clearance on the record, or the fault that its outcome says.
pub fn clear<M: LeakageModel>(exam: &Examination<M>) -> Result<Clearance<'_, M>, ClearFault>
    ensures { MatchResult result (λ c. (c.exam.now ≡ exam.now) × (is_granted exam.now.outcome ≡ true)) (λ f. fault_of exam.now.outcome ≡ Some f) }
{
    exam.outcome()?;
    Ok(Clearance { exam })
}

impl<'a, M: LeakageModel> Clearance<'a, M> {
    /// Uses the clearance up, for the record that it was granted on.
    pub fn spend(self) -> &'a Examination<M>
        ensures exam { result.now ≡ self.entry.exam.now }
        ensures granted { is_granted result.now.outcome ≡ true }
    {
        let Clearance { exam } = self;
        exam
    }
}
