//! Why a routine is not cleared.

ghost use Rattle.std.specs.Prelude.{◌≡◌};
ghost use Rattle.clearance.specs.Outcomes.{by_leak, refusal_of};

use crate::leak::LeakSite;
use listing::{Refusal, Rule};

/// Why there is no clearance.
#[derive(Debug, Clone, Copy, PartialEq, Eq)]
pub enum ClearFault {
    /// The table has not one level for each scalar and each array.
    TableLength,
    /// No typing table meets the rules; the leak that is named.
    Leak(LeakSite),
}

// Granted, if no leak was found.
pub(crate) fn outcome_of(leak: Option<LeakSite>) -> Result<(), ClearFault>
    ensures { result ≡ by_leak leak }
{
    leak.map_or(Ok(()), |site| Err(ClearFault::Leak(site)))
}

/// The rule that is broken; a leak says by itself where it is.
impl From<ClearFault> for Refusal {
    ghost from_gives = { λ fault refusal. refusal ≡ refusal_of fault };

    fn from(fault: ClearFault) -> Refusal {
        match fault {
            ClearFault::TableLength => Rule::TableLength.at(0, 0),
            ClearFault::Leak(_) => Rule::Clearance.at(0, 0),
        }
    }
}

impl ClearFault {
    /// The rule that is broken.
    pub fn refusal(&self) -> Refusal
        ensures { result ≡ refusal_of self.now }
    {
        Refusal::from(*self)
    }
}
