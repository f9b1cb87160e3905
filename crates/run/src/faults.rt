//! Why a place is not fed or not told.

ghost use Rattle.std.specs.Prelude.{◌≡◌};
ghost use Rattle.listing.specs.Faults.{rule_number};
ghost use Rattle.run.specs.Views.{of_fault, refusal_of};

use listing::{Refusal, Rule};

/// Why feed or ask is refused.
#[derive(Clone, Copy, Debug, PartialEq, Eq)]
pub enum RunFault {
    /// The routine has no such array.
    NoArray,
    /// The array has no such element.
    NoElement,
    /// The routine has no such scalar.
    NoScalar,
    /// What is asked for is shut at the present point.
    Shut,
}

/// The rule that is broken. Its number is the one that the rules of a run give.
impl From<RunFault> for Refusal {
    ghost from_gives = { λ fault refusal. (refusal ≡ refusal_of fault) × (rule_number refusal.rule ≡ (of_fault fault).number) };

    fn from(fault: RunFault) -> Refusal {
        match fault {
            RunFault::NoArray => Rule::Array.at(0, 0),
            RunFault::NoElement => Rule::Element.at(0, 0),
            RunFault::NoScalar => Rule::Scalar.at(0, 0),
            RunFault::Shut => Rule::Open.at(0, 0),
        }
    }
}

impl RunFault {
    /// The rule that is broken. Its number is the one that the rules of a run give.
    pub fn refusal(&self) -> Refusal
        ensures is { result ≡ refusal_of self.now }
        ensures number { rule_number result.rule ≡ (of_fault self.now).number }
    {
        Refusal::from(*self)
    }
}
