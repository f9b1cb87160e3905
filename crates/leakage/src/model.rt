//! What a leakage model has to be.

ghost use Rattle.std.specs.Prelude.{◌≡◌, ◌<◌};
ghost use Rattle.rules.specs.Leakage.{Leakage, Honest};
ghost use Rattle.rules.specs.Routine.{Accepted};

use rules::{Operator, Region, Side};

/// What a listener hears: a mark for each operator and each access. A model watches what its marks may depend on.
// No method has a default body, though several models hear no operator: it would have to give the answer of every model.
pub trait LeakageModel: Copy {
    /// The model's four answers, as functions of what is asked.
    ghost leakage: { Self → Leakage };

    /// Whether the model watches this operand of the operator.
    fn watches_operand(self, operator: Operator, side: Side) -> bool
        ensures { result ≡ (leakage self).watches_operand operator side };

    /// The operator's mark on two values.
    fn operator_mark(self, operator: Operator, left: u32, right: u32) -> u32
        ensures { result ≡ (leakage self).operator_mark operator left right };

    /// Whether the model watches the index into the array.
    fn watches_index(self, region: Region) -> bool
        requires { Accepted region.start region.length }
        ensures { result ≡ (leakage self).watches_index region.start region.length };

    /// The mark of an access to the array.
    fn access_mark(self, region: Region, index: u32) -> u32
        requires { (Accepted region.start region.length) × (index < region.length) }
        ensures { result ≡ (leakage self).access_mark region.start region.length index };

    ghost honest: { (m : Self) → Honest (leakage m) };
}
