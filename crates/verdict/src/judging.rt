//! The verdict, by the rules.

ghost use Rattle.std.specs.Prelude.{◌≡◌};
ghost use Rattle.verdict.specs.Verdicts.{ExaminedSlip, Judged};

use crate::digits::{first_wrong, read_levels};
use crate::slip::Slip;
use clearance::{ClearFault, examine};
use leakage::Baseline;
use levels::Secrecy;
use listing::{Routine, Rule, capped, load};

/// The verdict on a routine, by its level digits: two levels, a public listener and the baseline.
fn examined(digits: &[u8], routine: Routine) -> Slip
    ensures { ExaminedSlip digits.now routine.listing result }
{
    if digits.len() > 32 {
        return Slip::Refused(Rule::TableLength.at(0, 0));
    }
    // Nothing is allocated: no listing has more than 32 names.
    let mut table = [Secrecy::Public; 32];
    let levels = &mut table[0..digits.len()];
    read_levels(digits, levels);
    match examine(routine, Baseline, levels, Secrecy::Public).outcome() {
        Ok(()) => Slip::Clear,
        Err(ClearFault::Leak(site)) => Slip::Leak(site),
        Err(fault) => Slip::Refused(fault.into()),
    }
}

/// The verdict on level digits and a listing.
pub fn judge(digits: &[u8], listing: &[u8]) -> Slip
    ensures { Judged digits.now listing.now result }
{
    if let Some(place) = first_wrong(digits) {
        return Slip::Refused(Rule::Digit.at(capped(place), 0));
    }
    match load(listing) {
        Ok(routine) => examined(digits, routine),
        Err(fault) => Slip::Refused(fault.into()),
    }
}
