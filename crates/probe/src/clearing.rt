//! Load and clear, by a number.

ghost use Rattle.probe.specs.Probes.{ClearNumber};

use listing::Rule;
use verdict::{Slip, judge};

/// Loads the listing and clears it as the verdict does: 0 where it is cleared, 11 where it leaks, and else the number of the refusal.
pub fn probe_clear(levels: &[u8], listing: &[u8]) -> u32
    ensures { ClearNumber levels.now listing.now result }
{
    // The number is what the C function answers: this is its body, and probe_c gives it its C name.
    match judge(levels, listing) {
        Slip::Clear => 0,
        Slip::Leak(_) => u32::from(Rule::Clearance),
        Slip::Refused(refusal) => u32::from(refusal.rule),
    }
}
