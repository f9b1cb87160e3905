//! The verdict as a C function: verdict's own function under the name that include/verdict.h gives.
#![tactic(auto)]

ghost use Rattle.verdict.specs.Verdicts.{Answered};

/// Writes the verdict slip into the first 53 bytes of `out` and answers 0; where `out` is shorter it touches nothing and answers 16.
#[unsafe(no_mangle)]
pub extern "C" fn verdict(levels: &[u8], listing: &[u8], out: &mut [u8]) -> u32
    ensures { Answered levels.now listing.now out.old out.new result }
{
    verdict::verdict(levels, listing, out)
}
