//! The verdict slip on level digits and a listing. C programs call it through verdict_c.
#![tactic(auto)]

mod digits;
mod input;
mod judging;
mod slip;

ghost use Rattle.verdict.specs.Verdicts.{Answered};

pub use input::slip_on;
pub use judging::judge;
use listing::Rule;
pub use slip::{Slip, slip_text};

/// Writes the verdict slip into the first 53 bytes of `out` and answers 0; where `out` is shorter it touches nothing and answers 16.
pub fn verdict(levels: &[u8], listing: &[u8], out: &mut [u8]) -> u32
    ensures { Answered levels.now listing.now out.old out.new result }
{
    if out.len() < 53 {
        // The number is what the C function answers: this is its body, and verdict_c gives it its C name.
        return u32::from(Rule::Room);
    }
    let text = slip_text(judge(levels, listing));
    out[0..53].copy_from_slice(&text);
    0
}
