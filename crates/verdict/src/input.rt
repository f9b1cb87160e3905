//! Level digits and a listing in one input, parted by a newline.

ghost use Rattle.std.specs.Prelude.{◌≡◌, ◌<◌, length, MatchOption, slice_index};
ghost use Rattle.verdict.specs.Inputs.{Marked, NoNewline};

use crate::judging::judge;
use crate::slip::slip_text;

/// The place of the first newline.
fn newline_at(input: &[u8]) -> Option<usize>
    ensures { MatchOption result (NoNewline input.now (length input.now)) (λ e. (e < length input.now) × NoNewline input.now e × (slice_index input.now e ≡ 10)) }
{
    input.iter().position(|byte| *byte == b'\n')
}

/// The slip of the verdict on an input: level digits up to the first newline, then a listing.
pub fn slip_on(input: &[u8]) -> [u8; 53]
    ensures { Marked input.now result }
{
    match newline_at(input) {
        Some(end) => slip_text(judge(&input[..end], &input[end + 1..])),
        None => slip_text(judge(input, &[])),
    }
}
