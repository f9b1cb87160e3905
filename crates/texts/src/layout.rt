//! Repeated text, numbers set right, and parts of a line.

ghost use Rattle.std.specs.Prelude.{◌≡◌, ◌++◌, IfOk, string_bytes, OnOk};
ghost use Rattle.lines.specs.Lines.{part};
ghost use Rattle.texts.specs.Layouts.{times, set_right};

use std::alloc::{AllocError, Global};

/// Adds the text `count` times.
pub fn put_times(out: &mut String, count: usize, text: &str) -> Result<(), AllocError>
    ensures { OnOk result (string_bytes out.new ≡ string_bytes out.old ++ times count text.now) }
{
    for _ in 0..count {
        out.push_str(text)?;
    }
    Ok(())
}

/// The number, with blanks before it up to the width.
pub fn right(heap: Global, width: usize, value: u64) -> Result<String, AllocError>
    ensures { IfOk result (λ s. string_bytes s ≡ set_right width value) }
{
    let digits = value.to_string(heap)?;
    let mut out = String::new(heap);
    put_times(&mut out, width.saturating_sub(digits.len()), " ")?;
    out.push_str(digits.as_str())?;
    Ok(out)
}

/// At most `width` bytes from place `start` on.
pub fn part_of(bytes: &[u8], start: usize, width: usize) -> &[u8]
    ensures { result.now ≡ part start width bytes.now }
{
    let rest = &bytes[start.min(bytes.len())..];
    &rest[..width.min(rest.len())]
}
