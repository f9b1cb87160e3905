//! A refused listing: the refusal, the reason, and the line with a mark under the field.

ghost use Rattle.std.specs.Prelude.{◌≡◌, IfOk, string_bytes};
ghost use Rattle.texts.specs.Refusals.{field_start, field_width, marker, line_shown, refusal_text};

use crate::escape::escape;
use crate::layout::{part_of, put_times};
use crate::sentence::Reason;
use listing::Refusal;
use std::alloc::{AllocError, Global};

// A field is a position, counted from 0: the number, the letter, four operands and the newline.

/// How many columns stand before the field.
fn field_start(field: u32) -> usize
    ensures { result ≡ field_start field }
{
    match field {
        0 => 0,
        1 => 4,
        2 => 6,
        3 => 17,
        4 => 28,
        5 => 39,
        _ => 50,
    }
}

/// How many columns the field has.
fn field_width(field: u32) -> usize
    ensures { result ≡ field_width field }
{
    match field {
        0 => 4,
        1 => 2,
        2..=5 => 11,
        _ => 1,
    }
}

/// Blanks under what is shown before the field, and a mark under each character that is shown of the field.
pub fn mark_under(heap: Global, line: &[u8], field: u32) -> Result<String, AllocError>
    ensures { IfOk result (λ s. string_bytes s ≡ marker line.now field) }
{
    let start = field_start(field);
    let before = escape(heap, part_of(line, 0, start))?;
    let under = escape(heap, part_of(line, start, field_width(field)))?;
    let mut out = String::new(heap);
    put_times(&mut out, before.len(), " ")?;
    put_times(&mut out, under.len(), "^")?;
    Ok(out)
}

/// The line and the mark below it, or nothing where there is no line.
pub fn line_shown(heap: Global, line: &[u8], field: u32) -> Result<String, AllocError>
    ensures { IfOk result (λ s. string_bytes s ≡ line_shown line.now field) }
{
    if line.is_empty() {
        return Ok(String::new(heap));
    }
    let shown = escape(heap, line)?;
    let mark = mark_under(heap, line, field)?;
    format!(in heap; "\n{shown}\n{mark}\n")
}

/// What is printed of a refused listing.
pub fn refusal_text(heap: Global, bytes: &[u8], refusal: Refusal) -> Result<String, AllocError>
    ensures { IfOk result (λ s. string_bytes s ≡ refusal_text bytes.now refusal) }
{
    let number = u32::from(refusal.rule);
    let line = refusal.line;
    let field = refusal.field;
    let reason = Reason::from(refusal);
    let shown = line_shown(heap, part_of(bytes, 51 * line as usize, 51), field)?;
    format!(in heap; "refusal {number}, line {line}, field {field}\n{reason}\n{shown}")
}
