//! Tables of levels, read from a word of the call.

ghost use Rattle.std.specs.Prelude.{◌≡◌, IfOk, vec_items};
ghost use Rattle.std.specs.Option.{option_map};
ghost use Rattle.settings.specs.Tables.{two_levels_of, more_digits, owner_codes_of, codes_of};

use levels::{Owners, Secrecy};
use std::alloc::{AllocError, Global};

/// The levels of a row of digits, 0 public and 1 secret; none where another byte is among them.
pub fn two_levels(heap: Global, text: &[u8]) -> Result<Option<Vec<Secrecy>>, AllocError>
    ensures { IfOk result (λ o. option_map vec_items o ≡ two_levels_of text.now) }
{
    let mut levels = Vec::new(heap);
    for byte in text {
        let Ok(level) = Secrecy::try_from(*byte) else {
            return Ok(None);
        };
        levels.push(level)?;
    }
    Ok(Some(levels))
}

/// The code with one more digit; none where the byte is no digit or the code passes 65535.
fn more_digits(code: Option<u16>, byte: u8) -> Option<u16>
    ensures { result ≡ more_digits code byte }
{
    if !byte.is_ascii_digit() {
        return None;
    }
    let front = code.unwrap_or(0).checked_mul(10)?;
    front.checked_add(u16::from(byte - b'0'))
}

// Byte by byte, as the definition reads: a comma ends a code, and a code of no digit is none.

/// The sets of a row of codes with commas between them; none where one is no code.
pub fn owner_sets(heap: Global, text: &[u8]) -> Result<Option<Vec<Owners>>, AllocError>
    ensures { IfOk result (λ o. option_map (λ v. codes_of v.items) o ≡ owner_codes_of text.now) }
{
    let mut sets = Vec::new(heap);
    if text.is_empty() {
        return Ok(Some(sets));
    }
    let mut code = None;
    for byte in text {
        if *byte == b',' {
            let Some(set) = code else {
                return Ok(None);
            };
            sets.push(Owners { set })?;
            code = None;
        } else {
            let Some(longer) = more_digits(code, *byte) else {
                return Ok(None);
            };
            code = Some(longer);
        }
    }
    let Some(set) = code else {
        return Ok(None);
    };
    sets.push(Owners { set })?;
    Ok(Some(sets))
}
