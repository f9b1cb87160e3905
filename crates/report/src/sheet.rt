//! What is shown of a listing: the record of what was loaded, or why it was refused.

ghost use Rattle.std.specs.Prelude.{◌≡◌, ◌++◌, length, IfOk, string_bytes};
ghost use Rattle.std.specs.Str.{bytes_eq};
ghost use Rattle.listing.specs.Texts.{listing_text};
ghost use Rattle.report.specs.declared.sheet.NotShown.TheVariants.{NoMemory};
ghost use Rattle.report.specs.Records.{record_text};
ghost use Rattle.report.specs.Sheets.{back_text, listing_of, Shown};

use crate::record::record_text;
use listing::{Routine, load, write};
use std::alloc::{AllocError, Global};
use texts::refused::refusal_text;

/// The most bytes that a listing has: a header, 8 arrays and 128 nodes.
const MOST_BYTES: usize = 6987;

/// Why there is no record of a listing.
#[derive(Debug, Drop)]
pub enum NotShown {
    /// It is refused, and the text says why.
    Refused { text: String },
    /// There is no memory left.
    NoMemory,
}

impl From<AllocError> for NotShown {
    ghost from_gives = { λ _ reason. reason ≡ NoMemory };

    fn from(_error: AllocError) -> NotShown {
        NotShown::NoMemory
    }
}

/// Whether the routine, written as a listing, is these bytes.
pub fn writes_back(routine: &Routine, bytes: &[u8]) -> bool
    ensures { result ≡ bytes_eq (listing_text (listing_of routine.now)) bytes.now }
{
    // A routine is written into memory that the caller has, room for the longest listing.
    let mut room = [0; MOST_BYTES];
    let Ok(length) = write(routine, &mut room) else {
        return false;
    };
    &room[0..length] == bytes
}

/// Says whether what was written back is what was read.
fn back_text(heap: Global, same: bool, count: usize) -> Result<String, AllocError>
    ensures { IfOk result (λ s. string_bytes s ≡ back_text same count) }
{
    if same {
        format!(in heap; "\nWritten back: {count} bytes, identical to what was read.\n")
    } else {
        String::from_str(heap, "\nWritten back: other bytes than were read.\n")
    }
}

/// What is shown of a routine that was loaded from these bytes.
fn loaded_text(heap: Global, routine: &Routine, bytes: &[u8]) -> Result<String, AllocError>
    ensures { IfOk result (λ s. string_bytes s ≡ record_text (listing_of routine.now) ++ back_text (bytes_eq (listing_text (listing_of routine.now)) bytes.now) (length bytes.now)) }
{
    let record = record_text(heap, routine.listing())?;
    let back = back_text(heap, writes_back(routine, bytes), bytes.len())?;
    format!(in heap; "{record}{back}")
}

/// Loads the listing and shows it, or says why it is refused.
pub fn show(heap: Global, bytes: &[u8]) -> Result<String, NotShown>
    ensures { Shown bytes.now result }
{
    match load(bytes) {
        Ok(routine) => Ok(loaded_text(heap, &routine, bytes)?),
        Err(fault) => {
            let text = refusal_text(heap, bytes, fault.into())?;
            Err(NotShown::Refused { text })
        }
    }
}
