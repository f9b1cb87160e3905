//! A listing, loaded as a routine.

ghost use Rattle.std.specs.Prelude.{◌≡◌};
ghost use Rattle.listing.specs.Answers.{Reads, LoadAnswer};

use crate::faults::RoutineFault;
use crate::reading::read_listing;
use crate::routine::Routine;

/// Loads a listing, or says the first rule that it breaks.
pub fn load(bytes: &[u8]) -> Result<Routine, RoutineFault>
    ensures is { Reads bytes.now result }
    ensures means { LoadAnswer bytes.now result }
{
    let listing = read_listing(bytes)?;
    Ok(Routine { listing })
}
