//! Load, by its number.

ghost use Rattle.std.specs.Prelude.{◌≡◌};
ghost use Rattle.listing.specs.Reading.{listing_read};
ghost use Rattle.probe.specs.Probes.{load_number};

use listing::{Refusal, load};

/// Loads the listing; 0, or the number of the refusal.
pub fn probe_load(listing: &[u8]) -> u32
    ensures { result ≡ load_number (listing_read listing.now) }
{
    // The number is what the C function answers: this is its body, and probe_c gives it its C name.
    match load(listing) {
        Ok(_) => 0,
        Err(fault) => u32::from(Refusal::from(fault).rule),
    }
}
