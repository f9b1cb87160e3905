//! Load, clear and advance as C functions, so that each can be timed from outside. The verdict's own C function stands in verdict_c.
#![tactic(auto)]

ghost use Rattle.std.specs.Prelude.{◌≡◌, length};
ghost use Rattle.listing.specs.Reading.{listing_read};
ghost use Rattle.probe.specs.Probes.{ClearNumber, load_number, Probed};

use run::LeakLine;

/// Loads the listing; 0, or the number of the refusal.
#[unsafe(no_mangle)]
pub extern "C" fn probe_load(listing: &[u8]) -> u32
    ensures { result ≡ load_number (listing_read listing.now) }
{
    probe::probe_load(listing)
}

/// Loads the listing and clears it as the verdict does: 0 where it is cleared, 11 where it leaks, and else the number of the refusal.
#[unsafe(no_mangle)]
pub extern "C" fn probe_clear(levels: &[u8], listing: &[u8]) -> u32
    ensures { ClearNumber levels.now listing.now result }
{
    probe::probe_clear(levels, listing)
}

/// Runs the listing, with all public, from a memory of zeros, one step for each place; the count of the steps.
#[unsafe(no_mangle)]
pub extern "C" fn probe_advance(listing: &[u8], lines: &mut [LeakLine]) -> usize
    ensures { Probed (listing_read listing.now) (length lines.old) result }
{
    probe::probe_advance(listing, lines)
}
