//! Advance, by the count of its steps.

ghost use Rattle.std.specs.Prelude.{◌≡◌, length};
ghost use Rattle.listing.specs.Reading.{listing_read};
ghost use Rattle.probe.specs.Probes.{made_steps, public_scene, Probed};
ghost use Rattle.clearance.specs.Examinations.{RightOutcome};
ghost use Rattle.clearance.specs.Scenes.{setting};

use clearance::{Examination, clear, examine};
use leakage::Baseline;
use levels::Secrecy;
use listing::{Routine, load};
use run::{LeakLine, Memory, close, start};

/// Runs what was examined from a memory of zeros; the count of its steps, at most as many as the places.
fn steps_made(exam: &Examination<Baseline>, lines: &mut [LeakLine]) -> usize
    ensures { result ≡ made_steps exam.now.outcome exam.now.routine.listing (length lines.old) }
{
    let Ok(clearance) = clear(exam) else {
        return 0;
    };
    let memory = Memory {
        scalars: [0; 24],
        cells: [0; 512],
    };
    let (mut run, ticket) = start(clearance, memory);
    let advanced = run.advance(lines);
    let _ = close(run, ticket);
    advanced.count
}

/// The examination of the routine with every name public, the listener too, under the baseline.
fn public_exam(routine: Routine) -> Examination<Baseline>
    ensures keeps { result.routine ≡ routine }
    ensures right { RightOutcome (setting (public_scene routine.listing)) result.outcome }
{
    let counts = routine.listing().counts;
    // Nothing is allocated: no listing has more than 32 names.
    let table = [Secrecy::Public; 32];
    let names = (counts.scalars + counts.arrays) as usize;
    examine(routine, Baseline, &table[0..names], Secrecy::Public)
}

/// Runs the listing, with all public, from a memory of zeros, one step for each place; the count of the steps.
pub fn probe_advance(listing: &[u8], lines: &mut [LeakLine]) -> usize
    ensures { Probed (listing_read listing.now) (length lines.old) result }
{
    // The count is what the C function answers, 0 where nothing is run: this is its body, and probe_c gives it its C name.
    match load(listing) {
        Ok(routine) => steps_made(&public_exam(routine), lines),
        Err(_) => 0,
    }
}
