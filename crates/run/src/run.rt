//! A run, and its wipe ticket. (A struct with a ghost field stands in a file of its own.)

ghost use Rattle.std.specs.Prelude.{◌≡◌, ◌≤◌, true};

use crate::memory::Memory;
use clearance::Examination;
use leakage::LeakageModel;

mod places;
pub mod starting;
mod stepping;

/// A run of what an examination granted, in a memory of its own. It stands at a point of the routine.
#[derive(Drop)]
pub struct Run<'a, M: LeakageModel> {
    exam: &'a Examination<M>,
    point: u32,
    memory: Memory,
    ghost within: { point ≤ exam.now.routine.listing.counts.nodes },
}

/// The promise that a run's memory will be wiped: `start` hands one out, and `close` alone spends it. One that is not spent cannot be let
/// go, so there is one close for each start; a ticket does not say of which run it is.
pub struct WipeTicket {
    spent: bool,
}

impl Drop for WipeTicket {
    fn drop(self)
        requires { self.spent ≡ true }
    {
        let WipeTicket { spent: _ } = self;
    }
}
