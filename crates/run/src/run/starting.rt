//! Start and close.

ghost use Rattle.std.specs.Prelude.{◌≡◌, true, false};
ghost use Rattle.rules.specs.Run.{started};
ghost use Rattle.clearance.specs.Outcomes.{is_granted};
ghost use Rattle.run.specs.Views.{of_memory, zeroed};
ghost use Rattle.run.specs.Runs.{state_of};

use super::{Run, WipeTicket};
use crate::memory::Memory;
use clearance::Clearance;
use leakage::LeakageModel;

/// Starts a run at point 0, in the memory as it is given. It uses the clearance up, and refuses nothing.
pub fn start<'a, M: LeakageModel>(
    clearance: Clearance<'a, M>,
    memory: Memory,
) -> (Run<'a, M>, WipeTicket)
    ensures exam { result.0.exam.now ≡ clearance.entry.exam.now }
    ensures granted { is_granted result.0.exam.now.outcome ≡ true }
    ensures state { state_of result.0 ≡ started (of_memory memory) }
    ensures unspent { result.1.spent ≡ false }
{
    let run = Run {
        exam: clearance.spend(),
        point: 0,
        memory,
    };
    (run, WipeTicket { spent: false })
}

/// Ends the run, spends the ticket, and gives the memory back with zero in every scalar and every cell. Nothing is said of bytes that moving
/// a memory may have left elsewhere.
pub fn close<M: LeakageModel>(run: Run<'_, M>, mut ticket: WipeTicket) -> Memory
    ensures { result ≡ zeroed }
{
    ticket.spent = true;
    let Run {
        exam: _,
        point: _,
        mut memory,
    } = run;
    memory.scalars = [0; 24];
    memory.cells = [0; 512];
    memory
}
