//! Two runs of one examination, side by side.

ghost use Rattle.std.specs.Prelude.{◌≡◌, true, Some, MatchResult};
ghost use Rattle.rules.specs.Run.{started};
ghost use Rattle.clearance.specs.Outcomes.{is_granted, fault_of};
ghost use Rattle.run.specs.Views.{of_memory, zeroed};
ghost use Rattle.run.specs.Runs.{terms_of, state_of};
ghost use Rattle.twin.specs.Logs.{has_room, journal, stop_of, Logged};
ghost use Rattle.twin.specs.Twins.{Paired};

use crate::call::Script;
use crate::perform::perform;
use clearance::{ClearFault, Clearance, Examination, clear};
use leakage::LeakageModel;
use levels::Level;
use run::{Memory, Run, WipeTicket, close, start};

/// What there is for each of two runs.
#[derive(Drop)]
pub struct Two<T> {
    pub first: T,
    pub second: T,
}

/// A run that is still open, with its wipe ticket.
pub struct Open<'a, M: LeakageModel> {
    pub run: Run<'a, M>,
    pub ticket: WipeTicket,
}

impl<M: LeakageModel> Open<'_, M> {
    // Closes the run, with its own ticket.
    pub(crate) fn close(self) -> Memory
        ensures { result ≡ zeroed }
    {
        let Open { run, ticket } = self;
        close(run, ticket)
    }
}

/// Why no run was begun.
#[derive(Clone, Copy, Debug, PartialEq, Eq)]
pub enum Reason {
    /// A log has too little room for its calls.
    Room,
    /// There is no clearance.
    Clear(ClearFault),
}

/// Why no run was begun, with the memories as they were given.
pub struct Declined {
    pub reason: Reason,
    pub memories: Two<Memory>,
}

fn clear_twice<M: LeakageModel>(exam: &Examination<M>) -> Result<Two<Clearance<'_, M>>, ClearFault>
    ensures { MatchResult result (λ c. (c.first.exam.now ≡ exam.now) × (c.second.exam.now ≡ exam.now) × (is_granted exam.now.outcome ≡ true)) (λ f. fault_of exam.now.outcome ≡ Some f) }
{
    let first = clear(exam)?;
    let second = clear(exam)?;
    Ok(Two { first, second })
}

// Starts a run and makes the calls in their order.
fn run_script<'a, M: LeakageModel>(
    clearance: Clearance<'a, M>,
    memory: Memory,
    script: Script<'_>,
) -> Open<'a, M>
    requires { has_room script.calls.now script.answers.now script.lines.now ≡ true }
    ensures logged { Logged (terms_of M.leakage clearance.entry.exam.now) (started (of_memory memory)) (journal memory script.entry.calls.now script.entry.answers.now script.exit.1.0.now script.entry.lines.now script.exit.1.1.0.now) }
    ensures state { state_of result.run ≡ stop_of clearance.entry.exam.now.routine.listing (journal memory script.entry.calls.now script.entry.answers.now script.exit.1.0.now script.entry.lines.now script.exit.1.1.0.now) }
    ensures exam { result.run.exam.now ≡ clearance.entry.exam.now }
{
    let Script {
        calls,
        answers,
        lines,
    } = script;
    let (mut run, ticket) = start(clearance, memory);
    perform(&mut run, calls, answers, lines);
    Open { run, ticket }
}

/// Makes two lists of calls in two runs of one examination, each in its own memory and with its own log, and hands the runs back open. The
/// levels and the listener are those that it was examined for.
pub fn both<'a, L: Level, M: LeakageModel>(
    exam: &'a Examination<M>,
    levels: &[L],
    listener: L,
    memories: Two<Memory>,
    one: Script<'_>,
    two: Script<'_>,
) -> Result<Two<Open<'a, M>>, Declined>
    ensures { Paired L.order M.leakage levels.now listener exam.now (journal memories.first one.entry.calls.now one.entry.answers.now one.exit.1.0.now one.entry.lines.now one.exit.1.1.0.now) (journal memories.second two.entry.calls.now two.entry.answers.now two.exit.1.0.now two.entry.lines.now two.exit.1.1.0.now) result }
{
    // Only the contract speaks of the levels and the listener.
    let _ = levels;
    let _ = listener;
    // A script that was passed in cannot be handed on: what it holds is, in a script made anew.
    let Script {
        calls,
        answers,
        lines,
    } = one;
    let one = Script {
        calls,
        answers,
        lines,
    };
    let Script {
        calls: others,
        answers,
        lines,
    } = two;
    let two = Script {
        calls: others,
        answers,
        lines,
    };
    if !(one.has_room() & two.has_room()) {
        return Err(Declined {
            reason: Reason::Room,
            memories,
        });
    }
    let cleared = match clear_twice(exam) {
        Ok(cleared) => cleared,
        // A closure for `map_err` would take the memories in any case.
        Err(fault) => return Err(Declined {
            reason: Reason::Clear(fault),
            memories,
        }),
    };
    Ok(Two {
        first: run_script(cleared.first, memories.first, one),
        second: run_script(cleared.second, memories.second, two),
    })
}
