//! The two-run guarantee, whole: examine, clear, start, the calls of two lists, and close.

ghost use Rattle.std.specs.Prelude.{◌≡◌};
ghost use Rattle.clearance.specs.Scenes.{scene};
ghost use Rattle.twin.specs.Logs.{journal};
ghost use Rattle.twin.specs.Twins.{Tried};

use crate::call::Script;
use crate::pair::{Declined, Two, both};
use clearance::examine;
use leakage::LeakageModel;
use levels::Level;
use listing::Routine;
use run::Memory;

/// Examines the routine, starts two runs, makes the calls of each list in its own memory and with its own log, and closes both. It declines
/// where a log has too little room, and where there is no clearance.
pub fn trial<L: Level, M: LeakageModel>(
    routine: Routine,
    model: M,
    levels: &[L],
    listener: L,
    memories: Two<Memory>,
    one: Script<'_>,
    two: Script<'_>,
) -> Result<Two<Memory>, Declined>
    ensures { Tried (scene L.order (M.leakage model) routine.listing levels.now listener) (journal memories.first one.entry.calls.now one.entry.answers.now one.exit.1.0.now one.entry.lines.now one.exit.1.1.0.now) (journal memories.second two.entry.calls.now two.entry.answers.now two.exit.1.0.now two.entry.lines.now two.exit.1.1.0.now) result }
{
    // A script that was passed in cannot be handed on: what it holds is, in a script made anew.
    let Script {
        calls,
        answers,
        lines,
    } = one;
    let one = Script {
        calls,
        answers,
        lines,
    };
    let Script {
        calls,
        answers,
        lines,
    } = two;
    let two = Script {
        calls,
        answers,
        lines,
    };
    let exam = examine(routine, model, levels, listener);
    let Two { first, second } = match both(&exam, levels, listener, memories, one, two) {
        Ok(pair) => pair,
        Err(declined) => return Err(declined),
    };
    Ok(Two {
        first: first.close(),
        second: second.close(),
    })
}
