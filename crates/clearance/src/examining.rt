//! The examination of a routine.

ghost use Rattle.std.specs.Prelude.{◌≡◌};
ghost use Rattle.clearance.specs.Scenes.{scene};
ghost use Rattle.clearance.specs.Examinations.{Examined};

use crate::outcome::{ClearFault, outcome_of};
use crate::record::Examination;
use crate::search::Search;
use leakage::LeakageModel;
use levels::{Level, flowing};
use listing::Routine;
use reach::{OpenNames, counts_of, open_names, reach};

// The table and the listener are two things that a caller has apart, and only this call and the search take both.

/// Examines the routine under the model, with a table of start levels and the listener's level. It cannot refuse.
pub fn examine<L: Level, M: LeakageModel>(
    routine: Routine,
    model: M,
    levels: &[L],
    listener: L,
) -> Examination<M>
    ensures keeps { (result.routine ≡ routine) × (result.model ≡ model) }
    ensures tells { Examined (scene L.order (M.leakage model) routine.listing levels.now listener) result }
{
    let counts = counts_of(&routine);
    if levels.len() != (counts.scalars + counts.arrays) as usize {
        return Examination {
            routine,
            model,
            opens: OpenNames::none(),
            outcome: Err(ClearFault::TableLength),
        };
    }
    let table = reach(&routine);
    let heard = flowing(levels, listener);
    let opens = open_names(&routine, &table, heard);
    let search = Search {
        routine: &routine,
        model,
        levels,
        listener,
        table: &table,
        heard,
    };
    let outcome = outcome_of(search.first_leak());
    Examination {
        routine,
        model,
        opens,
        outcome,
    }
}
