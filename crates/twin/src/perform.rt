//! A list of calls, made in its order.

ghost use Rattle.std.specs.Prelude.{◌≡◌, true, length};
ghost use Rattle.run.specs.Runs.{terms_in, state_of, answer_to, state_past};
ghost use Rattle.twin.specs.Logs.{of_call, told, lines_in, overwritten, places as places_of, has_room, journal, Logged, last_state};

use crate::call::{Answer, Call, Reply};
use leakage::LeakageModel;
use run::{LeakLine, Run};

// One call, with the places that are its own.
fn make<M: LeakageModel>(run: &mut Run<'_, M>, call: Call, lines: &mut [LeakLine]) -> Answer
    requires { length lines.old ≡ places_of call }
    ensures answer { told result lines.new ≡ answer_to M.leakage run.old (of_call call) }
    ensures lines { lines.new ≡ overwritten (lines_in (answer_to M.leakage run.old (of_call call))) lines.old }
    ensures state { state_of run.new ≡ state_past run.old (of_call call) }
    ensures exam { run.new.exam.now ≡ run.old.exam.now }
{
    match call {
        Call::Advance(_) => Ok(Reply::Stepped(run.advance(lines))),
        Call::Feed(place, value) => {
            run.feed(place, value)?;
            Ok(Reply::Fed)
        }
        Call::Ask(place) => {
            let value = run.ask(place)?;
            Ok(Reply::Asked(value))
        }
    }
}

// The calls of a list in their order: call i writes answer i, and each advance has the next places for leak lines of its own.
pub(crate) fn perform<M: LeakageModel>(
    run: &mut Run<'_, M>,
    calls: &[Call],
    answers: &mut [Answer],
    lines: &mut [LeakLine],
)
    requires { has_room calls.now answers.old lines.old ≡ true }
    ensures logged { Logged (terms_in M.leakage run.old) (state_of run.old) (journal run.old.memory calls.now answers.old answers.new lines.old lines.new) }
    ensures state { state_of run.new ≡ last_state (terms_in M.leakage run.old).routine calls.now (state_of run.old) }
    ensures exam { run.new.exam.now ≡ run.old.exam.now }
{
    let mut used = 0;
    // By place: after a zip of the lent answers with the calls, the proof knows nothing of what they hold.
    for (i, call) in calls.iter().enumerate() {
        let end = used + call.places();
        answers[i] = make(run, *call, &mut lines[used..end]);
        used = end;
    }
}
