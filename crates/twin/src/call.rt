//! Calls, their answers, and the calls of one run with their log.

ghost use Rattle.std.specs.Prelude.{◌≡◌};
ghost use Rattle.twin.specs.Logs.{places as places_of, has_room};

use run::{Advanced, LeakLine, Place, RunFault};

/// One call of a run.
#[derive(Clone, Copy, Debug, PartialEq, Eq)]
pub enum Call {
    /// Advance, with so many places for leak lines.
    Advance(u32),
    /// Feed a value to a place.
    Feed(Place, u32),
    /// Ask for the value of a place.
    Ask(Place),
}

/// What a call tells that is not refused.
#[derive(Clone, Copy, Debug, PartialEq, Eq)]
pub enum Reply {
    Stepped(Advanced),
    Fed,
    Asked(u32),
}

/// What a call answered.
pub type Answer = Result<Reply, RunFault>;

/// The calls of one run in their order, and the two rooms of their log: an answer for each call, and for each advance the next places for
/// its own leak lines.
#[derive(Drop)]
pub struct Script<'l> {
    pub calls: &'l [Call],
    pub answers: &'l mut [Answer],
    pub lines: &'l mut [LeakLine],
}

impl Call {
    // The places for leak lines that a call has.
    pub(crate) fn places(self) -> usize
        ensures { result ≡ places_of self }
    {
        match self {
            Call::Advance(n) => n as usize,
            Call::Feed(..) | Call::Ask(_) => 0,
        }
    }
}

impl Script<'_> {
    // Whether the two rooms have a place for each answer and each leak line.
    pub(crate) fn has_room(&self) -> bool
        ensures { result ≡ has_room self.now.calls.now self.now.answers.now self.now.lines.now }
    {
        if self.calls.len() > self.answers.len() {
            return false;
        }
        let mut left = self.lines.len();
        for call in self.calls {
            let Some(rest) = left.checked_sub(call.places()) else {
                return false;
            };
            left = rest;
        }
        true
    }
}
