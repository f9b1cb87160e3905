//! The hunt for a way. (A struct with a ghost field stands in a file of its own.)

ghost use Rattle.std.specs.Prelude.{◌≡◌, ◌+◌};
ghost use Rattle.path.specs.Seen.{unseen};

use crate::place::Place;

// A place that was found, and the entry that it leads on to.
#[derive(Debug, Clone, Copy, PartialEq, Eq)]
pub(crate) struct Entry {
    pub(crate) place: Place,
    pub(crate) next: usize,
}

// The places found so far, and for each place whether it is one of them. There is room for each place of the largest routine, so that
// a hunt cannot run out of memory.
#[derive(Debug, Clone, Copy, PartialEq, Eq)]
pub(crate) struct Hunt {
    pub(crate) entries: [Entry; 3096],
    pub(crate) seen: [bool; 3096],
    pub(crate) count: usize,
    ghost rest: { count + unseen seen ≡ 3096 },
}
