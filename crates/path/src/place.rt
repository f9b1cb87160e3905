//! A way from a start name to a scalar at a point. (What reads it stands in a file of its own, as a struct with a ghost field asks.)

ghost use Rattle.std.specs.Prelude.{◌≤◌};

/// A scalar at a point.
#[derive(Debug, Clone, Copy, PartialEq, Eq)]
pub struct Place {
    pub point: u32,
    pub scalar: u32,
}

// Two ways to begin, and no lack of one: an Option of a node would call the first of them nothing.

/// How a start name comes to its first place: as a scalar at the start of the run, or as an array that a node reads.
#[derive(Debug, Clone, Copy, PartialEq, Eq)]
pub enum Origin {
    Start,
    Read { node: u32 },
}

/// A way: from each place the node there carries the name on to the next. There is room for the longest way, so that none can fail for memory.
#[derive(Debug, Clone, Copy, PartialEq, Eq)]
pub struct Path {
    pub(crate) origin: Origin,
    pub(crate) places: [Place; 3096],
    pub(crate) count: usize,
    ghost within: { count ≤ 3096 },
}
