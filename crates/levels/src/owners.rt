//! The type alone: a struct with a ghost field stands in a file of its own.

ghost use Rattle.std.specs.Prelude.{◌^◌, ◌<◌};

/// A set of 16 owners: bit k stands where owner k is in it.
#[derive(Clone, Copy, Debug, PartialEq, Eq)]
pub struct Owners {
    pub set: u16,
    ghost within: { set < 2 ^ 16 },
}
