//! A number of no bound. (A struct with a ghost field stands in a file of its own.)

ghost use Rattle.std.specs.Prelude.{◌<◌};

/// A number above 1: neither the listener's level nor that of an array.
#[derive(Clone, Copy, Debug, PartialEq, Eq)]
pub struct UnnamedBound {
    pub number: u32,
    ghost none: { 1 < number },
}
