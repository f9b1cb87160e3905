//! A node that closes a part. (A struct with a ghost field stands in a file of its own.)

ghost use Rattle.std.specs.Prelude.{◌<◌};

/// What a node closes: the first part of an if, its second, or the body of a while.
#[derive(Clone, Copy, Debug, PartialEq, Eq)]
pub(crate) enum Part {
    Then,
    Otherwise,
    Body,
}

/// Node `at`, which closes a part and names the node `named`: an else its end, an end its head.
#[derive(Clone, Copy, Debug, PartialEq, Eq)]
pub(crate) struct Closer {
    pub(crate) at: u32,
    pub(crate) part: Part,
    pub(crate) named: u32,
    ghost within: { at < 128 },
}
