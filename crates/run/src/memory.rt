//! The memory of a run, what its calls name, and what they answer.

/// The memory of a run: the scalars, and the cells in which the arrays lie.
#[derive(Debug, PartialEq, Eq, Drop)]
pub struct Memory {
    // Nothing is allocated: a routine has at most so many scalars and cells.
    pub scalars: [u32; 24],
    pub cells: [u32; 512],
}

/// What is fed and asked for: a scalar, or an element of an array.
#[derive(Clone, Copy, Debug, PartialEq, Eq)]
pub enum Place {
    Scalar(u32),
    Element { array: u32, index: u32 },
}

/// What a step shows to the listener: its node, and the mark.
#[derive(Clone, Copy, Debug, PartialEq, Eq)]
#[repr(C)]
pub struct LeakLine {
    pub node: u32,
    pub mark: u32,
}

/// What advance answers: the count of lines written, and whether the run stands at the end.
#[derive(Clone, Copy, Debug, PartialEq, Eq)]
pub struct Advanced {
    pub count: usize,
    pub at_end: bool,
}
