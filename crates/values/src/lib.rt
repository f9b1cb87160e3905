//! A text of start values, read as the memory of a run.
//!
//! One `scalar K V` or `array J I V` to a line, the words parted by blanks or tabs; `#` begins a comment, which ends with its line. What is
//! not named is 0.
#![tactic(auto)]

mod draft;
mod entry;
mod faults;
mod reading;
mod words;

pub use faults::{Reason, ValuesFault};
pub use reading::read_values;
