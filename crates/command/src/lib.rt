//! The call of the fitters' program: which command, on which file, with which options.
#![tactic(auto)]

mod calling;
mod draft;
mod options;
mod steps;
mod telling;
mod words;

pub use calling::{Call, CallFault, call_of};
pub use options::Options;
pub use steps::{MOST_STEPS, steps_of};
pub use telling::{USAGE, fault_text, word_at};
pub use words::{OptionName, Verb};
