//! Load, clear and advance, each by a number, beside the verdict, so that each can be timed. C programs call them through probe_c.
#![tactic(auto)]

mod clearing;
mod loading;
mod stepping;

pub use clearing::probe_clear;
pub use loading::probe_load;
pub use stepping::probe_advance;
pub use verdict::verdict;
