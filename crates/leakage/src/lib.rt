//! Leakage models: what a listener hears of each step.
#![tactic(auto)]

mod baseline;
mod cache_line;
mod model;
mod program_counter;
mod time_variable;

pub use baseline::Baseline;
pub use cache_line::CacheLine;
pub use model::LeakageModel;
pub use program_counter::ProgramCounter;
pub use time_variable::TimeVariable;
