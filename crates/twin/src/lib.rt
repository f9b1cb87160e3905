//! Lists of calls with their logs, and two runs side by side: what the listener hears of both is the same.
#![tactic(auto)]

mod call;
mod pair;
mod perform;
#[cfg(test)]
mod tests;
mod trying;

pub use call::{Answer, Call, Reply, Script};
pub use pair::{Declined, Open, Reason, Two, both};
pub use trying::trial;
