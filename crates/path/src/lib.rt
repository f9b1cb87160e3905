//! By which way a start name reaches a scalar at a point, and a leak its operand.
#![tactic(auto)]

mod hunt;
mod hunting;
mod leaking;
mod place;
mod steps;
#[cfg(test)]
mod tests;
mod tracing;
mod way;

pub use leaking::leak_path;
pub use place::{Origin, Path, Place};
pub use tracing::path_to;
