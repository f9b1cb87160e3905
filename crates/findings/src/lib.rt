//! What a clearing finds: the record of a clearance or a leak.
#![tactic(auto)]

mod finding;
mod leaking;
mod scene;
mod way;

pub use finding::{NotCleared, clear_listing};
