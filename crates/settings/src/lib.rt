//! What a clearing is set to: the model, and the levels, by their names.
#![tactic(auto)]

pub mod model;
pub mod named;
pub mod owner_names;
pub mod reading;
pub mod secrecy_names;
pub mod tables;
#[cfg(test)]
mod tests;
