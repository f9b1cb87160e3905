//! The texts that the records share: what a node does, why a listing was refused, and how a line of it is shown.
#![tactic(auto)]

pub mod escape;
pub mod layout;
pub mod refused;
pub mod sentence;
pub mod words;
