//! The record of a listing: what a routine is, node by node, or why the listing was refused.
#![tactic(auto)]

pub mod record;
pub mod sheet;
