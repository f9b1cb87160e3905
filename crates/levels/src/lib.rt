//! Levels of secrecy: the orders that they stand in, sets of start names, and tables of start levels.
#![tactic(auto)]

mod level;
mod name_set;
mod owners;
mod owners_order;
mod pair;
mod secrecy;
mod table;

pub use level::Level;
pub use name_set::NameSet;
pub use owners::Owners;
pub use pair::Pair;
pub use secrecy::{Secrecy, UnknownLevel};
pub use table::{flowing, join_of};
