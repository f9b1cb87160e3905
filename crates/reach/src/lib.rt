//! Which start names reach which scalar at which point, and which names are open there.
#![tactic(auto)]

mod filling;
mod merge;
mod next;
mod opens;
mod passing;
mod reading;
mod table;
mod work;

pub use filling::reach;
pub use next::leads_to;
pub use opens::{OpenNames, open_names};
pub use reading::{counts_of, node_at, region_at};
pub use table::ReachTable;
