//! Clearance: a routine is examined under a leakage model, and a clearance is handed out where nothing leaks.
#![tactic(auto)]

mod clearing;
mod examining;
mod grant;
mod leak;
mod least;
mod outcome;
mod record;
mod search;
mod unnamed;

pub use clearing::clear;
pub use examining::examine;
pub use grant::Clearance;
pub use leak::{Bound, LeakSite};
pub use least::level_at;
pub use outcome::ClearFault;
pub use record::Examination;
pub use unnamed::UnnamedBound;
