//! The run of a cleared routine: started with a clearance, advanced, fed and asked, and closed.
#![tactic(auto)]

mod faults;
mod memory;
mod run;
mod slots;
mod step;
mod steps;

pub use faults::RunFault;
pub use memory::{Advanced, LeakLine, Memory, Place};
pub use run::starting::{close, start};
pub use run::{Run, WipeTicket};
