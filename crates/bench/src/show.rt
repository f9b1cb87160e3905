//! The command `show`: a listing, node by node, or why it is refused.

use crate::failure::Failure;
use crate::input::read;
use report::sheet::{NotShown, show};

/// Shows the listing in the file.
pub fn run(rt: &HostRuntime, file: &str) -> Result<(), Failure> {
    let bytes = read(rt, file)?;
    match show(rt.alloc(), bytes.as_slice()) {
        Ok(text) => {
            rt.print(text)?;
            Ok(())
        }
        Err(NotShown::Refused { text }) => {
            rt.print(text)?;
            Err(Failure::Refused)
        }
        Err(NotShown::NoMemory) => Err(Failure::Stuck),
    }
}
