//! Why a command failed.

use crate::arguments::USAGE;
use std::alloc::AllocError;
use std::io;

/// Why a command failed.
#[derive(Drop)]
pub enum Failure {
    /// The program was called wrongly.
    Misuse { text: String },
    /// What was to be read cannot be had.
    Input { text: String },
    /// The listing is refused; standard output says why.
    Refused,
    /// There is no memory left, or nothing can be written.
    Stuck,
}

impl From<AllocError> for Failure {
    fn from(_error: AllocError) -> Self {
        Failure::Stuck
    }
}

impl From<io::Error> for Failure {
    fn from(_error: io::Error) -> Self {
        Failure::Stuck
    }
}

/// Says on standard error what went wrong.
pub fn tell(rt: &HostRuntime, failure: &Failure) {
    let _ = match failure {
        Failure::Misuse { text } => eprint!(rt; "bench: {text}\n\n{USAGE}"),
        Failure::Input { text } => eprintln!(rt; "bench: {text}"),
        Failure::Refused => Ok(()),
        Failure::Stuck => eprintln!(rt; "bench: no memory left, or nothing can be written"),
    };
}
