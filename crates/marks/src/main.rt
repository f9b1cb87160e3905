//! Standard input to verdict slip: level digits up to the first newline, then a listing.
#![tactic(auto)]

use std::io;
use std::io::{Read, Write};
use verdict::slip_on;

/// The most bytes that are taken.
const MOST_BYTES: u64 = 65536;

fn main(rt: HostRuntime) -> io::Result<()> {
    let mut input = Vec::new(rt.alloc());
    rt.stdin().take(MOST_BYTES).read_to_end(&mut input)?;
    let slip = slip_on(input.as_slice());
    rt.stdout().write_all(&slip)
}
