//! What is read: a file, or standard input.

use crate::failure::Failure;
use std::alloc::Global;
use std::fs::File;
use std::io;
use std::io::Read;

/// The most bytes that are taken.
const MOST_BYTES: usize = 65536;

/// The bytes of the input, at most one more than are taken.
fn read_some<R: Read + Drop>(heap: Global, input: R) -> io::Result<Vec<u8>> {
    let mut bytes = Vec::new(heap);
    let mut front = input.take(65537);
    front.read_to_end(&mut bytes)?;
    Ok(bytes)
}

fn read_named(rt: &HostRuntime, name: &str) -> io::Result<Vec<u8>> {
    if name == "-" {
        return read_some(rt.alloc(), rt.stdin());
    }
    let file = File::open(rt, name)?;
    read_some(rt.alloc(), file)
}

/// What the input is called.
fn shown_name(name: &str) -> &str {
    if name == "-" { "standard input" } else { name }
}

/// All bytes of the file, or of standard input where the name is `-`.
pub fn read(rt: &HostRuntime, name: &str) -> Result<Vec<u8>, Failure> {
    let heap = rt.alloc();
    let shown = shown_name(name);
    let bytes = read_named(rt, name).try_map_err(|error| {
        let text = format!(in heap; "cannot read {shown}: {error}")?;
        Ok(Failure::Input { text })
    })?;
    if bytes.len() <= MOST_BYTES {
        return Ok(bytes);
    }
    let text = format!(in heap;
        "{shown} has more than {MOST_BYTES} bytes, and no listing has so many"
    )?;
    Err(Failure::Input { text })
}
