//! A routine, written as a listing.

ghost use Rattle.std.specs.Prelude.{◌≡◌, ℕ, ◌+◌, ◌*◌, ◌<◌, ◌≤◌, length};
ghost use Rattle.lines.specs.Text.{over, line_text};
ghost use Rattle.listing.specs.Answers.{Kept, Written};
ghost use Rattle.listing.specs.Texts.{numbered};

use crate::faults::{Refusal, Rule};
use crate::parts::Listing;
use crate::routine::Routine;
use crate::text::{Lined, header_line};
use lines::{Line, line_text};

/// Writes a line at place `at` of the room.
fn put_line(line: Line, room: &mut [u8], at: usize)
    requires { at + 51 ≤ length room.old }
    ensures { room.new ≡ over at (line_text line) room.old }
{
    let text = line_text(line);
    room[at..at + 51].copy_from_slice(&text);
}

/// Writes the lines of the items from place `at` on.
fn put_lines<T: Lined>(items: &[T], room: &mut [u8], at: usize)
    requires { (at + 51 * length items.now ≤ length room.old) × (length items.now ≤ 128) }
    ensures { room.new ≡ over at (numbered T.line 0 items.now) room.old }
{
    for (number, item) in items.iter().enumerate() {
        put_line(item.line(number as u32), room, at + 51 * number);
    }
}

/// Writes the text of a listing, and answers its length in bytes.
fn write_listing(listing: &Listing, room: &mut [u8]) -> Result<usize, Refusal>
    requires { (listing.now.counts.arrays ≤ 8) × (listing.now.counts.nodes ≤ 128) }
    ensures { Written listing.now room.old room.new result }
{
    let arrays = listing.counts.arrays as usize;
    let nodes = listing.counts.nodes as usize;
    let needed = 51 * (1 + arrays + nodes);
    if room.len() < needed {
        return Err(Rule::Room.at(0, 0));
    }
    put_line(header_line(listing.counts), room, 0);
    put_lines(&listing.regions[0..arrays], room, 51);
    put_lines(&listing.nodes[0..nodes], room, 51 + 51 * arrays);
    Ok(needed)
}

/// Writes the routine's listing into the front of the room, and answers its length in bytes; refused where the room is too short.
pub fn write(routine: &Routine, room: &mut [u8]) -> Result<usize, Refusal>
    ensures is { Written routine.now.listing room.old room.new result }
    ensures keeps { Kept routine.now.listing room.new result }
{
    write_listing(&routine.listing, room)
}
