//! The lines that the bytes of a listing are cut into.

ghost use Rattle.std.specs.Prelude.{◌≡◌, ◌+◌, ◌*◌, ◌≤◌, length};
ghost use Rattle.lines.specs.Lines.{line_read, part};
ghost use Rattle.listing.specs.Nodes.{Within, node_line};

use crate::parts::Counts;
use lines::{ColumnFault, Line, read_line};

/// The bytes of a listing, and the counts that its header gives; the bytes have a line for all that is counted.
#[derive(Clone, Copy)]
pub(crate) struct Source<'a> {
    pub(crate) bytes: &'a [u8],
    pub(crate) counts: Counts,
    ghost within: { Within bytes.now counts },
}

impl Source<'_> {
    /// The line of node `number`.
    pub(crate) fn line_of(&self, number: u32) -> u32
        requires { number ≤ 128 }
        ensures { result ≡ node_line self.now.counts number }
    {
        1 + self.counts.arrays + number
    }
}

/// The bytes of line `line`.
fn line_at(bytes: &[u8], line: u32) -> &[u8; 51]
    requires { 51 * line + 51 ≤ length bytes.now }
    ensures { result.now ≡ part (51 * line) 51 bytes.now }
{
    let (lines, _) = bytes.as_chunks::<51>();
    &lines[line as usize]
}

/// Line `line`, by its columns.
pub(crate) fn read_line_at(bytes: &[u8], line: u32) -> Result<Line, ColumnFault>
    requires { 51 * line + 51 ≤ length bytes.now }
    ensures { result ≡ line_read (part (51 * line) 51 bytes.now) line }
{
    read_line(line_at(bytes, line), line)
}
