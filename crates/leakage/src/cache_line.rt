//! The models that hear the cache line of each access.

ghost use Rattle.std.specs.Prelude.{◌≡◌, ◌<◌};
ghost use Rattle.rules.specs.Standing.{cache_line};
ghost use Rattle.leakage.specs.Lines.{line_cells};
ghost use Rattle.leakage.specs.Honesty.{cache_line_honest};

use crate::model::LeakageModel;
use rules::{Operator, Region, Side};

/// Lines of 16 or of 8 cells: watches the index into an array that lies in more than one line; operators are unwatched.
#[derive(Clone, Copy, Debug, PartialEq, Eq)]
pub enum CacheLine {
    Sixteen,
    Eight,
}

impl CacheLine {
    /// How many cells a line has.
    pub fn cells(self) -> u32
        ensures is { result ≡ line_cells self }
        ensures some { 0 < result }
    {
        match self {
            CacheLine::Sixteen => 16,
            CacheLine::Eight => 8,
        }
    }
}

impl LeakageModel for CacheLine {
    ghost leakage = { λ line. cache_line (line_cells line) };

    ghost honest = { cache_line_honest };

    fn watches_operand(self, _operator: Operator, _side: Side) -> bool {
        false
    }

    fn operator_mark(self, _operator: Operator, _left: u32, _right: u32) -> u32 {
        0
    }

    fn watches_index(self, region: Region) -> bool {
        let cells = self.cells();
        region.start / cells != (region.start + region.length - 1) / cells
    }

    fn access_mark(self, region: Region, index: u32) -> u32 {
        (region.start + index) / self.cells()
    }
}
