//! The reach table.

ghost use Rattle.std.specs.Prelude.{◌≡◌};
ghost use Rattle.reach.specs.Table.{at, cell};

use levels::NameSet;

/// The start names that reach each scalar at one point.
#[derive(Clone, Copy, Debug, PartialEq, Eq)]
pub struct Row {
    pub(crate) sets: [NameSet; 24],
}

impl Row {
    // The start names that reach the scalar; past the last scalar there are none.
    pub(crate) fn names(&self, scalar: usize) -> NameSet
        ensures { result ≡ at self.now scalar }
    {
        self.sets.get(scalar).copied().unwrap_or(NameSet::empty())
    }
}

// Of the largest size: nothing is allocated.

/// The start names that reach each scalar at each point.
#[derive(Clone, Copy, Debug, PartialEq, Eq)]
pub struct ReachTable {
    pub(crate) rows: [Row; 129],
}

impl ReachTable {
    /// The start names that reach the scalar at the point.
    pub fn names(&self, point: usize, scalar: usize) -> NameSet
        ensures { result ≡ cell self.now point scalar }
    {
        match self.rows.get(point) {
            Some(row) => row.names(scalar),
            None => NameSet::empty(),
        }
    }
}
