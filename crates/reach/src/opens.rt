//! The names that are open at each point.

ghost use Rattle.std.specs.Prelude.{◌≡◌, ℕ, ◌+◌, ◌<◌, ◌≤◌, ◌↔◌, length};
ghost use Rattle.levels.specs.Names.{Has, has};
ghost use Rattle.reach.specs.Table.{at};
ghost use Rattle.reach.specs.Opens.{open_at, NoneOpen, OpensBy};

use crate::reading::counts_of;
use crate::table::{ReachTable, Row};
use levels::NameSet;
use listing::Routine;

// Of the largest size: nothing is allocated.

/// For each point the names that are open there: scalar k is name k, and array t is name s + t, where there are s scalars.
#[derive(Clone, Copy, Debug, PartialEq, Eq)]
pub struct OpenNames {
    at: [NameSet; 129],
}

impl OpenNames {
    /// No name is open at any point.
    pub fn none() -> OpenNames
        ensures none { NoneOpen result }
        ensures long { length result.at ≡ 129 }
    {
        let empty = NameSet::empty();
        OpenNames { at: [empty; 129] }
    }

    /// Whether the name is open at the point.
    pub fn contains(&self, point: usize, name: usize) -> bool
        ensures { result ≡ has (open_at self.now point) name }
    {
        let names = self.at.get(point).copied();
        names.unwrap_or(NameSet::empty()).contains(name)
    }
}

// The scalars that only heard names reach, by the row of a point.
fn open_scalars(routine: &Routine, row: &Row, heard: NameSet) -> NameSet
    ensures { (x : ℕ) → (Has result x ↔ ((x < routine.now.listing.counts.scalars) × ((name : ℕ) → Has (at row.now x) name → Has heard name))) }
{
    let counts = counts_of(routine);
    let mut opens = NameSet::empty();
    for scalar in 0..counts.scalars as usize {
        if row.sets[scalar].is_subset(heard) {
            opens = opens.union(NameSet::single(scalar));
        }
    }
    opens
}

// The arrays that are heard.
fn open_arrays(routine: &Routine, heard: NameSet) -> NameSet
    ensures { (x : ℕ) → (Has result x ↔ ((routine.now.listing.counts.scalars ≤ x) × (x < routine.now.listing.counts.scalars + routine.now.listing.counts.arrays) × Has heard x)) }
{
    let counts = counts_of(routine);
    let mut opens = NameSet::empty();
    for name in counts.scalars as usize..(counts.scalars + counts.arrays) as usize {
        if heard.contains(name) {
            opens = opens.union(NameSet::single(name));
        }
    }
    opens
}

/// The names that are open at each point of the routine by a reach table, where the heard names are those that flow to the listener.
pub fn open_names(routine: &Routine, table: &ReachTable, heard: NameSet) -> OpenNames
    ensures { OpensBy routine.now.listing table.now heard result }
{
    let counts = counts_of(routine);
    let rows = &table.rows[..counts.nodes as usize + 1];
    // The same at each point, so they are looked for once.
    let arrays = open_arrays(routine, heard);
    let mut opens = OpenNames::none();
    // Written by index: nothing is known of sets that are written through a zip.
    for (point, row) in rows.iter().enumerate() {
        opens.at[point] = open_scalars(routine, row, heard).union(arrays);
    }
    opens
}
