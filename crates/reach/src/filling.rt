//! The reach table of a routine.

ghost use Rattle.std.specs.Prelude.{◌≡◌, ℕ, ◌<◌, ◌≤◌, ◌↔◌};
ghost use Rattle.levels.specs.Names.{Has};
ghost use Rattle.listing.specs.Forms.{routine_of};
ghost use Rattle.reach.specs.Table.{at, TellsReach};
ghost use Rattle.reach.specs.Work.{Started};

use crate::reading::counts_of;
use crate::table::{ReachTable, Row};
use crate::work::Work;
use levels::NameSet;
use listing::Routine;

fn empty_row() -> Row
    ensures { (k name : ℕ) → Has (at result k) name → ⊥ }
{
    let empty = NameSet::empty();
    Row { sets: [empty; 24] }
}

// Start name k reaches scalar k.
fn start_row(scalars: usize) -> Row
    requires { scalars ≤ 24 }
    ensures { (k name : ℕ) → (Has (at result k) name ↔ ((k ≡ name) × (name < scalars))) }
{
    let mut row = empty_row();
    // Written by index: nothing is known of a row's sets once a part of it was lent out.
    for k in 0..scalars {
        row.sets[k] = NameSet::single(k);
    }
    row
}

// Start name k reaches scalar k at point 0, and every point is pending.
fn started(scalars: usize) -> Work
    requires { scalars ≤ 24 }
    ensures { Started scalars result }
{
    let empty = empty_row();
    let mut table = ReachTable { rows: [empty; 129] };
    table.rows[0] = start_row(scalars);
    Work {
        table,
        pending: [true; 129],
    }
}

/// The start names that reach each scalar at each point, exactly.
pub fn reach(routine: &Routine) -> ReachTable
    ensures { TellsReach (routine_of routine.now.listing) result }
{
    let counts = counts_of(routine);
    let mut work = started(counts.scalars as usize);
    while work.sweep(routine) {}
    work.table
}
