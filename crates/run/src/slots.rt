//! Where a memory holds what a place names.

ghost use Rattle.std.specs.Prelude.{◌≡◌};
ghost use Rattle.listing.specs.Forms.{routine_of};
ghost use Rattle.run.specs.Views.{of_memory, of_place};
ghost use Rattle.run.specs.Slots.{Located, Inside, held, with_slot};

use crate::faults::RunFault;
use crate::memory::{Memory, Place};
use listing::Routine;
use reach::region_at;

// One number of a memory.
#[derive(Clone, Copy)]
pub enum Slot {
    Scalar(usize),
    Cell(usize),
}

// The slot that a place of the routine names.
pub(crate) fn locate(routine: &Routine, place: Place) -> Result<Slot, RunFault>
    ensures { Located (routine_of routine.now.listing) (of_place place) result }
{
    let counts = routine.listing().counts;
    match place {
        Place::Scalar(k) => {
            if k >= counts.scalars {
                return Err(RunFault::NoScalar);
            }
            Ok(Slot::Scalar(k as usize))
        }
        Place::Element { array, index } => {
            if array >= counts.arrays {
                return Err(RunFault::NoArray);
            }
            let region = region_at(routine, array as usize);
            if index >= region.length {
                return Err(RunFault::NoElement);
            }
            Ok(Slot::Cell((region.start + index) as usize))
        }
    }
}

// A memory is lent as `&` where it is read and as `&mut` where it is written, so `read` and `write` each match on the slot.
pub(crate) fn read(slot: Slot, memory: &Memory) -> u32
    requires { Inside slot }
    ensures { result ≡ held slot (of_memory memory.now) }
{
    match slot {
        Slot::Scalar(k) => memory.scalars[k],
        Slot::Cell(j) => memory.cells[j],
    }
}

pub(crate) fn write(slot: Slot, value: u32, memory: &mut Memory)
    requires { Inside slot }
    ensures { of_memory memory.new ≡ with_slot slot value (of_memory memory.old) }
{
    match slot {
        Slot::Scalar(k) => memory.scalars[k] = value,
        Slot::Cell(j) => memory.cells[j] = value,
    }
}
