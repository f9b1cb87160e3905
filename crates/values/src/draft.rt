//! The values that are given so far, to each place once.

ghost use Rattle.std.specs.Prelude.{◌≡◌, ◌<◌, length, map, unwrap_or};
ghost use Rattle.values.specs.Values.{empty_draft, put_once, put, put_line, outcome, memory_of};

use crate::entry::{Entry, entry_of};
use crate::faults::Reason;
use listing::Routine;
use reach::{counts_of, region_at};
use run::Memory;

// The value of each scalar and each cell, where one is given.
#[derive(Drop)]
pub struct Draft {
    // Nothing is allocated: as many places as a memory has.
    pub scalars: [Option<u32>; 24],
    pub cells: [Option<u32>; 512],
}

// Gives a place its value, once.
fn put_once(places: &mut [Option<u32>], place: usize, value: u32) -> Result<(), Reason>
    requires { place < length places.old }
    ensures { outcome result places.new ≡ put_once place value places.old }
{
    if places[place].is_some() {
        return Err(Reason::GivenTwice);
    }
    places[place] = Some(value);
    Ok(())
}

// Puts the value of each place into the row, and 0 where none is given.
fn put_all(places: &[Option<u32>], row: &mut [u32])
    requires { length row.old ≡ length places.now }
    ensures { row.new ≡ map (λ v. unwrap_or v 0) places.now }
{
    // By place: of values that are written through a zip nothing is known, and with the array's own `map` a call costs over three times as much.
    for (place, value) in places.iter().enumerate() {
        row[place] = value.unwrap_or(0);
    }
}

impl Draft {
    pub(crate) fn empty() -> Draft
        ensures { result ≡ empty_draft }
    {
        Draft {
            scalars: [None; 24],
            cells: [None; 512],
        }
    }

    // Gives a place of the routine its value. What is asked of a place is what a run asks too, but the refusals are reasons of a text, told with its line.
    fn put(&mut self, routine: &Routine, entry: Entry) -> Result<(), Reason>
        ensures { outcome result self.new ≡ put routine.now.listing entry self.old }
    {
        let counts = counts_of(routine);
        match entry {
            Entry::Scalar { scalar, value } => {
                if scalar >= counts.scalars {
                    return Err(Reason::NoScalar);
                }
                put_once(&mut self.scalars, scalar as usize, value)
            }
            Entry::Element {
                array,
                index,
                value,
            } => {
                if array >= counts.arrays {
                    return Err(Reason::NoArray);
                }
                let region = region_at(routine, array as usize);
                if index >= region.length {
                    return Err(Reason::NoElement);
                }
                put_once(&mut self.cells, (region.start + index) as usize, value)
            }
        }
    }

    // Does what the line says.
    pub(crate) fn put_line(&mut self, routine: &Routine, line: &[u8]) -> Result<(), Reason>
        ensures { outcome result self.new ≡ put_line routine.now.listing line.now self.old }
    {
        match entry_of(line)? {
            Some(entry) => self.put(routine, entry),
            None => Ok(()),
        }
    }

    // The values, and 0 where none is given.
    pub(crate) fn memory(&self) -> Memory
        ensures { result ≡ memory_of self.now }
    {
        let mut memory = Memory {
            scalars: [0; 24],
            cells: [0; 512],
        };
        put_all(&self.scalars, &mut memory.scalars);
        put_all(&self.cells, &mut memory.cells);
        memory
    }
}
