//! Feed and ask.

ghost use Rattle.std.specs.Prelude.{◌≡◌};
ghost use Rattle.rules.specs.Run.{is_open};
ghost use Rattle.rules.specs.Run.Call.{Feed, Ask};
ghost use Rattle.run.specs.Views.{of_place};
ghost use Rattle.run.specs.Runs.{terms_in, state_of, answer_to, state_past, granted, asked};

use super::Run;
use crate::faults::RunFault;
use crate::memory::Place;
use crate::slots::{locate, read, write};
use leakage::LeakageModel;

impl<M: LeakageModel> Run<'_, M> {
    // Whether what a place names is open at the present point.
    fn tells(&self, place: Place) -> bool
        ensures { result ≡ is_open (terms_in M.leakage self.now) self.now.point (of_place place) }
    {
        match place {
            Place::Scalar(k) => self.exam.is_open(self.point as usize, k as usize),
            Place::Element { array, .. } => {
                let scalars = self.exam.routine().listing().counts.scalars;
                self.exam.is_open(0, scalars as usize + array as usize)
            }
        }
    }

    /// The value of a place that is open at the present point. No run is changed by it.
    pub fn ask(&self, place: Place) -> Result<u32, RunFault>
        ensures { asked result ≡ answer_to M.leakage self.now (Ask (of_place place)) }
    {
        let slot = locate(self.exam.routine(), place)?;
        if self.tells(place) {
            Ok(read(slot, &self.memory))
        } else {
            Err(RunFault::Shut)
        }
    }

    /// Writes a value into a place, open or shut. Where it is refused, the run is left as it was.
    pub fn feed(&mut self, place: Place, value: u32) -> Result<(), RunFault>
        ensures answer { granted result ≡ answer_to M.leakage self.old (Feed (of_place place) value) }
        ensures state { state_of self.new ≡ state_past self.old (Feed (of_place place) value) }
        ensures exam { self.new.exam.now ≡ self.old.exam.now }
    {
        let target = locate(self.exam.routine(), place)?;
        write(target, value, &mut self.memory);
        Ok(())
    }
}
