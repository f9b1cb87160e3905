//! The record of an examination.

ghost use Rattle.std.specs.Prelude.{◌≡◌};
ghost use Rattle.clearance.specs.Opens.{opens_of};

use crate::outcome::ClearFault;
use leakage::LeakageModel;
use listing::Routine;
use reach::OpenNames;

/// The record of an examination; `examine` alone makes one.
#[derive(Drop)]
pub struct Examination<M: LeakageModel> {
    pub(crate) routine: Routine,
    pub(crate) model: M,
    pub(crate) opens: OpenNames,
    pub(crate) outcome: Result<(), ClearFault>,
}

impl<M: LeakageModel> Examination<M> {
    /// What came of it: nothing leaks, or the fault for which there is no clearance.
    pub fn outcome(&self) -> Result<(), ClearFault>
        ensures { result ≡ self.now.outcome }
    {
        self.outcome
    }

    /// The model that it was made under.
    pub fn model(&self) -> M
        ensures { result ≡ self.now.model }
    {
        self.model
    }

    /// The routine that was examined.
    pub fn routine(&self) -> &Routine
        ensures { result.now ≡ self.now.routine }
    {
        &self.routine
    }

    /// The routine back, as it was given.
    pub fn into_routine(self) -> Routine
        ensures { result ≡ self.routine }
    {
        self.routine
    }

    /// Whether the name is open at the point: scalar k is name k, and array t is name s + t, where there are s scalars.
    pub fn is_open(&self, point: usize, name: usize) -> bool
        ensures { result ≡ opens_of self.now.opens point name }
    {
        self.opens.contains(point, name)
    }
}
