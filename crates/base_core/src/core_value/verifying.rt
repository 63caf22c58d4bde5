//! How a core tells whether its base is sound.

use super::Core;
use cc_names::memory::NoMemory;
use disk_model::Disk;
use object_check::{Verdict, verify};
use std::alloc::Global;

impl<D: Disk> Core<D> {
    ghost use Rattle.std.specs.Prelude.{IfOk};
    ghost use Rattle.legal_history.specs.Stories.Steps.{state_of};
    ghost use Rattle.object_check.specs.Verdicts.{IsVerdict};

    /// Runs the record of each live object of the base again: answers how many objects are live where each is what its record
    /// gives, else the first that is not. Fails only where memory runs out. Adds no step, changes nothing, and makes no device
    /// call.
    ///
    /// Takes the time and the memory of `object_check::verify`.
    pub fn verify(&self, alloc: Global) -> Result<Verdict, NoMemory>
        ensures { IfOk result
            (λ verdict. IsVerdict (state_of self.now.story).base verdict) }
    {
        verify(alloc, self.hashing, &self.rows())
    }
}
