//! What a core answers the builders of a lane's build.

use super::Core;
use build_core::{fetch_for_unit, released_units};
use build_script::files::Got;
use cc_names::memory::NoMemory;
use cc_names::paths::Path;
use disk_model::Disk;
use std::alloc::Global;

impl<D: Disk> Core<D> {
    ghost use Rattle.std.specs.Prelude.{◌≡◌, ◌<◌, ◌≤◌, ℕ, Some, IfOk};
    ghost use Rattle.cc_names.specs.declared.occasions.Next.TheVariants as nexts;
    ghost use Rattle.legal_history.specs.Stories.Commanded.{next_command_of};
    ghost use Rattle.legal_history.specs.Stories.States.{next_tag};
    ghost use Rattle.legal_history.specs.Stories.Steps.{state_of};
    ghost use Rattle.clearmake.specs.Calls.{IsBuilding, WasStarted, released_units};
    ghost use Rattle.clearmake.specs.Nexts.{jobs_of, next_of_lane};
    ghost use Rattle.clearmake.specs.FoundTexts.{IsFetched, sees};

    /// How many units at once a lane's next command, which builds, asks to have built. Takes what reading the command takes.
    pub fn jobs(&self, alloc: Global, lane: u32) -> Result<u32, NoMemory>
        requires { next_of_lane (state_of self.now.story) lane
            ≡ nexts.Build (next_tag (state_of self.now.story) lane) }
        ensures asked { IfOk result
            (λ jobs. jobs_of (next_command_of (state_of self.now.story) lane) ≡ Some jobs) }
        ensures within { IfOk result (λ jobs. (1 ≤ jobs) × (jobs ≤ 64)) }
    {
        let asked = self.asked_build(alloc, lane)?;
        Ok(asked.jobs)
    }

    /// What a unit of a lane's build that was started finds at a path, which is the same at every moment since its start, or
    /// want of memory. Never broken.
    ///
    /// Takes one look-up of the path, and a copy of the text; and what the closure of the unit takes, where there was no memory
    /// for it at the unit's start.
    pub fn fetch(&self, alloc: Global, lane: u32, unit: u32, path: &Path) -> Got
        requires { WasStarted (state_of self.now.story) lane unit }
        ensures { IsFetched result (sees (state_of self.now.story) lane unit path.now) }
    {
        fetch_for_unit(alloc, &self.rows(), self.build_at(lane), unit, path)
    }

    /// The units that a unit of a lane's build has released, in their order: those without an outcome that need it, and of
    /// which every unit that they need has its outcome. Fails only where memory runs out.
    ///
    /// Takes time linear in the units that need it and in the prerequisites of these.
    pub fn released_units(&self, alloc: Global, lane: u32, unit: u32) -> Result<Vec<u32>, NoMemory>
        requires { (count : ℕ) × IsBuilding (state_of self.now.story) lane count × (unit < count) }
        ensures { IfOk result
            (λ units. units.items ≡ released_units (state_of self.now.story) lane unit) }
    {
        released_units(alloc, self.build_at(lane), unit)
    }
}
