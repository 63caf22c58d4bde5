//! A core in one phase, as lanes and builders ask it; behind a lock once a lane builds.

use base_core::Core;
use build_script::files::Got;
use build_script::outcomes::Ended;
use cc_names::memory::NoMemory;
use cc_names::occasions::{Begun, Next};
use cc_names::paths::Path;
use cc_names::steps::StoryStep;
use clearmake::{BuildService, PhaseService, TurnEnd, UnitTurn};
use disk_model::Disk;
use std::alloc::Global;
use std::marker::{Brand, Model, PhantomData};
use turn_lock::Storied;

/// How a core stood as its phase had begun, fixed by a type: what a lock keeps of its value beside the story is what the value's
/// type says. Where this is a parameter, the proof of a call that passes `Brand` picks what it is.
pub(crate) trait Beginning {
    ghost use Rattle.base_core.specs.Story.Shown.{Shown};

    ghost at: { Shown };
}

impl Beginning for Brand {
    ghost use Rattle.std.specs.Prelude.{[], None, false};

    ghost at = { record {
      story = [];
      ghost_state = record { modeled = None; ticks = 0; faults = 0 };
      tail = record { place = 0; settled = false };
    } };
}

/// A core in a phase, of which `P` fixes how it stood as the phase had begun. It has the calls that stay in a phase, and no
/// other. Contracts see it as the core.
pub(crate) struct PhaseCore<D: Disk, P: Beginning> {
    pub(crate) core: Core<D>,
    pub(crate) of: PhantomData<P>,
}

impl<D: Disk, P: Beginning> Model for PhaseCore<D, P> {
    ghost use Rattle.base_core.specs.Story.Shown.{Shown};
    ghost use Rattle.session_run.specs.Running.Since.{IsSince};

    ghost Value = { Shown };

    ghost view = { λ service. service.core };

    ghost invariant = { λ service. IsSince P.at service.core };
}

impl<D: Disk, P: Beginning> Storied for PhaseCore<D, P> {
    type Step = StoryStep;

    ghost story = { λ service. service.story };
}

impl<D: Disk, P: Beginning> BuildService for PhaseCore<D, P> {
    fn legal(&self) {
        self.core.legal();
    }

    fn next(&self, lane: u32) -> Next {
        self.core.next(lane)
    }

    fn act(&mut self, alloc: Global, lane: u32) -> Result<(), NoMemory> {
        self.core.act(alloc, lane)?;
        Ok(())
    }

    fn jobs(&self, alloc: Global, lane: u32) -> Result<u32, NoMemory> {
        self.core.jobs(alloc, lane)
    }

    fn begin(&mut self, alloc: Global, lane: u32) -> Result<Begun, NoMemory> {
        self.core.begin(alloc, lane)
    }

    fn try_unit(&mut self, alloc: Global, lane: u32, unit: u32) -> Result<UnitTurn, NoMemory> {
        self.core.try_unit(alloc, lane, unit)
    }

    fn fetch(&self, alloc: Global, lane: u32, unit: u32, path: &Path) -> Got {
        self.core.fetch(alloc, lane, unit, path)
    }

    fn finish_unit(
        &mut self,
        alloc: Global,
        lane: u32,
        unit: u32,
        ended: Ended,
    ) -> Result<TurnEnd, NoMemory> {
        self.core.finish_unit(alloc, lane, unit, ended)
    }

    fn released_units(&self, alloc: Global, lane: u32, unit: u32) -> Result<Vec<u32>, NoMemory> {
        self.core.released_units(alloc, lane, unit)
    }

    fn end(&mut self, alloc: Global, lane: u32) -> Result<(), NoMemory> {
        self.core.end(alloc, lane)
    }
}

impl<D: Disk, P: Beginning> PhaseService for PhaseCore<D, P> {
    ghost use Rattle.legal_history.specs.Stories.Steps.{state_of};

    ghost number = { (state_of P.at.story).number };

    fn in_phase(&self) {
        // The clause follows from the service's invariant, which is at hand once a field is looked at.
        let _core = &self.core;
    }
}
