//! What the lanes of a phase share, and the builders of a build.

ghost use Rattle.std.specs.Prelude.{◌≡◌};
ghost use Rattle.std.specs.Bool.{OnTrue, OnFalse};
ghost use Rattle.cc_names.specs.declared.occasions.Next.TheVariants as nexts;
ghost use Rattle.legal_history.specs.Stories.Lawful.{Legal};
ghost use Rattle.legal_history.specs.Stories.Steps.{state_of};
ghost use Rattle.clearmake.specs.Nexts.{next_of_lane};
ghost use Rattle.clearmake.specs.Passes.{Builds, HasBegun, IsCommandPast, WasNext};

use crate::services::BuildService;
use cc_names::occasions::Next;
use cc_names::rows::Tag;
use std::alloc::Global;
use std::hash::RandomState;
use turn_lock::{Storied, TurnLock};

/// What the lanes of a phase share: the lock around the service, and the hook.
#[derive(Drop)]
pub(crate) struct PhaseContext<'a, R, T: Storied, G> {
    pub(crate) rt: &'a R,
    pub(crate) alloc: Global,
    pub(crate) hashing: RandomState,
    pub(crate) lock: &'a TurnLock<T>,
    pub(crate) hook: &'a G,
}

/// What the builders of a build share: the lock around the service, the hook, and the build, whose command is the one of this
/// tag, with its number of units.
#[derive(Drop)]
pub(crate) struct BuildContext<'a, R, T: BuildService, G> {
    pub(crate) rt: &'a R,
    pub(crate) alloc: Global,
    pub(crate) hashing: RandomState,
    pub(crate) lock: &'a TurnLock<T>,
    pub(crate) hook: &'a G,
    pub(crate) tag: Tag,
    pub(crate) count: u32,
}

/// Whether a command that was found to be built is its lane's next still. Else it is finished.
#[tactic(auto, using(crate::proofs::Begun::next_past))]
pub(crate) fn is_next<T: BuildService>(service: &T, tag: Tag) -> bool
    requires { WasNext (T.story service.now) tag }
    ensures legal { Legal (T.story service.now) }
    ensures next { OnTrue result
        (next_of_lane (state_of (T.story service.now)) tag.lane ≡ nexts.Build tag) }
    ensures past { OnFalse result (IsCommandPast (state_of (T.story service.now)) tag) }
{
    service.legal();
    service.next(tag.lane) == Next::Build(tag)
}

impl<R, T: BuildService, G> BuildContext<'_, R, T, G> {
    /// Whether the build goes on. Else its command is finished.
    #[tactic(auto, using(crate::proofs::Begun::begun_builds, crate::proofs::Begun::begun_next))]
    pub(crate) fn goes_on(&self, service: &T) -> bool
        requires { HasBegun (T.story service.now) self.now.tag self.now.count }
        ensures legal { Legal (T.story service.now) }
        ensures on { OnTrue result (Builds (T.story service.now) self.now.tag self.now.count) }
        ensures past { OnFalse result
            (IsCommandPast (state_of (T.story service.now)) self.now.tag) }
    {
        is_next(service, self.tag)
    }
}
