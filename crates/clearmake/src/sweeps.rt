//! The units of a build one after the other, each driven to its outcome.

ghost use Rattle.std.specs.Prelude.{◌<◌, ◌≤◌, IfOk};
ghost use mathlib.Core.List.{IsPrefix};
ghost use Rattle.clearmake.specs.Building.{IsSwept};
ghost use Rattle.clearmake.specs.Driving.{IsDriven, IsTried};
ghost use Rattle.clearmake.specs.Passes.{AreDone, HasBegun, IsLaterOfBuilder, WereDone};

use crate::builder_passes::BuilderPass;
use crate::contexts::BuildContext;
use crate::drives::try_at;
use crate::services::BuildService;
use crate::turns::{TurnEnd, UnitTurn};
use cc_names::memory::NoMemory;
use cc_outside::Hook;
use std::sync::Wait;

/// How many units are tried at most in one turn at the service, so that other threads come to theirs.
pub(crate) const UNITS_A_TURN: u32 = 16;

/// A unit that was tried last in a turn, and what became of it.
#[derive(Drop)]
struct LastTried {
    unit: u32,
    turn: Result<UnitTurn, NoMemory>,
}

/// Tries units in a turn at the service, from the first one on, as long as they are found concluded.
#[tactic(auto, using(crate::proofs::Begun::begun_on, crate::proofs::Driving::were_on))]
fn try_units_at<R, T: BuildService, G>(
    context: &BuildContext<'_, R, T, G>,
    service: &mut T,
    first: u32,
) -> LastTried
    requires begun { HasBegun (T.story service.old) context.now.tag context.now.count }
    requires unit { first < context.now.count }
    requires done { WereDone (T.story service.old) context.now.tag context.now.count first }
    ensures begins { IsPrefix (T.story service.old) (T.story service.new) }
    ensures first { first ≤ result.unit }
    ensures unit { result.unit < context.now.count }
    ensures done { WereDone (T.story service.new) context.now.tag context.now.count
        result.unit }
    ensures tried { IfOk result.turn
        (λ turn.
        IsTried turn (T.story service.new) context.now.tag context.now.count result.unit) }
{
    let last = (context.count - 1).min(first.saturating_add(UNITS_A_TURN - 1));
    for unit in first..last {
        match try_at(context, service, unit) {
            Ok(UnitTurn::End(TurnEnd::Concluded)) => {}
            turn => return LastTried { unit, turn },
        }
    }
    let turn = try_at(context, service, last);
    LastTried { unit: last, turn }
}

impl<R: Wait, T: BuildService, G: Hook> BuilderPass<'_, R, T, G> {
    /// Takes a turn to try units, from the first one on.
    fn try_units(self, first: u32) -> (Self, LastTried)
        requires unit { first < self.count }
        requires done { AreDone self.pass.seen self.tag self.count first }
        ensures pass { IsLaterOfBuilder self.entry result.0 }
        ensures first { first ≤ result.1.unit }
        ensures unit { result.1.unit < result.0.count }
        ensures done { WereDone result.0.pass.seen result.0.tag result.0.count result.1.unit }
        ensures tried { IfOk result.1.turn
            (λ turn.
            IsTried turn result.0.pass.seen result.0.tag result.0.count result.1.unit) }
    {
        let BuilderPass { context, pass } = self;
        let (held, mut service) = context.lock.take(context.rt, pass);
        let tried = try_units_at(context, &mut service, first);
        let pass = context.lock.give(held, service);
        (BuilderPass { context, pass }, tried)
    }

    /// Drives units from the first one on, until a script was run or one has no outcome. Answers the last of them, and what became
    /// of it.
    fn drive_from(self, first: u32) -> (Self, u32, Result<TurnEnd, NoMemory>)
        requires unit { first < self.count }
        requires done { AreDone self.pass.seen self.tag self.count first }
        ensures pass { IsLaterOfBuilder self.entry result.0 }
        ensures first { first ≤ result.1 }
        ensures unit { result.1 < result.0.count }
        ensures done { WereDone result.0.pass.seen result.0.tag result.0.count result.1 }
        ensures driven { IfOk result.2
            (λ end. IsDriven end result.0.pass.seen result.0.tag result.0.count result.1) }
    {
        let (pass, tried) = self.try_units(first);
        let LastTried { unit, turn } = tried;
        match turn {
            Ok(UnitTurn::Run(script, targets)) => {
                let (pass, end) = pass.run_started(unit, &script, targets.as_slice(), None);
                (pass, unit, end)
            }
            Ok(UnitTurn::End(end)) => (pass, unit, Ok(end)),
            Err(NoMemory) => (pass, unit, Err(NoMemory)),
        }
    }

    /// Drives each unit of the build that has no outcome yet, in their order: so none is left that waits for another. Where each
    /// has its outcome they are concluded; else the build is over.
    pub(crate) fn sweep(self) -> (Self, Result<TurnEnd, NoMemory>)
        ensures pass { IsLaterOfBuilder self.entry result.0 }
        ensures swept { IfOk result.1
            (λ end. IsSwept end result.0.pass.seen result.0.tag result.0.count) }
    {
        let mut pass = self;
        let mut next = 0;
        while next < pass.units() {
            let (later, unit, driven) = pass.drive_from(next);
            pass = later;
            if driven != Ok(TurnEnd::Concluded) {
                return (pass, driven);
            }
            next = unit + 1;
        }
        (pass, Ok(TurnEnd::Concluded))
    }
}
