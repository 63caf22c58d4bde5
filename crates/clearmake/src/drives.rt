//! A unit of a build is driven to its outcome: it is tried in a turn at the service, its script runs outside the lock, and in a
//! further turn it is finished.

ghost use Rattle.std.specs.Prelude.{◌<◌, IfOk};
ghost use mathlib.Core.List.{IsPrefix};
ghost use Rattle.build_script.specs.Ended.{ran_of};
ghost use Rattle.legal_history.specs.Stories.Steps.{state_of};
ghost use Rattle.clearmake.specs.Calls.{IsRunOfUnit, IsStarted};
ghost use Rattle.clearmake.specs.Driving.{IsDriven, IsTried};
ghost use Rattle.clearmake.specs.Passes.{Builds, HasBegun, IsLaterOfBuilder};

use crate::builder_passes::BuilderPass;
use crate::contexts::BuildContext;
use crate::script_runs::ScriptRuns;
use crate::services::BuildService;
use crate::turns::{TurnEnd, UnitTurn};
use build_script::files::GivenUp;
use build_script::outcomes::Ended;
use build_script::scripts::Script;
use cc_names::memory::{NoMemory, Or};
use cc_names::paths::Path;
use cc_outside::Hook;
use std::snapshot::Snapshot;
use std::sync::Wait;
use turn_lock::Pass;

/// Tries a unit, in a turn at the service.
pub(crate) fn try_at<R, T: BuildService, G>(
    context: &BuildContext<'_, R, T, G>,
    service: &mut T,
    unit: u32,
) -> Result<UnitTurn, NoMemory>
    requires begun { HasBegun (T.story service.old) context.now.tag context.now.count }
    requires unit { unit < context.now.count }
    ensures begins { IsPrefix (T.story service.old) (T.story service.new) }
    ensures tried { IfOk result
        (λ turn. IsTried turn (T.story service.new) context.now.tag context.now.count unit) }
{
    if !context.goes_on(service) {
        return Ok(UnitTurn::End(TurnEnd::Over));
    }
    let turn = service.try_unit(context.alloc, context.tag.lane, unit);
    service.legal();
    turn
}

/// Finishes a unit whose script was run, in a turn at the service.
#[tactic(auto, using(crate::proofs::Begun::has_begun))]
fn finish_at<R, T: BuildService, G>(
    context: &BuildContext<'_, R, T, G>,
    service: &mut T,
    start: &Snapshot<Pass<T>>,
    unit: u32,
    ended: Ended,
) -> Result<TurnEnd, NoMemory>
    requires begins { IsPrefix start.now.value.seen (T.story service.old) }
    requires builds { Builds start.now.value.seen context.now.tag context.now.count }
    requires ran { IsRunOfUnit (state_of start.now.value.seen) context.now.tag.lane unit
        (ran_of ended) }
    ensures begins { IsPrefix (T.story service.old) (T.story service.new) }
    ensures driven { IfOk result
        (λ end. IsDriven end (T.story service.new) context.now.tag context.now.count unit) }
{
    if !context.goes_on(service) {
        return Ok(TurnEnd::Over);
    }
    let end = service.finish_unit(context.alloc, context.tag.lane, unit, ended);
    service.legal();
    end
}

impl<R: Wait, T: BuildService, G: Hook> BuilderPass<'_, R, T, G> {
    /// Takes a turn to finish a unit.
    fn finish_once(
        self,
        start: &Snapshot<Pass<T>>,
        unit: u32,
        ended: Ended,
    ) -> (Self, Result<TurnEnd, NoMemory>)
        requires begins { IsPrefix start.now.value.seen self.pass.seen }
        requires builds { Builds start.now.value.seen self.tag self.count }
        requires ran { IsRunOfUnit (state_of start.now.value.seen) self.tag.lane unit
            (ran_of ended) }
        ensures pass { IsLaterOfBuilder self.entry result.0 }
        ensures driven { IfOk result.1
            (λ end. IsDriven end result.0.pass.seen result.0.tag result.0.count unit) }
    {
        let BuilderPass { context, pass } = self;
        let (held, mut service) = context.lock.take(context.rt, pass);
        let end = finish_at(context, &mut service, start, unit, ended);
        let pass = context.lock.give(held, service);
        (BuilderPass { context, pass }, end)
    }

    /// Runs the script of a unit that was started, outside the lock, and finishes the unit. The runs of its builder, where it is
    /// one of several, tell the others that it is at a script.
    pub(crate) fn run_started(
        self,
        unit: u32,
        script: &Script,
        targets: &[Path],
        runs: Option<&ScriptRuns>,
    ) -> (Self, Result<TurnEnd, NoMemory>)
        requires builds { Builds self.pass.seen self.tag self.count }
        requires started { IsStarted (state_of self.pass.seen) self.tag.lane unit script.now
            targets.now }
        ensures pass { IsLaterOfBuilder self.entry result.0 }
        ensures driven { IfOk result.1
            (λ end. IsDriven end result.0.pass.seen result.0.tag result.0.count unit) }
    {
        let start = self.snapshot();
        let (pass, ran) = self.run_outside(&start, unit, script, targets, runs);
        match ran {
            Ok(ended) => pass.finish_once(&start, unit, ended),
            Err(Or::Is(GivenUp::Broken)) => (pass, Ok(TurnEnd::Over)),
            Err(Or::NoMemory) => (pass, Err(NoMemory)),
        }
    }
}
