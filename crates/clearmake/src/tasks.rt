//! The tasks of a builder: a unit is driven, and those that it releases become tasks.

ghost use Rattle.std.specs.Prelude.{◌<◌, IfOk, IfSome};
ghost use mathlib.Core.List.{IsPrefix};
ghost use Rattle.clearmake.specs.Driving.{IsTried};
ghost use Rattle.clearmake.specs.Passes.{HasBegun, IsLaterOfBuilder};
ghost use Rattle.clearmake.specs.declared.turns.UnitTurn.TheVariants as turns;

use crate::builder_passes::BuilderPass;
use crate::contexts::BuildContext;
use crate::drives::try_at;
use crate::services::BuildService;
use crate::sweeps::UNITS_A_TURN;
use crate::task_queues::{Builder, TaskQueues};
use crate::turns::{TurnEnd, UnitTurn};
use build_script::scripts::Script;
use cc_names::lists::List;
use cc_names::memory::NoMemory;
use cc_names::paths::Path;
use cc_outside::Hook;
use std::sync::Wait;

/// A unit whose script is to be run, as it was started in a turn at the service.
#[derive(Drop)]
struct StartedUnit {
    unit: u32,
    script: Script,
    targets: List<Path>,
}

/// The units that a unit has released, in a turn at the service.
fn released_at<R, T: BuildService, G>(
    context: &BuildContext<'_, R, T, G>,
    service: &T,
    unit: u32,
) -> Option<Vec<u32>>
    requires begun { HasBegun (T.story service.now) context.now.tag context.now.count }
    requires unit { unit < context.now.count }
{
    if !context.goes_on(service) {
        return None;
    }
    service
        .released_units(context.alloc, context.tag.lane, unit)
        .ok()
}

/// Tries a unit that nobody has claimed, in a turn at the service. Whoever finds it concluded, or starts its script, claims it.
fn try_unclaimed_at<R, T: BuildService, G>(
    context: &BuildContext<'_, R, T, G>,
    queues: &TaskQueues,
    service: &mut T,
    unit: u32,
) -> Result<Option<UnitTurn>, NoMemory>
    requires begun { HasBegun (T.story service.old) context.now.tag context.now.count }
    requires unit { unit < context.now.count }
    ensures begins { IsPrefix (T.story service.old) (T.story service.new) }
    ensures tried { IfOk result
        (λ found. IfSome found
        (λ turn. IsTried turn (T.story service.new) context.now.tag context.now.count unit)) }
{
    if queues.is_claimed(unit) {
        return Ok(None);
    }
    let turn = try_at(context, service, unit)?;
    if matches!(
        turn,
        UnitTurn::End(TurnEnd::Concluded) | UnitTurn::Run(_, _)
    ) {
        queues.claim(unit);
    }
    Ok(Some(turn))
}

/// Lays tasks into a builder's deque.
fn push_all(queues: &TaskQueues, builder: &mut Builder, units: &[u32]) {
    for unit in units {
        queues.push(builder, *unit);
    }
}

/// Lays the units that a unit has released into a builder's deque, in a turn at the service.
fn push_released_at<R, T: BuildService, G>(
    context: &BuildContext<'_, R, T, G>,
    queues: &TaskQueues,
    service: &T,
    builder: &mut Builder,
    unit: u32,
)
    requires begun { HasBegun (T.story service.now) context.now.tag context.now.count }
    requires unit { unit < context.now.count }
{
    if let Some(units) = released_at(context, service, unit) {
        push_all(queues, builder, units.as_slice());
    }
}

/// Begins a task of a builder in a turn at the service: its unit is tried. Where it is found concluded, the units that it releases
/// become tasks; where its script is to be run, it is answered.
fn begin_task_at<R, T: BuildService, G>(
    context: &BuildContext<'_, R, T, G>,
    queues: &TaskQueues,
    service: &mut T,
    builder: &mut Builder,
    unit: u32,
) -> Option<StartedUnit>
    requires begun { HasBegun (T.story service.old) context.now.tag context.now.count }
    ensures begins { IsPrefix (T.story service.old) (T.story service.new) }
    ensures started { IfSome result
        (λ started.
        IsTried (turns.Run started.script started.targets) (T.story service.new)
        context.now.tag context.now.count started.unit) }
    ensures unit { IfSome result (λ started. started.unit < context.now.count) }
{
    if unit >= context.count {
        return None;
    }
    match try_unclaimed_at(context, queues, service, unit) {
        Ok(Some(UnitTurn::Run(script, targets))) => Some(StartedUnit {
            unit,
            script,
            targets,
        }),
        Ok(Some(UnitTurn::End(TurnEnd::Concluded))) => {
            push_released_at(context, queues, service, builder, unit);
            None
        }
        Ok(_) | Err(NoMemory) => None,
    }
}

/// Does tasks of a builder in one turn at the service, until the script of one is to be run, which is the task that it is at
/// then.
#[tactic(auto, using(crate::proofs::Begun::begun_on))]
fn do_tasks_at<R, T: BuildService, G>(
    context: &BuildContext<'_, R, T, G>,
    queues: &TaskQueues,
    service: &mut T,
    builder: &mut Builder,
) -> Option<StartedUnit>
    requires begun { HasBegun (T.story service.old) context.now.tag context.now.count }
    ensures begins { IsPrefix (T.story service.old) (T.story service.new) }
    ensures started { IfSome result
        (λ started.
        IsTried (turns.Run started.script started.targets) (T.story service.new)
        context.now.tag context.now.count started.unit) }
    ensures unit { IfSome result (λ started. started.unit < context.now.count) }
{
    for _ in 0..UNITS_A_TURN {
        let unit = builder.next_task()?;
        if let Some(started) = begin_task_at(context, queues, service, builder, unit) {
            return Some(started);
        }
        queues.end_task();
    }
    None
}

impl<R: Wait, T: BuildService, G: Hook> BuilderPass<'_, R, T, G> {
    /// Takes a turn to ask for the units that a unit has released, and lays them into a builder's deque.
    fn push_released(self, queues: &TaskQueues, builder: &mut Builder, unit: u32) -> Self
        requires { unit < self.count }
        ensures { IsLaterOfBuilder self.entry result }
    {
        let BuilderPass { context, pass } = self;
        let (held, service) = context.lock.take(context.rt, pass);
        push_released_at(context, queues, &service, builder, unit);
        let pass = context.lock.give(held, service);
        BuilderPass { context, pass }
    }

    /// Takes a turn to do tasks of a builder.
    fn begin_tasks(self, queues: &TaskQueues, builder: &mut Builder) -> (Self, Option<StartedUnit>)
        ensures pass { IsLaterOfBuilder self.entry result.0 }
        ensures started { IfSome result.1
            (λ started.
            IsTried (turns.Run started.script started.targets) result.0.pass.seen result.0.tag
            result.0.count started.unit) }
        ensures unit { IfSome result.1 (λ started. started.unit < result.0.count) }
    {
        let BuilderPass { context, pass } = self;
        let (held, mut service) = context.lock.take(context.rt, pass);
        let started = do_tasks_at(context, queues, &mut service, builder);
        let pass = context.lock.give(held, service);
        (BuilderPass { context, pass }, started)
    }

    /// Does tasks of a builder in one turn, and runs the script of the one that it comes to.
    pub(crate) fn do_tasks(self, queues: &TaskQueues, builder: &mut Builder) -> Self
        ensures { IsLaterOfBuilder self.entry result }
    {
        let (pass, begun) = self.begin_tasks(queues, builder);
        let Some(started) = begun else {
            return pass;
        };
        let StartedUnit {
            unit,
            script,
            targets,
        } = started;
        let runs = queues.runs_of(builder);
        let (pass, end) = pass.run_started(unit, &script, targets.as_slice(), runs);
        let pass = if end == Ok(TurnEnd::Concluded) {
            pass.push_released(queues, builder, unit)
        } else {
            pass
        };
        queues.end_task();
        pass
    }
}
