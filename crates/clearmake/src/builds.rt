//! A build, from its begin to its end.

ghost use Rattle.std.specs.Prelude.{◌≡◌, ◌≤◌};
ghost use Rattle.std.specs.Bool.{OnTrue};
ghost use mathlib.Core.List.{IsPrefix};
ghost use Rattle.cc_names.specs.declared.occasions.Next.TheVariants as nexts;
ghost use Rattle.legal_history.specs.Stories.Steps.{state_of};
ghost use Rattle.clearmake.specs.Building.{IsBuildOpened, opened_of};
ghost use Rattle.clearmake.specs.Nexts.{next_of_lane};
ghost use Rattle.clearmake.specs.Passes.{AreDone, HasBegun, IsCommandPast, IsLater, IsLaterOfBuilder, WasNext};

use crate::builder_passes::BuilderPass;
use crate::contexts::{BuildContext, PhaseContext, is_next};
use crate::services::BuildService;
use crate::turns::TurnEnd;
use cc_names::memory::NoMemory;
use cc_names::occasions::Begun;
use cc_names::rows::Tag;
use cc_outside::Hook;
use std::alloc::Global;
use std::snapshot::Snapshot;
use std::sync::Wait;
use std::thread::Threads;
use turn_lock::{Pass, Storied};

/// What a build came to: a later pass of the lock, and whether its command is finished. Else memory ran out.
#[derive(Drop)]
pub(crate) struct Built<T: Storied> {
    pub(crate) pass: Pass<T>,
    pub(crate) done: bool,
}

/// What became of the begin of a build.
pub(crate) enum Opened {
    /// The command is finished.
    Over,
    /// The build is active and has this many units.
    Units(u32),
    /// Memory ran out.
    OutOfMemory,
}

/// What a service's answer says of a build that was to begin.
fn opened_of(begun: Result<Begun, NoMemory>) -> Opened
    ensures { result ≡ opened_of begun }
{
    match begun {
        Ok(Begun::Units(count)) => Opened::Units(count),
        Ok(Begun::Refused) => Opened::Over,
        Err(NoMemory) => Opened::OutOfMemory,
    }
}

/// Begins the build of a command that was found to be built, in a turn at the service.
fn begin_at<T: BuildService>(service: &mut T, alloc: Global, tag: Tag) -> Opened
    requires { WasNext (T.story service.old) tag }
    ensures begins { IsPrefix (T.story service.old) (T.story service.new) }
    ensures opened { IsBuildOpened result (T.story service.new) tag }
{
    if !is_next(service, tag) {
        return Opened::Over;
    }
    opened_of(service.begin(alloc, tag.lane))
}

/// Takes a turn to begin the build of a command that was found to be built.
#[tactic(auto, using(crate::proofs::Steps::taken_grown, crate::proofs::Begun::was_next))]
fn begin_once<R: Wait, T: BuildService, G: Hook>(
    context: &PhaseContext<'_, R, T, G>,
    pass: Pass<T>,
    tag: Tag,
) -> (Pass<T>, Opened)
    requires own { pass.lock ≡ context.now.lock.now.id }
    requires next { next_of_lane (state_of pass.seen) tag.lane ≡ nexts.Build tag }
    ensures pass { IsLater pass result.0 }
    ensures opened { IsBuildOpened result.1 result.0.seen tag }
{
    let (held, mut service) = context.lock.take(context.rt, pass);
    let opened = begin_at(&mut service, context.alloc, tag);
    (context.lock.give(held, service), opened)
}

/// Ends a build whose units all had their outcomes, in a turn at the service. False where memory ran out.
fn end_at<R, T: BuildService, G>(
    context: &BuildContext<'_, R, T, G>,
    service: &mut T,
    seen: &Snapshot<Pass<T>>,
) -> bool
    requires begun { HasBegun (T.story service.old) context.now.tag context.now.count }
    requires begins { IsPrefix seen.now.value.seen (T.story service.old) }
    requires done { AreDone seen.now.value.seen context.now.tag context.now.count
        context.now.count }
    ensures begins { IsPrefix (T.story service.old) (T.story service.new) }
    ensures ended { OnTrue result (IsCommandPast (state_of (T.story service.new)) context.now.tag) }
{
    if !context.goes_on(service) {
        return true;
    }
    service.end(context.alloc, context.tag.lane).is_ok()
}

impl<R: Wait, T: BuildService, G: Hook> BuilderPass<'_, R, T, G> {
    /// Takes a turn to end the build, whose units all have their outcomes. False where memory ran out.
    fn end_once(self) -> (Self, bool)
        requires { AreDone self.pass.seen self.tag self.count self.count }
        ensures pass { IsLaterOfBuilder self.entry result.0 }
        ensures ended { OnTrue result.1
            (IsCommandPast (state_of result.0.pass.seen) result.0.tag) }
    {
        let BuilderPass { context, pass } = self;
        let seen = Snapshot::of(&pass);
        let (held, mut service) = context.lock.take(context.rt, pass);
        let ended = end_at(context, &mut service, &seen);
        let pass = context.lock.give(held, service);
        (BuilderPass { context, pass }, ended)
    }
}

impl<R: Threads + Wait + Sync, T: BuildService + Send, G: Hook + Sync> BuilderPass<'_, R, T, G> {
    /// Carries out the build: by so many builders, and what they leave one unit after the other. False where memory ran out.
    fn carry_out(self, jobs: u32) -> (Self, bool)
        requires { jobs ≤ self.pass.weight }
        ensures pass { IsLaterOfBuilder self.entry result.0 }
        ensures built { OnTrue result.1
            (IsCommandPast (state_of result.0.pass.seen) result.0.tag) }
    {
        let (pass, swept) = self.build_units(jobs).sweep();
        match swept {
            Ok(TurnEnd::Concluded) => pass.end_once(),
            left => (pass, left.is_ok()),
        }
    }
}

/// Carries out a command that builds: its units are run by so many builders at once, in threads of their own, and each step of
/// theirs is a turn at the service under the lock. The pass that comes back has seen a story that begins with what the
/// given pass had seen; unless memory ran out, the command is finished in it: the build was refused, it ended, or the disk
/// failed under it. Where memory runs out, a build that had begun stays active, and a later call goes on with it.
///
/// The hook is asked outside the lock, before and after each run of a script and before each of its reads. Names are found
/// by the hashing.
#[tactic(auto, using(crate::proofs::Begun::begun_here))]
pub(crate) fn build<R: Threads + Wait + Sync, T: BuildService + Send, G: Hook + Sync>(
    context: &PhaseContext<'_, R, T, G>,
    pass: Pass<T>,
    tag: Tag,
    jobs: u32,
) -> Built<T>
    requires own { pass.lock ≡ context.now.lock.now.id }
    requires next { next_of_lane (state_of pass.seen) tag.lane ≡ nexts.Build tag }
    requires jobs { (1 ≤ jobs) × (jobs ≤ pass.weight) }
    ensures pass { IsLater pass result.pass }
    ensures built { OnTrue result.done (IsCommandPast (state_of result.pass.seen) tag) }
{
    let (pass, opened) = begin_once(context, pass, tag);
    match opened {
        Opened::Over => Built { pass, done: true },
        Opened::OutOfMemory => Built { pass, done: false },
        Opened::Units(count) => {
            let context = BuildContext {
                rt: context.rt,
                alloc: context.alloc,
                hashing: context.hashing,
                lock: context.lock,
                hook: context.hook,
                tag,
                count,
            };
            let pass = BuilderPass {
                context: &context,
                pass,
            };
            let (pass, done) = pass.carry_out(jobs);
            Built {
                pass: pass.into_pass(),
                done,
            }
        }
    }
}
