//! The run of a unit's script, outside the lock.

ghost use mathlib.Core.List.{IsPrefix};
ghost use Rattle.legal_history.specs.Stories.Steps.{state_of};
ghost use Rattle.clearmake.specs.Calls.{IsStarted};
ghost use Rattle.clearmake.specs.Outside.{RanSo};
ghost use Rattle.clearmake.specs.Passes.{Builds, IsLaterOfBuilder};

use crate::builder_passes::BuilderPass;
use crate::locked_files::LockedFiles;
use crate::script_runs::{ScriptRuns, note_change};
use crate::services::BuildService;
use build_script::files::GivenUp;
use build_script::outcomes::Ended;
use build_script::run::run;
use build_script::scripts::Script;
use cc_names::memory::Or;
use cc_names::paths::Path;
use cc_outside::Hook;
use std::snapshot::Snapshot;
use std::sync::Wait;
use turn_lock::Pass;

impl<R: Wait, T: BuildService, G: Hook> BuilderPass<'_, R, T, G> {
    /// Runs the script of a unit that was started, on what the unit sees. Each read is a turn of its own at the service, and
    /// between the reads the lock is free. The hook is told of the run, with the unit's first target, and of each read.
    ///
    /// Given up where memory runs out, and where a read finds the build over.
    pub(crate) fn run_outside<'s>(
        self,
        start: &'s Snapshot<Pass<T>>,
        unit: u32,
        script: &Script,
        targets: &'s [Path],
        runs: Option<&'s ScriptRuns>,
    ) -> (Self, Result<Ended, Or<GivenUp>>)
        requires begins { IsPrefix start.now.value.seen self.pass.seen }
        requires builds { Builds start.now.value.seen self.tag self.count }
        requires started { IsStarted (state_of start.now.value.seen) self.tag.lane unit script.now
            targets.now }
        ensures pass { IsLaterOfBuilder self.entry result.0 }
        ensures ran { RanSo result.1 (state_of start.now.value.seen) result.0.tag unit
            result.0.pass.seen }
    {
        let BuilderPass { context, pass } = self;
        let root = Path::root();
        let target = targets.first().unwrap_or(&root);
        let mut files = LockedFiles {
            context: &*context,
            start,
            unit,
            target,
            runs,
            pass: Some(pass),
            broken: 0,
        };
        note_change(runs);
        context.hook.enter(context.tag.lane, target);
        let ran = run(context.alloc, context.hashing, script, targets, &mut files);
        context.hook.leave(context.tag.lane, target);
        note_change(runs);
        let LockedFiles {
            context: _,
            start: _,
            unit: _,
            target: _,
            runs: _,
            pass,
            broken: _,
        } = files;
        match pass {
            Some(pass) => (BuilderPass { context, pass }, ran),
            None => unreachable!(),
        }
    }
}
