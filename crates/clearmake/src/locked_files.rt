//! The files of a run, read through the lock.

ghost use Rattle.std.specs.Prelude.{◌≡◌};
ghost use mathlib.Core.List.{IsPrefix};
ghost use Rattle.legal_history.specs.Stories.Lawful.{Legal};
ghost use Rattle.legal_history.specs.Stories.Steps.{state_of};
ghost use Rattle.clearmake.specs.Calls.{WasStarted};
ghost use Rattle.clearmake.specs.Outside.{ReadsStanding};
ghost use Rattle.clearmake.specs.Passes.{Builds};
ghost use Rattle.clearmake.specs.FoundTexts.{sees};

use crate::contexts::BuildContext;
use crate::script_runs::{ScriptRuns, note_change};
use crate::services::BuildService;
use build_script::files::{Files, Got};
use cc_names::paths::Path;
use cc_outside::Hook;
use std::marker::Model;
use std::snapshot::Snapshot;
use std::sync::Wait;
use turn_lock::Pass;

/// The files that a unit's script sees, each read in a turn of its own at the service. Other threads take turns between the
/// reads; what the unit sees is the same at each.
pub(crate) struct LockedFiles<'s, 'a, R: Wait, T: BuildService, G: Hook> {
    pub(crate) context: &'s BuildContext<'a, R, T, G>,
    pub(crate) start: &'s Snapshot<Pass<T>>,
    pub(crate) unit: u32,
    pub(crate) target: &'s Path,
    pub(crate) runs: Option<&'s ScriptRuns>,
    pub(crate) pass: Option<Pass<T>>,
    pub(crate) broken: u64,
}

impl<'s, 'a, R: Wait, T: BuildService, G: Hook> Model for LockedFiles<'s, 'a, R, T, G> {
    ghost use Rattle.clearmake.specs.Outside.{IsReading, Reading, pass_or};

    ghost Value = { Reading };

    ghost view = { λ f.
        record {
          pass = pass_or f.context.now.lock.now.id f.pass;
          start = f.start.now.value.seen;
          tag = f.context.now.tag;
          count = f.context.now.count;
          unit = f.unit;
          broken = f.broken;
        } };

    ghost invariant = { λ f.
        IsReading f.context.now.lock.now.id f.pass
        (record {
          pass = pass_or f.context.now.lock.now.id f.pass;
          start = f.start.now.value.seen;
          tag = f.context.now.tag;
          count = f.context.now.count;
          unit = f.unit;
          broken = f.broken;
        }) };
}

/// What a unit that was started finds at a path, in a turn at the service. Broken where the build is over.
#[tactic(auto, using(crate::proofs::Rereads::reads_same, crate::proofs::Rereads::started_now, crate::proofs::Begun::has_begun))]
fn read_at<R: Wait, T: BuildService, G: Hook>(
    context: &BuildContext<'_, R, T, G>,
    service: &T,
    start: &Snapshot<Pass<T>>,
    unit: u32,
    path: &Path,
) -> Got
    requires begins { IsPrefix start.now.value.seen (T.story service.now) }
    requires builds { Builds start.now.value.seen context.now.tag context.now.count }
    requires started { WasStarted (state_of start.now.value.seen) context.now.tag.lane unit }
    ensures legal { Legal (T.story service.now) }
    ensures read { ReadsStanding result
        (sees (state_of start.now.value.seen) context.now.tag.lane unit path.now)
        (T.story service.now)
        context.now.tag }
{
    if !context.goes_on(service) {
        return Got::Broken;
    }
    service.fetch(context.alloc, context.tag.lane, unit, path)
}

impl<R: Wait, T: BuildService, G: Hook> Files for LockedFiles<'_, '_, R, T, G> {
    ghost use Rattle.clearmake.specs.Outside.{Follows};
    ghost use Rattle.clearmake.specs.ReadingLaws.{follows_itself, follows_on};

    ghost stands = { λ f. sees (state_of f.start) f.tag.lane f.unit };

    ghost broken = { λ f. f.broken };

    ghost follows = { λ paths before after. Follows before after };

    fn read(&mut self, path: &Path) -> Got {
        self.context
            .hook
            .read(self.context.tag.lane, self.target, path);
        let Some(pass) = self.pass.take() else {
            unreachable!()
        };
        note_change(self.runs);
        let (held, service) = self.context.lock.take(self.context.rt, pass);
        let got = read_at(self.context, &service, self.start, self.unit, path);
        self.pass = Some(self.context.lock.give(held, service));
        note_change(self.runs);
        if let Got::Broken = got {
            self.broken = self.broken.saturating_add(1);
        }
        got
    }

    ghost reflexive = { λ paths files. follows_itself files };

    ghost transitive = { λ paths one two three first second.
        follows_on one two three first second };
}
