//! The passes by which builders take turns at the service.

ghost use Rattle.std.specs.Prelude.{◌≡◌};

use crate::contexts::BuildContext;
use crate::services::BuildService;
use std::marker::Model;
use std::snapshot::Snapshot;
use turn_lock::Pass;

/// A builder's pass, beside what it shares with the other builders. It is a pass of their lock, and has seen their build begun.
///
/// Contracts see the pass, and which build it is.
pub(crate) struct BuilderPass<'a, R, T: BuildService, G> {
    pub(crate) context: &'a BuildContext<'a, R, T, G>,
    pub(crate) pass: Pass<T>,
}

impl<'a, R, T: BuildService, G> Model for BuilderPass<'a, R, T, G> {
    ghost use Rattle.std.specs.Prelude.{◌≡◌};
    ghost use Rattle.clearmake.specs.Passes.{BuilderState, HasBegun};

    ghost Value = { BuilderState };

    ghost view = { λ b.
        record {
          pass = b.pass;
          tag = b.context.now.tag;
          count = b.context.now.count;
        } };

    ghost invariant = { λ b.
        (b.pass.lock ≡ b.context.now.lock.now.id)
        × HasBegun b.pass.seen b.context.now.tag b.context.now.count };
}

impl<R, T: BuildService, G> BuilderPass<'_, R, T, G> {
    /// How many units the build has.
    pub(crate) fn units(&self) -> u32
        ensures { result ≡ self.now.count }
    {
        self.context.count
    }

    /// The pass as it is now, for contracts.
    pub(crate) fn snapshot(&self) -> Snapshot<Pass<T>>
        ensures { result.value ≡ self.now.pass }
    {
        Snapshot::of(&self.pass)
    }

    /// The pass by itself.
    pub(crate) fn into_pass(self) -> Pass<T>
        ensures { result ≡ self.entry.pass }
    {
        let BuilderPass { context: _, pass } = self;
        pass
    }
}
