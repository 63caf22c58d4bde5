//! The builders of a build, on threads.

ghost use Rattle.std.specs.Prelude.{◌≡◌, ◌≤◌, length};
ghost use Rattle.std.specs.Thread.{IsSync};
ghost use Rattle.clearmake.specs.Passes.{HasBegun, IsLater, IsLaterOfBuilder};

use crate::builder_passes::BuilderPass;
use crate::contexts::BuildContext;
use crate::services::BuildService;
use crate::task_queues::{Builder, TaskQueues, deal, make_builders};
use cc_outside::Hook;
use std::sync::Wait;
use std::thread::{Threads, join};
use turn_lock::Pass;

impl<R: Wait, T: BuildService, G: Hook> BuilderPass<'_, R, T, G> {
    /// One builder: does its own tasks and those that it steals, until none is left with anyone.
    fn build_share(self, queues: &TaskQueues, builder: &mut Builder) -> Self
        ensures { IsLaterOfBuilder self.entry result }
    {
        let rt = self.context.rt;
        let mut pass = self;
        for _ in rt.forever() {
            if queues.has_task(rt, builder) {
                pass = pass.do_tasks(queues, builder);
            } else if queues.is_done() {
                break;
            }
        }
        pass
    }
}

impl<R: Threads + Wait + Sync, T: BuildService + Send, G: Hook + Sync> BuilderPass<'_, R, T, G> {
    /// The work of these builders, half of them in another thread.
    fn build_shares(self, queues: &TaskQueues, builders: &mut [Builder]) -> Self
        requires { length builders.old ≤ self.pass.weight }
        ensures { IsLaterOfBuilder self.entry result }
    {
        if let [builder] = builders {
            return self.build_share(queues, builder);
        }
        if builders.is_empty() {
            return self;
        }
        let others = builders.len() / 2;
        let (here, there) = builders.split_at_mut(builders.len() - others);
        let BuilderPass { context, pass } = self;
        let (one, two) = context.lock.split(pass);
        // The closures hold what the context refers to, and not the context: then it is known that they may cross threads.
        let rt = context.rt;
        let alloc = context.alloc;
        let hashing = context.hashing;
        let lock = context.lock;
        let hook = context.hook;
        let tag = context.tag;
        let count = context.count;
        // Where no thread can be had the second one is carried out first.
        let (two, one) = join(
            rt,
            || -> Pass<T>
                requires own { IsSync R.row × (two.lock ≡ lock.now.id) }
                requires begun { HasBegun two.seen tag count }
                requires builders { length there.now ≤ two.weight }
                ensures { IsLater two result }
            {
                let context = BuildContext {
                    rt,
                    alloc,
                    hashing,
                    lock,
                    hook,
                    tag,
                    count,
                };
                let pass = BuilderPass {
                    context: &context,
                    pass: two,
                };
                pass.build_shares(queues, there).into_pass()
            },
            || -> Pass<T>
                requires own { IsSync R.row × (one.lock ≡ lock.now.id) }
                requires begun { HasBegun one.seen tag count }
                requires builders { length here.now ≤ one.weight }
                ensures { IsLater one result }
            {
                let context = BuildContext {
                    rt,
                    alloc,
                    hashing,
                    lock,
                    hook,
                    tag,
                    count,
                };
                let pass = BuilderPass {
                    context: &context,
                    pass: one,
                };
                pass.build_shares(queues, here).into_pass()
            },
        );
        let pass = lock.join(one, two);
        BuilderPass { context, pass }
    }

    /// Has so many builders drive the units of the build, as far as they come. A unit is laid to whoever gave the last one that
    /// it needs its outcome, others steal from a builder that a long script holds up, and no script is run twice. Nothing is said
    /// of what they leave: where memory runs out, that may be each unit.
    pub(crate) fn build_units(self, jobs: u32) -> Self
        requires { jobs ≤ self.pass.weight }
        ensures { IsLaterOfBuilder self.entry result }
    {
        let alloc = self.context.alloc;
        let count = self.context.count;
        let builders = jobs.min(count);
        if builders < 2 {
            return self;
        }
        let Ok(mut made) = make_builders(alloc, builders) else {
            return self;
        };
        let Ok(queues) = TaskQueues::new(alloc, made.as_slice(), count) else {
            return self;
        };
        deal(&queues, made.as_mut_slice(), count);
        self.build_shares(&queues, made.as_mut_slice())
    }
}
