//! The tasks of a build: which units are to be driven, as builders share them.
//!
//! A task is the number of a unit. Nothing is proved of which tasks there are: whoever takes one tries its unit, and what
//! nobody drives is driven at the end.

ghost use Rattle.std.specs.Prelude.{◌≡◌, ◌<◌, ◌≤◌, IfOk, length, vec_len};

use crate::script_runs::ScriptRuns;
use cc_names::memory::NoMemory;
use crossbeam_deque::{Steal, Stealer, Worker};
use std::alloc::Global;
use std::sync::Wait;
use std::sync::atomic::{AtomicBool, AtomicU64, Ordering};
use std::time::Duration;

/// How often a builder tries to steal from one deque, while others take tasks there first.
const TRIES: u32 = 16;

/// The slots of a new deque, which grows.
const FIRST_SLOTS: usize = 64;

/// For how many microseconds a script has to go on before a task of its builder is stolen. A task that is stolen costs the
/// turns at a service that another processor had at hand, so tiny ones are done sooner by the builder that has them.
const LONG: u64 = 100;

/// For how many microseconds a builder that finds no task sleeps at first.
const FIRST_SLEEP: u64 = 100;

/// And for how many at most, for each builder of the build: so many builders look no more often than few.
const LONGEST_SLEEP: u64 = 400;

/// A builder: its number, its deque, where it looks first for a task to steal, and for how many microseconds it sleeps next
/// where it finds none.
#[derive(Drop)]
pub(crate) struct Builder {
    number: usize,
    worker: Worker<u32>,
    first: usize,
    sleep: u64,
}

/// What the others see of a builder: where to steal from it, and whether it is at a script.
#[derive(Drop)]
struct Peer {
    stealer: Stealer<u32>,
    runs: ScriptRuns,
}

/// What the builders of a build share beside the service: what they see of one another, and which units are claimed.
#[derive(Drop)]
pub(crate) struct TaskQueues {
    peers: Vec<Peer>,
    claimed: Vec<AtomicBool>,
    // How many tasks lie in deques or are being done.
    pending: AtomicU64,
    // 1 once the last task is done. Here a builder sleeps that watches a script, and nothing else ends its sleep early.
    over: AtomicU64,
    // The same. Here builders sleep that find no task, and they are woken where a script is found to be long.
    idle: AtomicU64,
}

/// So many builders. Each takes its own tasks in the order in which they came.
pub(crate) fn make_builders(alloc: Global, builders: u32) -> Result<Vec<Builder>, NoMemory>
    ensures { IfOk result (λ made. vec_len made ≡ builders) }
{
    let mut made = Vec::new(alloc);
    for number in 0..builders {
        made.push(Builder {
            number: number as usize,
            worker: Worker::new_fifo(alloc, FIRST_SLOTS)?,
            first: 0,
            sleep: FIRST_SLEEP,
        })?;
    }
    Ok(made)
}

/// What others see of each of some builders.
fn make_peers(alloc: Global, builders: &[Builder]) -> Result<Vec<Peer>, NoMemory> {
    let mut peers = Vec::new(alloc);
    for builder in builders {
        peers.push(Peer {
            stealer: builder.worker.stealer()?,
            runs: ScriptRuns::new(),
        })?;
    }
    Ok(peers)
}

/// A flag for each of some units, which nobody has claimed.
fn make_claims(alloc: Global, units: u32) -> Result<Vec<AtomicBool>, NoMemory> {
    let mut claimed = Vec::new(alloc);
    for _ in 0..units {
        claimed.push(AtomicBool::new(false))?;
    }
    Ok(claimed)
}

/// Sleeps for so many microseconds, at most until this word is 1 or whoever sleeps there is woken.
fn sleep_at<R: Wait>(word: &AtomicU64, rt: &R, micros: u64) {
    word.park_timeout(rt, 0, Duration::from_micros(micros));
}

/// Wakes whoever sleeps at a word, where nobody sleeps from then on.
fn end_sleep(word: &AtomicU64) {
    word.store(1, Ordering::SeqCst);
    word.wake_all();
}

/// A task from a deque, where there is one to be had.
fn steal_from(stealer: &Stealer<u32>) -> Option<u32> {
    for _ in 0..TRIES {
        match stealer.steal() {
            Steal::Success(unit) => return Some(unit),
            Steal::Empty => return None,
            Steal::Retry => {}
        }
    }
    None
}

impl TaskQueues {
    /// Queues for a build of so many units and for these builders.
    pub(crate) fn new(
        alloc: Global,
        builders: &[Builder],
        units: u32,
    ) -> Result<TaskQueues, NoMemory> {
        Ok(TaskQueues {
            peers: make_peers(alloc, builders)?,
            claimed: make_claims(alloc, units)?,
            pending: AtomicU64::new(0),
            over: AtomicU64::new(0),
            idle: AtomicU64::new(0),
        })
    }

    /// The runs of scripts of a builder, as the others see them.
    pub(crate) fn runs_of(&self, builder: &Builder) -> Option<&ScriptRuns> {
        self.peers.get(builder.number).map(|peer| &peer.runs)
    }

    /// Whether a builder has claimed a unit.
    pub(crate) fn is_claimed(&self, unit: u32) -> bool {
        self.claimed
            .get(unit as usize)
            .is_some_and(|flag| flag.load(Ordering::SeqCst))
    }

    /// Claims a unit, in the turn at the service in which it was found concluded or its script was started: so one builder runs
    /// the script, and one has what the unit releases done.
    pub(crate) fn claim(&self, unit: u32) {
        if let Some(flag) = self.claimed.get(unit as usize) {
            flag.store(true, Ordering::SeqCst);
        }
    }

    /// Lays a task into a builder's deque, unless there is no memory for it.
    pub(crate) fn push(&self, builder: &mut Builder, unit: u32) {
        self.pending.fetch_add(1, Ordering::SeqCst);
        self.keep(builder, unit);
    }

    /// Lays a task that is pending into a builder's deque. False where there is no memory for it: then it is done no more.
    fn keep(&self, builder: &mut Builder, unit: u32) -> bool {
        let kept = builder.worker.push(unit).is_ok();
        if !kept {
            self.end_task();
        }
        kept
    }

    /// Notes that a task is done, and what came of it lies in a deque.
    pub(crate) fn end_task(&self) {
        if self.pending.fetch_sub(1, Ordering::SeqCst) == 1 {
            end_sleep(&self.over);
            end_sleep(&self.idle);
        }
    }

    /// Whether no task is left: none lies in a deque, and none is being done.
    pub(crate) fn is_done(&self) -> bool {
        self.pending.load(Ordering::SeqCst) == 0
    }

    /// A builder that is at a script and has tasks, which it begins only when that has ended: the first one from a number on.
    fn held_up(&self, first: usize) -> Option<usize> {
        let count = self.peers.len();
        for step in 0..count {
            let number = first.wrapping_add(step) % count;
            if let Some(peer) = self.peers.get(number) {
                if peer.runs.current().is_some() && !peer.stealer.is_empty() {
                    return Some(number);
                }
            }
        }
        None
    }

    /// A task of a builder, where its script goes on while this one sleeps for a while, or was found to be long before.
    fn steal_at<R: Wait>(&self, rt: &R, number: usize) -> Option<u32> {
        let peer = self.peers.get(number)?;
        let run = peer.runs.current()?;
        if !peer.runs.is_long(run) {
            sleep_at(&self.over, rt, LONG);
            if peer.runs.current() != Some(run) {
                return None;
            }
            peer.runs.note_long(run);
            self.idle.wake_all();
        }
        steal_from(&peer.stealer)
    }

    /// A task that another builder has, where a script holds that one up. Else this one sleeps, longer each time.
    fn steal<R: Wait>(&self, rt: &R, builder: &mut Builder) -> Option<u32> {
        if let Some(number) = self.held_up(builder.first) {
            builder.first = number;
            if let Some(unit) = self.steal_at(rt, number) {
                builder.sleep = FIRST_SLEEP;
                return Some(unit);
            }
            builder.first = number.wrapping_add(1);
        }
        sleep_at(&self.idle, rt, builder.sleep);
        let longest = LONGEST_SLEEP.saturating_mul(self.peers.len() as u64);
        builder.sleep = builder.sleep.saturating_mul(2).min(longest);
        None
    }

    /// Whether a builder has a task: of its own, or else one that it steals. Not after a while where it finds none.
    pub(crate) fn has_task<R: Wait>(&self, rt: &R, builder: &mut Builder) -> bool {
        if !builder.worker.is_empty() {
            return true;
        }
        match self.steal(rt, builder) {
            Some(unit) => self.keep(builder, unit),
            None => false,
        }
    }
}

impl Builder {
    /// The next of its own tasks.
    pub(crate) fn next_task(&mut self) -> Option<u32> {
        self.worker.pop()
    }
}

/// Deals out the units of a build: all lie in the first deque, from which the others steal where that saves time.
pub(crate) fn deal(queues: &TaskQueues, builders: &mut [Builder], units: u32)
    requires { 0 < length builders.old }
    ensures { length builders.new ≡ length builders.old }
{
    for unit in 0..units {
        queues.push(&mut builders[0], unit);
    }
}
