//! A base with its story, kept on a disk: what a core is, and how it opens, begins phases and is taken apart.

mod acting;
mod builders;
mod building;
mod looks;
mod unit_rows;
mod units;
mod verifying;

use crate::lanes::Lanes;
use crate::phases::last_phase;
use cc_names::memory::NoMemory;
use cc_names::replies::Reply;
use cc_names::steps::Counts;
use disk_model::{Disk, DiskFault};
use session_text::PhaseText;
use std::alloc::Global;
use std::hash::RandomState;
use std::marker::Model;
use story_log::{History, Log, OpenFault, open_log};

/// A base with its story, on a disk. Contracts see it as the story, the disk's counts and device, and the journal's tail.
#[derive(Drop)]
pub struct Core<D: Disk> {
    log: Log<D>,
    lanes: Lanes,
    moment: u64,
    hashing: RandomState,
}

impl<D: Disk> Model for Core<D> {
    ghost use Rattle.base_core.specs.Story.Shown.{Shown};
    ghost use Rattle.base_core.specs.Keeping.CoreInvariants.{CoreInvariant};

    ghost Value = { Shown };

    ghost view = { λ c. record {
      story = c.log.story;
      ghost_state = c.log.ghost_state;
      tail = c.log.tail;
    } };

    ghost invariant = { λ c. CoreInvariant c.log c.lanes c.moment };
}

impl<D: Disk> Core<D> {
    ghost use Rattle.std.specs.Prelude.{◌≡◌, ◌≤◌, ◌<◌, ◌^◌, ◌+◌, ◌∷◌, [], ◌++◌, true, false, OnOk, OnErr, IfOk, IfErr, MatchResult, is_ok, length};
    ghost use Rattle.cc_names.specs.declared.steps.StoryStep.TheVariants as story_steps;
    ghost use Rattle.session_text.specs.Formed.{IsPhase};
    ghost use Rattle.legal_history.specs.Stories.States.{all_done, faults_of};
    ghost use Rattle.legal_history.specs.Stories.Steps.{state_of};
    ghost use Rattle.cc_names.specs.Counts.{rises};
    ghost use Rattle.legal_history.specs.Stories.Lawful.{last_moment, Legal};
    ghost use Rattle.base_core.specs.Keeping.CoreInvariants.{command_limit};
    ghost use Rattle.base_core.specs.Story.Replying.{replies_of};
    ghost use Rattle.story_log.specs.Stopping.Backed.{IsSettled, IsAccounted, may_be_open};
    ghost use Rattle.base_core.specs.Story.Counted.{KeepsCount};
    ghost use Rattle.story_log.specs.Bases.Opening.{AreSynced, OpensCore, FailsToOpen};
    ghost use Rattle.story_log.specs.Bases.Reading.{ReadsOnceBy};
    ghost use Rattle.story_log.specs.Logging.Appending.{SettlesTail};
    ghost use Rattle.story_log.specs.Stopping.Tails.{tail_after_settling};
    ghost use Rattle.story_log.specs.Story.Formed.{TellsOnly};
    ghost use Rattle.cc_names.specs.Formed.{IsFormed};
    ghost use Rattle.disk_model.specs.Counting.{next_count};
    ghost use Rattle.disk_model.specs.DiskStates.{IfModeled, Both};
    ghost use Rattle.vob_journal.specs.Added.{WritesOn};
    ghost use Rattle.vob_journal.specs.Pieces.{ReadsOnce};

    /// Opens the base that a disk stands for. Reads its journal once, in time linear in its bytes and for each row that of
    /// `fits`, and writes nothing. Names are found by hashing them so. A disk whose base cannot be opened comes back with the
    /// cause.
    pub fn open(alloc: Global, hashing: RandomState, disk: D) -> Result<Core<D>, OpenFault<D>>
        requires { IfModeled (D.ghost_state disk).modeled AreSynced }
        ensures ok { IfOk result
            (λ core. OpensCore (D.ghost_state disk) core.story core.ghost_state core.tail) }
        ensures err { IfErr result
            (λ fault. FailsToOpen (D.ghost_state disk) fault.cause (D.ghost_state fault.disk)) }
        ensures once { MatchResult result
            (λ core. Both ReadsOnce (D.ghost_state disk).modeled core.ghost_state.modeled)
            (λ fault. Both (ReadsOnceBy fault.cause) (D.ghost_state disk).modeled
            (D.ghost_state fault.disk).modeled) }
    {
        match open_log(alloc, hashing, disk) {
            Ok(log) => Ok(Core {
                log,
                lanes: Lanes::none(alloc),
                moment: 0,
                hashing,
            }),
            Err(fault) => Err(fault),
        }
    }

    /// Begins a phase. An `Err` changes nothing. Makes no device call. Takes time linear in its text,
    /// and memory for a reply to each of its commands: these are made one by one as their turn comes.
    pub fn begin_phase(
        &mut self,
        alloc: Global,
        phase: PhaseText,
        moment: u64,
    ) -> Result<(), NoMemory>
        requires finished { all_done (state_of self.old.story) ≡ true }
        requires formed { IsPhase command_limit phase }
        requires few { (state_of self.old.story).number + 1 < 2 ^ 32 }
        requires in_time { moment ≤ last_moment }
        ensures ok { OnOk result
            (self.new.story ≡ self.old.story ++ story_steps.PhaseBegun phase moment ∷ []) }
        ensures err { OnErr result (self.new ≡ self.old) }
        ensures counted { KeepsCount self.old self.new }
    {
        let lanes = Lanes::begin(alloc, &phase)?;
        self.log.begin_phase(phase, moment)?;
        self.lanes = lanes;
        self.moment = moment;
        Ok(())
    }

    /// The phase that began last.
    pub fn phase(&self) -> &PhaseText
        requires { 0 < (state_of self.now.story).number }
        ensures { result.now ≡ (state_of self.now.story).phase }
    {
        last_phase(self.log.phases())
    }

    /// How many lanes the last phase has.
    pub fn lanes(&self) -> usize
        ensures { result ≡ length (state_of self.now.story).phase.lanes }
    {
        self.lanes.count()
    }

    /// The replies to the finished commands of a lane of the last phase, in order.
    pub fn replies(&self, lane: u32) -> &[Reply]
        requires from { 1 ≤ lane }
        requires upto { lane ≤ length (state_of self.now.story).phase.lanes }
        ensures { result.now ≡ replies_of self.now.story lane }
    {
        self.lanes.replies(lane)
    }

    /// The disk's counts.
    pub fn counts(&self) -> Counts
        ensures ticks { result.ticks ≡ self.now.ghost_state.ticks }
        ensures faults { result.faults ≡ self.now.ghost_state.faults }
    {
        self.log.counts()
    }

    /// Settles the journal where a fault left its tail open, by at most two device calls, of which the last may fail;
    /// elsewhere it makes none, and the disk is as it was. A fault that left no row leaves the tail settled, unless the
    /// tail is as it was at opening. The file of objects is as it was in any case. Afterwards no crash finds more than
    /// the rows of the base; where it fails, the disk's count of faults has passed that of each fault of the history.
    pub fn finish(&mut self) -> Result<(), DiskFault>
        ensures same { self.new.story ≡ self.old.story }
        ensures ok { OnOk result (IsSettled (state_of self.new.story) self.new.ghost_state) }
        ensures err { OnErr result
            (rises (faults_of (state_of self.new.story).opened (state_of self.new.story).ends)
            self.new.ghost_state.faults ≡ true) }
        ensures faults { MatchResult result
            (λ _. self.new.ghost_state.faults ≡ self.old.ghost_state.faults)
            (λ _. self.new.ghost_state.faults ≡ next_count self.old.ghost_state.faults) }
        ensures few { self.new.ghost_state.ticks ≤ self.old.ghost_state.ticks + 2 }
        ensures writes { Both WritesOn self.old.ghost_state.modeled self.new.ghost_state.modeled }
        ensures rests { may_be_open (state_of self.old.story).ends ≡ false → self.new ≡ self.old }
        ensures calls { SettlesTail (state_of self.old.story).ends self.old.tail
            self.old.ghost_state self.new.ghost_state }
        ensures tail { self.new.tail
            ≡ tail_after_settling (state_of self.old.story).ends (is_ok result) self.old.tail }
    {
        self.log.settle()
    }

    /// The disk, and the history of the story so far. Takes no memory.
    pub fn into_parts(self) -> (D, History)
        ensures disk { D.ghost_state result.0 ≡ self.ghost_state }
        ensures history { result.1 ≡ self.story }
        ensures legal { Legal self.story }
        ensures formed { TellsOnly IsFormed self.story }
        ensures stopped { IsAccounted (state_of self.story) self.ghost_state }
    {
        let Core {
            log,
            lanes: _,
            moment: _,
            hashing: _,
        } = self;
        log.into_parts()
    }
}
