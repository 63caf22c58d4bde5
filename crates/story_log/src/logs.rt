//! The story of a core, with its rows and phases, and the journal that keeps the rows.

ghost use Rattle.std.specs.Prelude.{◌≡◌, ◌≤◌, ◌++◌, ◌∷◌, [], true, IfOk, OnOk};
ghost use Rattle.cc_names.specs.Formed.{IsFormed};
ghost use Rattle.cc_names.specs.declared.steps.StoryStep.TheVariants as story_steps;
ghost use Rattle.base_model.specs.Fits.{fits};
ghost use Rattle.base_rows.specs.Shown.{HasRoom};
ghost use Rattle.row_form.specs.Spelled.{spelling_of};

use crate::history::History;
use crate::step::Step;
use crate::steps::Steps;
use cc_names::memory::NoMemory;
use cc_names::names::Name;
use cc_names::paths::Path;
use cc_names::rows::{Row, Tag};
use cc_names::steps::Counts;
use disk_model::{Disk, DiskFault};
use row_form::spell;
use session_text::PhaseText;
use std::alloc::Global;
use std::marker::Model;
use std::snapshot::Snapshot;
use view_lookup::{FirstRows, Prepared, Rows, prepare, remember};
use vob_journal::{Frame, Journal, Left};

/// What became of a row that was to be committed.
#[derive(Clone, Copy, Debug, PartialEq, Eq)]
pub enum Appended {
    Committed,
    /// The disk failed.
    Faulted,
}

/// The steps of a story, its rows and phases, and the journal of the rows. Contracts see it as the story, the base of these
/// rows, the phases, the disk's counts and device, and the journal's tail.
#[derive(Drop)]
pub struct Log<D: Disk> {
    rows: Rows,
    phases: Vec<PhaseText>,
    steps: Steps,
    journal: Journal<D>,
}

impl<D: Disk> Model for Log<D> {
    ghost use Rattle.story_log.specs.Logging.Logs.{Logged, IsLogged};
    ghost use Rattle.story_log.specs.Stopping.Journals.{journal_state};
    ghost use Rattle.story_log.specs.Stopping.Tails.{tail_of};

    ghost Value = { Logged };

    ghost view = { λ log. record {
      story = log.steps.items;
      base = log.rows.base;
      phases = log.phases.items;
      ghost_state = D.ghost_state log.journal.disk;
      tail = tail_of log.journal;
    } };

    ghost invariant = { λ log.
        IsLogged log.steps.items log.rows.base (D.ghost_state log.journal.disk)
        (journal_state log.journal) };
}

/// The frame of a row. A row that is spelled in 2^32 bytes or more counts as want of memory.
fn frame_of(alloc: Global, row: &Row) -> Result<Frame, NoMemory>
    ensures { IfOk result (λ frame. frame ≡ spelling_of row.now) }
{
    let payload = spell(alloc, row)?;
    if payload.as_bytes().len() > u32::MAX as usize {
        return Err(NoMemory);
    }
    Frame::of(alloc, payload.as_bytes())
}

/// The frame of a row, and what the base needs to add it: so all memory for it is taken. An `Err` changes no row.
fn make_ready(alloc: Global, rows: &mut Rows, row: &Row) -> Result<(Frame, Prepared), NoMemory>
    ensures same { rows.new.base ≡ rows.old.base }
    ensures frame { IfOk result (λ ready. ready.0 ≡ spelling_of row.now) }
    ensures room { IfOk result (λ ready. HasRoom rows.new row.now.deed ready.1) }
    ensures formed { OnOk result (IsFormed row.now) }
{
    let frame = frame_of(alloc, row)?;
    let prepared = prepare(alloc, rows, row.deed())?;
    rows.reserve(row.deed(), &prepared)?;
    Ok((frame, prepared))
}

/// Adds a row that was committed at this tick of the disk to the base, and its step to the steps. Takes no memory.
fn add_committed(rows: &mut Rows, steps: &mut Steps, row: Row, prepared: Prepared, tick: u64)
    requires fits { fits rows.old.base row.deed ≡ true }
    requires room { HasRoom rows.old row.deed prepared }
    ensures rows { rows.new.base ≡ row ∷ rows.old.base }
    ensures steps { steps.new.items ≡ steps.old.items ++ story_steps.Commit row tick ∷ [] }
{
    steps.tell_commit(&row, tick);
    rows.push(row, prepared);
}

impl<D: Disk> Log<D> {
    ghost use Rattle.std.specs.Prelude.{◌≡◌, ◌+◌, ◌∷◌, [], true, false, IfOk, IfErr, OnOk, OnErr, MatchResult, is_ok, option_map};
    ghost use Rattle.cc_names.specs.declared.steps.StoryStep.TheVariants as story_steps;
    ghost use Rattle.disk_model.specs.Counting.{next_count};
    ghost use Rattle.disk_model.specs.DiskStates.{IfModeled, Both};
    ghost use Rattle.legal_history.specs.Stories.States.{faults_of};
    ghost use Rattle.legal_history.specs.Stories.Steps.{state_of};
    ghost use Rattle.cc_names.specs.Counts.{rises};
    ghost use Rattle.story_log.specs.Logging.Appending.{Appends, IsQuiet, SettlesTail};
    ghost use Rattle.story_log.specs.Stopping.Backed.{IsBacked, IsSettled, IsAccounted, may_be_open};
    ghost use Rattle.story_log.specs.Stopping.Journals.{journal_state};
    ghost use Rattle.story_log.specs.Stopping.Tails.{tail_after_settling, tail_of};
    ghost use Rattle.story_log.specs.Story.Handed.{handed_disk};
    ghost use Rattle.story_log.specs.Story.Telling.{told};
    ghost use Rattle.story_log.specs.Logging.Logs.{opened_log, with_phase, with_step, with_disk};
    ghost use Rattle.base_rows.specs.Order.{oldest_first};
    ghost use Rattle.base_model.specs.Fits.{fits};
    ghost use Rattle.vob_journal.specs.Added.{WritesOn};

    /// The story of a base that was opened, whose rows are those of the journal. Takes no memory.
    pub fn open(alloc: Global, rows: Rows, handed: Counts, journal: Journal<D>) -> Log<D>
        requires { IsBacked
            (state_of (story_steps.Opened (oldest_first rows.base) handed D.tells ∷ []))
            (D.ghost_state journal.disk) (journal_state journal) }
        ensures { result
            ≡ opened_log rows.base (handed_disk handed D.tells) (D.ghost_state journal.disk)
            (tail_of journal) }
    {
        let steps = Steps::opening(&rows, &handed);
        Log {
            rows,
            phases: Vec::new(alloc),
            steps,
            journal,
        }
    }

    /// Tells that a phase began. An `Err` changes nothing.
    pub fn begin_phase(&mut self, phase: PhaseText, moment: u64) -> Result<(), NoMemory>
        ensures ok { OnOk result (self.new ≡ with_phase self.old phase moment) }
        ensures err { OnErr result (self.new ≡ self.old) }
    {
        self.phases.reserve(1)?;
        self.steps.tell(&Step::PhaseBegun {
            phase: Snapshot::of(&phase),
            moment,
        });
        self.phases.push_reserved(phase);
        Ok(())
    }

    /// Commits a row: it is appended to the journal and then added to the history; or the disk fault is added, followed
    /// by the end of the build with this tag, if there is one. Takes all memory first; an `Err` changes nothing. Takes time
    /// linear in the row.
    pub fn append(
        &mut self,
        alloc: Global,
        row: Row,
        building: Option<Tag>,
    ) -> Result<Appended, NoMemory>
        requires fits { fits self.old.base row.deed ≡ true }
        ensures ok { IfOk result
            (λ done. Appends self.old self.new row (option_map story_steps.End building) done) }
        ensures err { OnErr result (self.new ≡ self.old) }
    {
        let (frame, prepared) = make_ready(alloc, &mut self.rows, &row)?;
        let before = self.journal.counts().faults;
        if let Ok(tick) = self.journal.append(&frame) {
            add_committed(&mut self.rows, &mut self.steps, row, prepared, tick);
            return Ok(Appended::Committed);
        }
        let left = self.journal.left_by_last_call();
        let after = self.journal.counts();
        self.steps.tell_fault(&row, left, before, after, building);
        Ok(Appended::Faulted)
    }

    /// Tells a step that names no row and no phase. Takes no memory.
    pub fn tell(&mut self, step: &Step)
        requires quiet { IsQuiet step.now }
        ensures { self.new ≡ with_step self.old (told step.now) }
    {
        self.steps.tell(step);
    }

    /// Settles the journal's tail where a fault left it open; elsewhere it makes no device call, and changes nothing.
    /// Afterwards no stop finds more than the rows.
    pub fn settle(&mut self) -> Result<(), DiskFault>
        ensures same { self.new ≡ with_disk self.old self.new.ghost_state self.new.tail }
        ensures ok { OnOk result (IsSettled (state_of self.new.story) self.new.ghost_state) }
        ensures err { OnErr result
            (rises (faults_of (state_of self.new.story).opened (state_of self.new.story).ends)
            self.new.ghost_state.faults ≡ true) }
        ensures faults { MatchResult result
            (λ _. self.new.ghost_state.faults ≡ self.old.ghost_state.faults)
            (λ _. self.new.ghost_state.faults ≡ next_count self.old.ghost_state.faults) }
        ensures few { self.new.ghost_state.ticks ≤ self.old.ghost_state.ticks + 2 }
        ensures writes { Both WritesOn self.old.ghost_state.modeled self.new.ghost_state.modeled }
        ensures rests { may_be_open (state_of self.old.story).ends ≡ false → self.new ≡ self.old }
        ensures calls { SettlesTail (state_of self.old.story).ends self.old.tail
            self.old.ghost_state self.new.ghost_state }
        ensures tail { self.new.tail
            ≡ tail_after_settling (state_of self.old.story).ends (is_ok result) self.old.tail }
    {
        match self.journal.left_by_last_call() {
            Left::Nothing => Ok(()),
            _ => self.journal.settle(),
        }
    }

    /// The disk's counts.
    pub fn counts(&self) -> Counts
        ensures ticks { result.ticks ≡ self.now.ghost_state.ticks }
        ensures faults { result.faults ≡ self.now.ghost_state.faults }
    {
        self.journal.counts()
    }

    /// The base, all its rows.
    pub fn rows(&self) -> FirstRows<'_>
        ensures { result ≡ self.now.base }
    {
        self.rows.all()
    }

    /// Has at hand what a view sees in the first rows where a unit of these targets is likely to ask, as `remember` of
    /// `view_lookup` does.
    pub fn remember(&mut self, view: &Name, count: u64, targets: &[Path])
        ensures { self.new ≡ self.old }
    {
        remember(&mut self.rows, view, count, targets);
    }

    /// The phases that began.
    pub fn phases(&self) -> &[PhaseText]
        ensures { result.now ≡ self.now.phases }
    {
        self.phases.as_slice()
    }

    /// The disk, and the history of the story. Takes no memory.
    pub fn into_parts(self) -> (D, History)
        ensures disk { D.ghost_state result.0 ≡ self.ghost_state }
        ensures history { result.1 ≡ self.story }
        ensures backed { IsAccounted (state_of self.story) self.ghost_state }
    {
        let Log {
            rows,
            phases: _,
            steps,
            journal,
        } = self;
        let _now = journal.counts();
        (journal.into_disk(), History::of(rows.into_vec(), steps))
    }
}
