//! The journal.

ghost use Rattle.std.specs.Prelude.{◌≡◌, ◌≤◌, ◌+◌, ◌^◌, ◌++◌, ◌∷◌, [], IfOk, IfErr, OnOk, OnErr, MatchResult, is_ok, if◌then◌else◌, true, false, List, ℕ, length};
ghost use Rattle.disk_model.specs.Devices.{file_of, bytes_now, LeavesNow};
ghost use Rattle.disk_model.specs.Files.{stable};
ghost use Rattle.disk_model.specs.DiskStates.{IfModeled, Both};

mod objects;

use crate::frame::Frame;
use crate::left::Left;
use crate::reading::{Found, read_frame};
use crate::tail::{commit, settle_tail};
use crate::window::Window;
use cc_names::memory::Or;
use cc_names::texts::Text;
use disk_model::{Counts, Disk, DiskFault};
use std::alloc::Global;
use std::marker::Model;

/// A journal on a disk.
#[derive(Drop)]
pub struct Journal<D: Disk> {
    disk: D,
    /// The place after the last frame that was read or written.
    tail: u64,
    /// The journal's length as it was opened.
    size: u64,
    window: Option<Window>,
    /// Whether the end of the list was read.
    ended: bool,
    /// Whether a gate that is shut, and synced, stands at the tail.
    settled: bool,
    left: Left,
}

impl<D: Disk> Model for Journal<D> {
    ghost use Rattle.vob_journal.specs.Shown.{Shown, modeled_list, modeled_rest, modeled_leftover, JournalInvariant};
    ghost use Rattle.vob_journal.specs.Windows.{reach_of};

    ghost Value = { Shown D };

    ghost view = { λ j. record {
      disk = j.disk;
      tail = j.tail;
      list = modeled_list (D.ghost_state j.disk).modeled j.ended j.tail;
      rest = modeled_rest (D.ghost_state j.disk).modeled j.ended j.tail;
      leftover = modeled_leftover (D.ghost_state j.disk).modeled j.ended j.settled j.tail;
      ended = j.ended;
      settled = j.settled;
      left = j.left;
      reach = reach_of j.window;
    } };

    ghost invariant = { λ j.
        JournalInvariant (D.ghost_state j.disk).modeled j.ended j.settled j.tail j.size j.window };
}

impl<D: Disk> Journal<D> {
    ghost use Rattle.disk_model.specs.Devices.{Measures, Idles};
    ghost use Rattle.vob_journal.specs.declared.left.Left.TheVariants as lefts;
    ghost use Rattle.vob_journal.specs.Added.{Adds, WritesOn, may_read};
    ghost use Rattle.vob_journal.specs.Answered.{GivesNext, Ends, TailAtEnd, OneMore, OneFault, MakesNoCall};
    ghost use Rattle.vob_journal.specs.Calls.{FailsToPut, FailsToCommit, device_after_commit, settled_first};
    ghost use Rattle.vob_journal.specs.Frames.{frames};
    ghost use Rattle.vob_journal.specs.Lefts.{FailsInPhase, leftover_after, settled_after};
    ghost use Rattle.vob_journal.specs.Moves.{Moves, Stands};
    ghost use Rattle.vob_journal.specs.Phases.{Spends, calls_of};
    ghost use Rattle.vob_journal.specs.Pieces.{ReadsNext};
    ghost use Rattle.vob_journal.specs.Reads.{SameFiles, CountsReads};

    /// The journal of a disk that was handed in. Asks its length, and reads nothing yet. Where that fails the disk
    /// comes back. Either way both files are as they were.
    pub fn open(disk: D) -> Result<Journal<D>, D>
        requires { IfModeled (D.ghost_state disk).modeled
            (λ d. file_of 0 d ≡ stable (bytes_now 0 d)) }
        ensures list { IfOk result
            (λ journal. IfModeled (D.ghost_state disk).modeled
            (λ d. journal.list ≡ frames (bytes_now 0 d))) }
        ensures begins { IfOk result
            (λ journal.
            (journal.rest ≡ journal.list) × (journal.leftover ≡ []) × (journal.tail ≡ 0)
            × (journal.ended ≡ false) × (journal.left ≡ lefts.Nothing)
            × (journal.reach ≡ 0)) }
        ensures modeled { MatchResult result
            (λ journal. Both (Measures 0) (D.ghost_state disk).modeled
            (D.ghost_state journal.disk).modeled)
            (λ back. Both Idles (D.ghost_state disk).modeled (D.ghost_state back).modeled) }
        ensures moves { IfOk result
            (λ journal.
            Both (Moves journal.list [] journal.list journal.leftover) (D.ghost_state disk).modeled
            (D.ghost_state journal.disk).modeled) }
        ensures files { MatchResult result
            (λ journal. Both SameFiles (D.ghost_state disk).modeled
            (D.ghost_state journal.disk).modeled)
            (λ back. Both SameFiles (D.ghost_state disk).modeled (D.ghost_state back).modeled) }
        ensures counts { MatchResult result
            (λ journal. OneMore (D.ghost_state disk) (D.ghost_state journal.disk))
            (λ back. OneFault (D.ghost_state disk) (D.ghost_state back)) }
    {
        let mut disk = disk;
        match disk.length(0) {
            Ok(size) => Ok(Journal {
                disk,
                tail: 0,
                size,
                window: None,
                ended: false,
                settled: false,
                left: Left::Nothing,
            }),
            Err(_) => Err(disk),
        }
    }

    /// The next payload, or None at the end of the list, after which no call is made. Reads a piece only where the bytes at
    /// hand do not have the first five bytes of what comes next, or not the whole frame: 64 KiB, or the whole frame where
    /// that is longer. So all payloads take time linear in the journal. Whatever it answers, both files are as they were; after
    /// the end nothing changes.
    pub fn next(&mut self, alloc: Global) -> Result<Option<Text>, Or<DiskFault>>
        ensures gives { IfOk result
            (λ found.
            IfModeled (D.ghost_state self.old.disk).modeled
            (λ _. GivesNext found self.old.rest self.new.rest)) }
        ensures ends { Ends result self.old.ended self.new.ended }
        ensures tail { IfOk result
            (λ found.
            IfModeled (D.ghost_state self.old.disk).modeled
            (TailAtEnd found self.old.ended self.new.settled self.new.tail)) }
        ensures list { self.new.list ≡ self.old.list }
        ensures leftover { self.new.leftover ≡ self.old.leftover }
        ensures err { OnErr result (self.new.rest ≡ self.old.rest) }
        ensures left { self.new.left ≡ self.old.left }
        ensures moves { Both (Moves self.old.list self.old.leftover self.new.list self.new.leftover)
            (D.ghost_state self.old.disk).modeled (D.ghost_state self.new.disk).modeled }
        ensures files { Both SameFiles (D.ghost_state self.old.disk).modeled
            (D.ghost_state self.new.disk).modeled }
        ensures adds { Both (Adds may_read) (D.ghost_state self.old.disk).modeled
            (D.ghost_state self.new.disk).modeled }
        ensures forth { ReadsNext result D.ghost_state self.old self.new }
        ensures rests { self.old.ended ≡ true → MakesNoCall result self.old self.new }
        ensures counts { CountsReads 2 result (D.ghost_state self.old.disk)
            (D.ghost_state self.new.disk) }
    {
        if self.ended {
            return Ok(None);
        }
        let window = self.window.take();
        match read_frame(alloc, &mut self.disk, window, self.size, self.tail) {
            Ok(Found::Payload(payload, window)) => {
                self.tail += 5 + payload.as_bytes().len() as u64;
                self.window = Some(window);
                Ok(Some(payload))
            }
            Ok(Found::End(settled)) => {
                self.ended = true;
                self.settled = settled;
                Ok(None)
            }
            Err(fault) => Err(fault),
        }
    }

    /// Commits a frame after the list, and answers the tick at which it is acknowledged. It first settles a tail that
    /// is not settled: it writes one byte 0 at the tail and syncs. Then it makes four device calls: it writes length,
    /// payload and the next frame's gate byte 0; syncs; writes this frame's gate byte 1; syncs. A fault ends these calls,
    /// and leaves what `left` says. Takes time linear in the frame.
    pub fn append(&mut self, frame: &Frame) -> Result<u64, DiskFault>
        requires { self.old.ended ≡ true }
        ensures moves { Both (Moves self.old.list self.old.leftover self.new.list self.new.leftover)
            (D.ghost_state self.old.disk).modeled (D.ghost_state self.new.disk).modeled }
        ensures calls { MatchResult result
            (λ _. Both (λ d e. e ≡ device_after_commit self.old.settled self.old.tail frame.now d)
            (D.ghost_state self.old.disk).modeled (D.ghost_state self.new.disk).modeled)
            (λ _. Both (FailsToCommit self.old.settled self.old.tail frame.now self.new.left)
            (D.ghost_state self.old.disk).modeled (D.ghost_state self.new.disk).modeled) }
        ensures tick { IfOk result (λ tick. tick ≡ (D.ghost_state self.new.disk).ticks) }
        ensures ok { OnOk result
            (IfModeled (D.ghost_state self.old.disk).modeled
            (λ _. (self.new.list ≡ self.old.list ++ frame.now ∷ []) × (self.new.leftover ≡ []))) }
        ensures tail { self.new.tail
            ≡ (if is_ok result then self.old.tail + (5 + length frame.now) else self.old.tail) }
        ensures err { OnErr result
            (IfModeled (D.ghost_state self.old.disk).modeled
            (λ _.
            (self.new.list ≡ self.old.list)
            × (self.new.leftover ≡ leftover_after self.new.left self.old.leftover frame.now))) }
        ensures left { OnOk result (self.new.left ≡ lefts.Nothing) }
        ensures fails { OnErr result
            (FailsInPhase self.old.settled self.new.left (D.ghost_state self.old.disk).ticks
            (D.ghost_state self.new.disk).ticks) }
        ensures settled { self.new.settled ≡ settled_after self.new.left }
        ensures ended { self.new.ended ≡ true }
        ensures writes { Both WritesOn (D.ghost_state self.old.disk).modeled
            (D.ghost_state self.new.disk).modeled }
        ensures costs { Spends (calls_of self.old.settled) result (D.ghost_state self.old.disk)
            (D.ghost_state self.new.disk) }
    {
        match commit(&mut self.disk, self.settled, self.tail, frame) {
            Ok(()) => {
                self.tail += 5 + frame.payload_len();
                self.settled = true;
                self.left = Left::Nothing;
                Ok(self.disk.counts().ticks)
            }
            Err(left) => {
                self.settled = matches!(left, Left::Nothing);
                self.left = left;
                Err(DiskFault)
            }
        }
    }

    /// Settles the tail: where it is not settled, one byte 0 is written there and synced; where it is, the disk is as it
    /// was. Afterwards each stop leaves the list and no more. A fault ends these calls, and no other is made.
    pub fn settle(&mut self) -> Result<(), DiskFault>
        requires { self.old.ended ≡ true }
        ensures moves { Both (Moves self.old.list self.old.leftover self.new.list self.new.leftover)
            (D.ghost_state self.old.disk).modeled (D.ghost_state self.new.disk).modeled }
        ensures calls { MatchResult result
            (λ _. Both (λ d e. e ≡ settled_first self.old.settled self.old.tail d)
            (D.ghost_state self.old.disk).modeled (D.ghost_state self.new.disk).modeled)
            (λ _. Both (FailsToPut self.old.tail (0 ∷ [])) (D.ghost_state self.old.disk).modeled
            (D.ghost_state self.new.disk).modeled) }
        ensures list { self.new.list ≡ self.old.list }
        ensures leftover { MatchResult result (λ _. self.new.leftover ≡ [])
            (λ _. self.new.leftover ≡ self.old.leftover) }
        ensures tail { self.new.tail ≡ self.old.tail }
        ensures left { MatchResult result (λ _. self.new.left ≡ lefts.Nothing)
            (λ _. self.new.left ≡ lefts.Earlier) }
        ensures settled { self.new.settled ≡ settled_after self.new.left }
        ensures ended { self.new.ended ≡ true }
        ensures writes { Both WritesOn (D.ghost_state self.old.disk).modeled
            (D.ghost_state self.new.disk).modeled }
        ensures rests { self.old.settled ≡ true → MakesNoCall result self.old.disk self.new.disk }
        ensures costs { Spends (if self.old.settled then 0 else 2) result
            (D.ghost_state self.old.disk)
            (D.ghost_state self.new.disk) }
    {
        match settle_tail(&mut self.disk, self.settled, self.tail) {
            Ok(()) => {
                self.settled = true;
                self.left = Left::Nothing;
                Ok(())
            }
            Err(fault) => {
                self.settled = false;
                self.left = Left::Earlier;
                Err(fault)
            }
        }
    }

    /// What the last call of `append` or `settle` left after the list.
    pub fn left_by_last_call(&self) -> Left
        ensures { result ≡ self.now.left }
    {
        self.left
    }

    /// The disk's counts. A stop now leaves the list, and what is left over after it or not.
    pub fn counts(&self) -> Counts
        ensures ticks { result.ticks ≡ (D.ghost_state self.now.disk).ticks }
        ensures faults { result.faults ≡ (D.ghost_state self.now.disk).faults }
        ensures now { IfModeled (D.ghost_state self.now.disk).modeled
            (λ d.
            (image : List ℕ)
            → LeavesNow 0 d image
            → Stands self.now.list self.now.leftover image) }
    {
        self.disk.counts()
    }

    /// The disk.
    pub fn into_disk(self) -> D
        ensures { result ≡ self.disk }
    {
        let Journal {
            disk,
            tail: _,
            size: _,
            window: _,
            ended: _,
            settled: _,
            left: _,
        } = self;
        disk
    }
}
