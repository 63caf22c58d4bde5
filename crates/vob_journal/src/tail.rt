//! How the tail of a journal is written, phase by phase.

ghost use Rattle.std.specs.Prelude.{◌≡◌, ◌≤◌, ◌<◌, ◌+◌, ◌^◌, ◌∷◌, [], Bool, true, false, length, IfOk, IfErr, MatchResult, if◌then◌else◌};
ghost use Rattle.disk_model.specs.Devices.{bytes_now};
ghost use Rattle.disk_model.specs.DiskStates.{IfModeled, Both};
ghost use Rattle.vob_journal.specs.Answered.{MakesNoCall};
ghost use Rattle.vob_journal.specs.Lefts.{FailsInPhase};
ghost use Rattle.vob_journal.specs.Tails.{IsTail};
ghost use Rattle.vob_journal.specs.Calls.{FailsToPut, Settles, LeavesLeftover, CommitsFrame, FailsToAppend};
ghost use Rattle.vob_journal.specs.Phases.{PutsDown, Stages, FailsToStage, IsStagedAt, OpensGate, MayOpen, Spends, calls_of};

use crate::frame::Frame;
use crate::left::Left;
use disk_model::{Disk, DiskFault};

const OPEN: [u8; 1] = [1];

const SHUT: [u8; 1] = [0];

/// Writes a piece and syncs it.
fn put_down<D: Disk>(disk: &mut D, place: u64, piece: &[u8]) -> Result<(), DiskFault>
    requires { IfModeled (D.ghost_state disk.old).modeled (λ d. place ≤ length (bytes_now 0 d)) }
    ensures most { IfOk result (λ _. place + length piece.now ≤ 2 ^ 62) }
    ensures modeled { MatchResult result
        (λ _. Both (PutsDown place piece.now) (D.ghost_state disk.old).modeled
        (D.ghost_state disk.new).modeled)
        (λ _.
        Both (FailsToPut place piece.now) (D.ghost_state disk.old).modeled
        (D.ghost_state disk.new).modeled) }
    ensures counts { Spends 2 result (D.ghost_state disk.old) (D.ghost_state disk.new) }
{
    if let Err(fault) = disk.write_at(0, place, piece) {
        return Err(fault);
    }
    disk.sync(0)
}

/// Settles the tail, if it is not settled: shuts its gate and syncs that.
pub(crate) fn settle_tail<D: Disk>(disk: &mut D, settled: bool, tail: u64) -> Result<(), DiskFault>
    requires { IfModeled (D.ghost_state disk.old).modeled (IsTail settled tail) }
    ensures modeled { MatchResult result
        (λ _. Both (Settles settled tail) (D.ghost_state disk.old).modeled
        (D.ghost_state disk.new).modeled)
        (λ _. Both (LeavesLeftover settled tail) (D.ghost_state disk.old).modeled
        (D.ghost_state disk.new).modeled) }
    ensures rests { settled ≡ true → MakesNoCall result disk.old disk.new }
    ensures counts { Spends (if settled then 0 else 2) result (D.ghost_state disk.old)
        (D.ghost_state disk.new) }
{
    if settled {
        return Ok(());
    }
    put_down(disk, tail, &SHUT)
}

/// Writes a frame after a shut gate, and the next gate, shut.
fn stage<D: Disk>(disk: &mut D, tail: u64, frame: &Frame) -> Result<(), DiskFault>
    requires small { tail ≤ 2 ^ 62 }
    requires shut { IfModeled (D.ghost_state disk.old).modeled (IsTail true tail) }
    ensures most { IfOk result (λ _. tail + (5 + length frame.now) ≤ 2 ^ 62) }
    ensures modeled { MatchResult result
        (λ _. Both (Stages tail frame.now) (D.ghost_state disk.old).modeled
        (D.ghost_state disk.new).modeled)
        (λ _. Both (FailsToStage tail frame.now) (D.ghost_state disk.old).modeled
        (D.ghost_state disk.new).modeled) }
    ensures counts { Spends 2 result (D.ghost_state disk.old) (D.ghost_state disk.new) }
{
    put_down(disk, tail + 1, frame.as_bytes())
}

/// Opens the gate before a frame that was staged.
fn open_gate<D: Disk>(disk: &mut D, tail: u64, frame: &Frame) -> Result<(), DiskFault>
    requires { IfModeled (D.ghost_state disk.old).modeled (IsStagedAt tail frame.now) }
    ensures modeled { MatchResult result
        (λ _. Both (OpensGate tail frame.now) (D.ghost_state disk.old).modeled
        (D.ghost_state disk.new).modeled)
        (λ _. Both (MayOpen tail frame.now) (D.ghost_state disk.old).modeled
        (D.ghost_state disk.new).modeled) }
    ensures counts { Spends 2 result (D.ghost_state disk.old) (D.ghost_state disk.new) }
{
    let _frame = frame.as_bytes();
    put_down(disk, tail, &OPEN)
}

/// Commits a frame at the tail, or answers what it left.
pub(crate) fn commit<D: Disk>(
    disk: &mut D,
    settled: bool,
    tail: u64,
    frame: &Frame,
) -> Result<(), Left>
    requires small { tail ≤ 2 ^ 62 }
    requires ends { IfModeled (D.ghost_state disk.old).modeled (IsTail settled tail) }
    ensures most { IfOk result (λ _. tail + (5 + length frame.now) ≤ 2 ^ 62) }
    ensures modeled { MatchResult result
        (λ _.
        Both (CommitsFrame settled tail frame.now) (D.ghost_state disk.old).modeled
        (D.ghost_state disk.new).modeled)
        (λ left.
        Both (FailsToAppend settled tail frame.now left) (D.ghost_state disk.old).modeled
        (D.ghost_state disk.new).modeled) }
    ensures fails { IfErr result
        (λ left.
        FailsInPhase settled left (D.ghost_state disk.old).ticks (D.ghost_state disk.new).ticks) }
    ensures counts { Spends (calls_of settled) result (D.ghost_state disk.old)
        (D.ghost_state disk.new) }
{
    if let Err(_) = settle_tail(disk, settled, tail) {
        return Err(Left::Earlier);
    }
    if let Err(_) = stage(disk, tail, frame) {
        return Err(Left::Nothing);
    }
    if let Err(_) = open_gate(disk, tail, frame) {
        return Err(Left::InFlight);
    }
    Ok(())
}
