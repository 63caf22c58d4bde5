//! How a base is opened: the rows of its journal are read one by one, and each has to fit those before it.

ghost use Rattle.std.specs.Prelude.{◌≡◌, [], ◌∷◌, true, false, IfSome, IfNone, IfOk, IfErr, OnOk, MatchResult};
ghost use Rattle.base_model.specs.Fits.{fits};
ghost use Rattle.disk_model.specs.DiskStates.{Both, IfModeled};
ghost use Rattle.vob_journal.specs.Pieces.{ReadsNext, ReadsOnce};
ghost use Rattle.vob_journal.specs.Shown.{frames_read};
ghost use Rattle.story_log.specs.Bases.Opening.{AreSynced, StopsBy, IsOpened, FailsToOpen};
ghost use Rattle.story_log.specs.Stopping.Tails.{IsFoundTail, tail_of};
ghost use Rattle.story_log.specs.Stored.Stops.{found_with};
ghost use Rattle.story_log.specs.Bases.Reading.{OnlyReads, NextIs, EndsAt, FindsTail, IsAfterBase, IsMisfit, IsMissed, IsNextRow, IsNoRow, IsReadBy, IsReadOn, IsReadSoFar, ReadsOn, ReadsOnceBy, IsReadThrough};

use crate::logs::Log;
use cc_names::memory::{NoMemory, Or};
use cc_names::rows::Row;
use cc_names::texts::Text;
use disk_model::Disk;
use row_form::read;
use std::alloc::Global;
use std::hash::RandomState;
use view_lookup::{FirstRows, Rows, fits, prepare};
use vob_journal::Journal;

/// Why a base cannot be opened.
#[derive(Clone, Copy, Debug, PartialEq, Eq)]
pub enum OpenCause {
    /// The frame of this number, counted from 1, is the first that spells no row, or whose row does not fit those before it.
    Damaged(u64),
    DiskFault,
    NoMemory,
}

/// A base that could not be opened, with its disk.
#[derive(Drop)]
pub struct OpenFault<D: Disk> {
    pub cause: OpenCause,
    pub disk: D,
}

/// The next payload of a journal with nothing left over, or None at its end.
fn next_payload<D: Disk>(alloc: Global, journal: &mut Journal<D>) -> Result<Option<Text>, OpenCause>
    requires { journal.old.leftover ≡ [] }
    ensures reads { OnlyReads D.ghost_state journal.old journal.new }
    ensures ok { IfOk result (λ found. NextIs D.ghost_state found journal.old journal.new) }
    ensures forth { ReadsNext result D.ghost_state journal.old journal.new }
    ensures err { IfErr result
        (λ cause.
        IsMissed cause (D.ghost_state journal.old.disk).faults
        (D.ghost_state journal.new.disk).faults) }
{
    match journal.next(alloc) {
        Ok(payload) => Ok(payload),
        Err(Or::NoMemory) => Err(OpenCause::NoMemory),
        Err(Or::Is(_)) => Err(OpenCause::DiskFault),
    }
}

/// Why a row does not fit those before it, or nothing where it does.
fn misfit(alloc: Global, rows: &FirstRows<'_>, row: &Row) -> Option<OpenCause>
    ensures fits { IfNone result (fits rows.now row.now.deed ≡ true) }
    ensures misses { IfSome result (IsMisfit rows.now row.now.deed) }
{
    match fits(alloc, rows, row) {
        Ok(true) => None,
        Ok(false) => Some(OpenCause::Damaged(rows.size())),
        Err(NoMemory) => Some(OpenCause::NoMemory),
    }
}

/// The row that the payload of the next frame spells, where it fits the rows before.
fn next_row(
    alloc: Global,
    hashing: RandomState,
    rows: &FirstRows<'_>,
    payload: &[u8],
) -> Result<Row, OpenCause>
    ensures ok { IfOk result (IsNextRow rows.now payload.now) }
    ensures err { IfErr result (IsNoRow rows.now payload.now) }
{
    let row = match read(alloc, hashing, payload) {
        Ok(row) => row,
        Err(Or::NoMemory) => return Err(OpenCause::NoMemory),
        Err(Or::Is(_)) => return Err(OpenCause::Damaged(rows.size())),
    };
    match misfit(alloc, rows, &row) {
        None => Ok(row),
        Some(cause) => Err(cause),
    }
}

/// The next row of a journal after those that were read, or None at its end.
fn read_next_row<D: Disk>(
    alloc: Global,
    hashing: RandomState,
    journal: &mut Journal<D>,
    rows: &FirstRows<'_>,
) -> Result<Option<Row>, OpenCause>
    requires so_far { IsReadSoFar D.ghost_state rows.now journal.old }
    requires unended { journal.old.ended ≡ false }
    ensures reads { OnlyReads D.ghost_state journal.old journal.new }
    ensures ok { IfOk result (λ found. ReadsOn D.ghost_state rows.now found journal.new) }
    ensures ends { IfOk result (λ found. EndsAt found journal.new.ended) }
    ensures tail { IfOk result
        (λ found. IfModeled (D.ghost_state journal.new.disk).modeled
        (FindsTail found (tail_of journal.new))) }
    ensures forth { ReadsNext result D.ghost_state journal.old journal.new }
    ensures faultless { OnOk result
        ((D.ghost_state journal.new.disk).faults ≡ (D.ghost_state journal.old.disk).faults) }
    ensures err { IfErr result
        (λ cause.
        StopsBy (D.ghost_state journal.old.disk).modeled (found_with journal.old.list) cause
        (D.ghost_state journal.old.disk).faults (D.ghost_state journal.new.disk).faults) }
    ensures next { IfErr result (IsAfterBase rows.now) }
{
    let payload = match next_payload(alloc, journal) {
        Ok(Some(payload)) => payload,
        Ok(None) => return Ok(None),
        Err(cause) => return Err(cause),
    };
    match next_row(alloc, hashing, rows, payload.as_bytes()) {
        Ok(row) => Ok(Some(row)),
        Err(cause) => Err(cause),
    }
}

/// Adds a row that fits. Fails only where memory runs out.
fn add_row(alloc: Global, rows: &mut Rows, row: Row) -> Result<(), NoMemory>
    requires { fits rows.old.base row.deed ≡ true }
    ensures { OnOk result (rows.new.base ≡ row ∷ rows.old.base) }
{
    let prepared = prepare(alloc, rows, row.deed())?;
    rows.reserve(row.deed(), &prepared)?;
    rows.push(row, prepared);
    Ok(())
}

/// The rows of a journal, read to its end: each spells a row that fits those before it.
fn read_rows<D: Disk>(
    alloc: Global,
    hashing: RandomState,
    journal: &mut Journal<D>,
) -> Result<Rows, OpenCause>
    requires so_far { IsReadSoFar D.ghost_state [] journal.old }
    requires unended { journal.old.ended ≡ false }
    ensures reads { OnlyReads D.ghost_state journal.old journal.new }
    ensures ok { IfOk result (λ rows. IsReadThrough D.ghost_state rows.base journal.new) }
    ensures tail { OnOk result
        (IfModeled (D.ghost_state journal.new.disk).modeled (IsFoundTail (tail_of journal.new))) }
    ensures forth { OnOk result
        (Both (IsReadOn (frames_read journal.old) journal.old.reach)
        (D.ghost_state journal.old.disk).modeled (D.ghost_state journal.new.disk).modeled) }
    ensures until { IfErr result
        (λ cause. Both (IsReadBy cause (frames_read journal.old) journal.old.reach)
        (D.ghost_state journal.old.disk).modeled (D.ghost_state journal.new.disk).modeled) }
    ensures faultless { OnOk result
        ((D.ghost_state journal.new.disk).faults ≡ (D.ghost_state journal.old.disk).faults) }
    ensures err { IfErr result
        (λ cause.
        StopsBy (D.ghost_state journal.old.disk).modeled (found_with journal.old.list) cause
        (D.ghost_state journal.old.disk).faults (D.ghost_state journal.new.disk).faults) }
{
    let Ok(mut rows) = Rows::new(alloc, hashing) else {
        return Err(OpenCause::NoMemory);
    };
    'frames: loop {
        match read_next_row(alloc, hashing, journal, &rows.all()) {
            Ok(Some(row)) => {
                if add_row(alloc, &mut rows, row).is_err() {
                    return Err(OpenCause::NoMemory);
                }
            }
            Ok(None) => return Ok(rows),
            Err(cause) => return Err(cause),
        }
    }
}

/// Opens the log of the base that a disk stands for. Reads the journal once, of a damaged one no piece that begins after the
/// damaged frame, and writes nothing. Takes time linear in the journal's bytes, and for each row that of `fits`.
pub fn open_log<D: Disk>(
    alloc: Global,
    hashing: RandomState,
    disk: D,
) -> Result<Log<D>, OpenFault<D>>
    requires { IfModeled (D.ghost_state disk).modeled AreSynced }
    ensures ok { IfOk result (λ log. IsOpened (D.ghost_state disk) log) }
    ensures err { IfErr result
        (λ fault. FailsToOpen (D.ghost_state disk) fault.cause (D.ghost_state fault.disk)) }
    ensures once { MatchResult result
        (λ log. Both ReadsOnce (D.ghost_state disk).modeled log.ghost_state.modeled)
        (λ fault. Both (ReadsOnceBy fault.cause) (D.ghost_state disk).modeled
        (D.ghost_state fault.disk).modeled) }
{
    let handed = disk.counts();
    let mut journal = match Journal::open(disk) {
        Ok(journal) => journal,
        Err(disk) => {
            return Err(OpenFault {
                cause: OpenCause::DiskFault,
                disk,
            });
        }
    };
    let rows = match read_rows(alloc, hashing, &mut journal) {
        Ok(rows) => rows,
        Err(cause) => {
            return Err(OpenFault {
                cause,
                disk: journal.into_disk(),
            });
        }
    };
    Ok(Log::open(alloc, rows, handed, journal))
}
