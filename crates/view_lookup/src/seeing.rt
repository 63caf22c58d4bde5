//! Files for which a build is likely to ask, looked for ahead and kept.

ghost use Rattle.std.specs.Prelude.{◌≡◌, IfOk, IfSome, OnOk};
ghost use Rattle.base_model.specs.Rows.{size};
ghost use Rattle.base_rows.specs.SeenFiles.{AreFiles, IsSeenIn};

use crate::pool::{RecordTest, newest_object};
use crate::seen::find_file;
use base_rows::bases::{FirstRows, Rows, first_rows};
use base_rows::objects::record_of;
use base_rows::seen_files::{FileRows, SeenFiles};
use cc_names::memory::NoMemory;
use cc_names::names::Name;
use cc_names::paths::Path;
use cc_names::rows::ReadOf;
use std::alloc::Global;
use std::collections::HashMap;
use std::hash::RandomState;

/// How many files are kept of a view at most.
const MOST_FILES: usize = 65_536;

/// Any record.
struct AnyRecord;

impl RecordTest for AnyRecord {
    ghost use Rattle.std.specs.Prelude.{true};

    ghost passes = { λ it script entries. true };

    fn passes(&self, _script: &[u8], _entries: &[ReadOf]) -> bool {
        true
    }
}

/// The entries that a build is likely to ask for next as it tries a unit of these targets: those of the newest live object with
/// the targets, else those of the newest row.
fn entries_ahead<'a>(rows: &FirstRows<'a>, targets: &[Path]) -> &'a [ReadOf] {
    let newest = rows.size().saturating_sub(1);
    let number = newest_object(rows, targets, &AnyRecord).unwrap_or(newest);
    record_of(rows, number)
}

/// Keeps the file that a view sees at a path, where that is not kept yet.
fn see_file(
    alloc: Global,
    rows: &FirstRows<'_>,
    view: &Name,
    files: &mut FileRows,
    path: &Path,
) -> Result<(), NoMemory>
    requires { AreFiles rows.now view.now files.old }
    ensures { OnOk result (AreFiles rows.now view.now files.new) }
{
    if MOST_FILES <= files.len() || files.contains_key(path) {
        return Ok(());
    }
    let row = find_file(rows, view, path);
    files.insert(path.copy(alloc)?, row)?;
    Ok(())
}

/// Keeps the files that a view sees at the paths of these entries.
fn see_each(
    alloc: Global,
    rows: &FirstRows<'_>,
    view: &Name,
    files: &mut FileRows,
    entries: &[ReadOf],
) -> Result<(), NoMemory>
    requires { AreFiles rows.now view.now files.old }
    ensures { OnOk result (AreFiles rows.now view.now files.new) }
{
    for entry in entries {
        see_file(alloc, rows, view, files, &entry.path)?;
    }
    Ok(())
}

/// What is kept of a view in these rows: what was kept before, where that is of as many rows, else nothing yet.
fn begin(
    alloc: Global,
    hashing: RandomState,
    rows: &FirstRows<'_>,
    view: &Name,
    kept: Option<(Name, SeenFiles)>,
) -> Result<(Name, FileRows), NoMemory>
    requires { IfSome kept (λ it. IsSeenIn rows.now view.now it) }
    ensures name { IfOk result (λ it. it.0 ≡ view.now) }
    ensures files { IfOk result (λ it. AreFiles rows.now view.now it.1) }
{
    match kept {
        Some((name, seen)) if seen.count == rows.size() => Ok((name, seen.files)),
        _ => Ok((view.copy(alloc)?, HashMap::with_hasher(alloc, hashing))),
    }
}

/// The files that a view sees in the first rows at paths that a build is likely to ask for next as it tries a unit of these
/// targets, beside what was kept before. Takes the time of `newest_object` and, for each path that is not kept yet, that of
/// `find_file`.
fn see_ahead(
    alloc: Global,
    hashing: RandomState,
    all: &FirstRows<'_>,
    rows: &FirstRows<'_>,
    view: &Name,
    targets: &[Path],
    kept: Option<(Name, SeenFiles)>,
) -> Result<(Name, SeenFiles), NoMemory>
    requires { IfSome kept (λ it. IsSeenIn rows.now view.now it) }
    ensures name { IfOk result (λ it. it.0 ≡ view.now) }
    ensures count { IfOk result (λ it. it.1.count ≡ size rows.now) }
    ensures files { IfOk result (λ it. AreFiles rows.now view.now it.1.files) }
{
    let (name, mut files) = begin(alloc, hashing, rows, view, kept)?;
    see_each(alloc, rows, view, &mut files, entries_ahead(all, targets))?;
    let count = rows.size();
    Ok((name, SeenFiles { count, files }))
}

/// Has at hand the files of a view in the first rows, `count` of them with row 0, for which a build is likely to ask as it
/// tries a unit of these targets: those at the paths of the record of the newest live object with the targets, else of the
/// newest row. No answer changes; where memory runs out, fewer are at hand. Takes the time of `newest_object`, for each of
/// the paths time linear in it, and that of `file_at` where it is not at hand yet.
pub fn remember(base: &mut Rows, view: &Name, count: u64, targets: &[Path])
    ensures { base.new ≡ base.old }
{
    let kept = base.take_seen(view);
    let seen = see_ahead(
        base.alloc(),
        base.hashing(),
        &base.all(),
        &first_rows(&base.all(), count),
        view,
        targets,
        kept,
    );
    if let Ok(seen) = seen {
        base.keep_seen(seen);
    }
}
