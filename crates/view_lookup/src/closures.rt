//! What an object rests on in the end: the entries of its record, each that names an object replaced by those of that object's.

ghost use Rattle.std.specs.Prelude.{◌≡◌, ◌≤◌, max, suc, IfOk};
ghost use Rattle.std.specs.Option.{option_copied};
ghost use Rattle.base_rows.specs.ObjectWalks.{above, above_entries};
ghost use Rattle.view_lookup.specs.FirstInputs.{first_input};
ghost use Rattle.view_lookup.specs.LeastInputs.{least_of_all, least_of_entries, least_of_entry, lesser};

use base_rows::bases::FirstRows;
use base_rows::listings::is_publish;
use base_rows::objects::record_of;
use cc_names::memory::NoMemory;
use cc_names::paths::Path;
use cc_names::rows::ReadOf;
use std::alloc::Global;
use std::collections::BTreeSet;

/// A test of what an object rests on.
pub trait InputTest {
    ghost use Rattle.std.specs.Prelude.{◌≡◌};
    ghost use Rattle.view_lookup.specs.FirstInputs.{PathTest};

    ghost passes: { Self → PathTest };

    /// Whether a path passes with the row there; row 0 says that nothing was there.
    fn passes(&self, path: &Path, row: u64) -> bool
        ensures { result ≡ passes self.now path.now row };
}

/// The lesser of two paths, where there are two.
fn lesser<'a>(one: &'a Path, other: Option<&'a Path>) -> Option<&'a Path>
    ensures { option_copied result ≡ lesser (Some one.now) (option_copied other.entry) }
{
    match other {
        None => Some(one),
        Some(other) => { if other < one { Some(other) } else { Some(one) } }
    }
}

/// Takes an entry of a record in: the object that it names is left to be walked, else its path is the least so far, where it
/// passes and none that passed is less. Answers the least path so far.
fn add_entry<'a, T: InputTest>(
    rows: &FirstRows<'_>,
    test: &T,
    left: &mut BTreeSet<u64>,
    least: Option<&'a Path>,
    entry: &'a ReadOf,
) -> Result<Option<&'a Path>, NoMemory>
    ensures least { IfOk result
        (λ found. lesser (option_copied found)
        (least_of_all rows.now (T.passes test.now) left.new.keys)
        ≡ lesser (least_of_entry rows.now (T.passes test.now) entry.now)
        (lesser (option_copied least.entry)
        (least_of_all rows.now (T.passes test.now) left.old.keys))) }
    ensures above { IfOk result
        (λ found. above left.new.keys ≤ max (suc entry.now.row) (above left.old.keys)) }
{
    if is_publish(rows, entry.row) {
        left.insert(entry.row)?;
        return Ok(least);
    }
    if !test.passes(&entry.path, entry.row) {
        return Ok(least);
    }
    Ok(lesser(&entry.path, least))
}

/// Takes the entries of a record in.
fn add_entries<'a, T: InputTest>(
    rows: &FirstRows<'_>,
    test: &T,
    left: &mut BTreeSet<u64>,
    least: Option<&'a Path>,
    entries: &'a [ReadOf],
) -> Result<Option<&'a Path>, NoMemory>
    ensures least { IfOk result
        (λ found. lesser (option_copied found)
        (least_of_all rows.now (T.passes test.now) left.new.keys)
        ≡ lesser (least_of_entries rows.now (T.passes test.now) entries.now)
        (lesser (option_copied least.entry)
        (least_of_all rows.now (T.passes test.now) left.old.keys))) }
    ensures above { IfOk result
        (λ found. above left.new.keys ≤ max (above_entries entries.now) (above left.old.keys)) }
{
    let mut found = least;
    for entry in entries {
        found = add_entry(rows, test, left, found, entry)?;
    }
    Ok(found)
}

/// The first path in byte order that an object rests on in the end and that passes with the row there. Each object on which it
/// rests is walked once, from the newest on: takes the time of the test for each entry of their records, and time logarithmic in
/// those objects for each entry that names one.
pub fn first_input<'a, T: InputTest>(
    alloc: Global,
    rows: &FirstRows<'a>,
    object: u64,
    test: &T,
) -> Result<Option<&'a Path>, NoMemory>
    ensures { IfOk result
        (λ path. option_copied path ≡ first_input rows.now (T.passes test.now) object) }
{
    rows.size();
    let mut least = None;
    let mut left = BTreeSet::new(alloc);
    left.insert(object)?;
    loop {
        match left.pop_last() {
            None => return Ok(least),
            Some(next) => {
                let record = record_of(rows, next);
                least = add_entries(rows, test, &mut left, least, record)?;
            }
        }
    }
}
