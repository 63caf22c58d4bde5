//! The pool: the objects with the same targets, whichever view made them.

ghost use Rattle.std.specs.Prelude.{◌≡◌};
ghost use Rattle.base_model.specs.Objects.{are_same_paths};
ghost use Rattle.base_rows.specs.Pool.{newest_object, publishes};

use base_rows::bases::FirstRows;
use base_rows::look_ups::{Does, LookUp, only_if};
use base_rows::objects::live_row;
use base_rows::subjects::Subject;
use cc_names::paths::Path;
use cc_names::rows::{Deed, ReadOf};

/// A test of the records of objects.
pub trait RecordTest {
    ghost use Rattle.std.specs.Prelude.{◌≡◌};
    ghost use Rattle.base_rows.specs.Pool.{Test};

    ghost passes: { Self → Test };

    /// Whether a record of this script and these entries passes.
    fn passes(&self, script: &[u8], entries: &[ReadOf]) -> bool
        ensures { result ≡ passes self.now script.now entries.now };
}

/// Whether two lists have the same paths in the same order. Takes time linear in the shorter one.
fn are_same_paths(one: &[Path], other: &[Path]) -> bool
    ensures { result ≡ are_same_paths one.now other.now }
{
    one == other
}

/// Whether a deed publishes an object of these targets whose record passes. Takes time linear in the targets, and where they
/// are the same the time of the test.
pub fn publishes<T: RecordTest>(deed: &Deed, targets: &[Path], test: &T) -> bool
    ensures { result ≡ publishes targets.now (T.passes test.now) deed.now }
{
    match deed {
        Deed::Publish {
            targets: made,
            script,
            entries,
            ..
        } => {
            are_same_paths(made.as_slice(), targets)
                && test.passes(script.as_bytes(), entries.as_slice())
        }
        _ => false,
    }
}

/// The objects of a list of targets that are live in a base and whose records pass a test.
#[derive(Drop)]
struct PoolOf<'a, T> {
    rows: &'a FirstRows<'a>,
    targets: &'a [Path],
    test: &'a T,
}

impl<T: RecordTest> LookUp for PoolOf<'_, T> {
    type Item = u64;

    ghost use Rattle.base_rows.specs.Laws.AffectedSubjects.{pool_affects};
    ghost use Rattle.base_rows.specs.Effects.{pool_effect};
    ghost use Rattle.base_rows.specs.Subjects as model;

    ghost effect = { λ it. pool_effect it.rows.now it.targets.now (T.passes it.test.now) };

    ghost about = { λ it. model.Pool it.targets.now };

    fn effect(&self, older: &FirstRows<'_>, deed: &Deed) -> Does<u64> {
        let number = older.size();
        only_if(
            live_row(self.rows, number).is_some() && publishes(deed, self.targets, self.test),
            Does::Sets(number),
        )
    }

    fn subject(&self) -> Subject<'_> {
        Subject::Pool(self.targets)
    }

    ghost affects = { λ it. pool_affects it.rows.now it.targets.now (T.passes it.test.now) };
}

/// The newest live object with these targets whose record passes. Takes time linear in the targets, and for each object with
/// these targets, live or scrubbed, from the newest on as far as the one that is found, the time of `live_row` and, where it is
/// live, that of `publishes`.
pub fn newest_object<T: RecordTest>(rows: &FirstRows<'_>, targets: &[Path], test: &T) -> Option<u64>
    ensures { result ≡ newest_object rows.now targets.now (T.passes test.now) }
{
    rows.last(&PoolOf {
        rows,
        targets,
        test,
    })
}
