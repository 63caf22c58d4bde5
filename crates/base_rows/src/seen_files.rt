//! Files that views were seen to have, kept so that none of them is looked for again among the same rows.

ghost use Rattle.std.specs.Prelude.{IfSome};
ghost use Rattle.base_model.specs.Rows.{Base};
ghost use Rattle.base_rows.specs.SeenFiles.{AreSeen, AreSeenByViews, IsSeenAs, IsSeenOnce};

use cc_names::names::Name;
use cc_names::paths::Path;
use std::collections::HashMap;
use std::hash::RandomState;

/// Of how many views files are kept at most.
const MOST_VIEWS: usize = 64;

/// By path the row of the file that is there, or that there is none.
pub type FileRows = HashMap<Path, Option<u64>, RandomState>;

/// Files that a view sees in some first rows of a base, with how many rows these are.
#[derive(Drop)]
pub struct SeenFiles {
    pub count: u64,
    pub files: FileRows,
}

impl SeenFiles {
    /// The row of the file at a path in so many first rows, or that there is none; nothing where that is not kept. Takes time
    /// linear in the path.
    pub(crate) fn row_at(&self, count: u64, path: &Path) -> Option<Option<u64>>
        ensures { IfSome result (λ row. IsSeenOnce self.now count path.now row) }
    {
        if self.count != count {
            return None;
        }
        self.files.get(path).copied()
    }
}

/// What is kept of views, by their names.
pub(crate) type Views = HashMap<Name, SeenFiles, RandomState>;

/// Takes out what is kept of a view. Where as many views are left as are kept at most, nothing is kept of them any more.
pub(crate) fn take_seen(seen: &mut Views, view: &Name) -> Option<(Name, SeenFiles)>
    ensures kept { (b : Base)
        → AreSeenByViews b seen.old
        → IfSome result (λ it. IsSeenAs b view.now it) }
    ensures left { (b : Base) → AreSeenByViews b seen.old → AreSeenByViews b seen.new }
{
    let kept = seen.remove_entry(view);
    if MOST_VIEWS <= seen.len() {
        seen.clear();
    }
    kept
}

/// Keeps what was seen of a view, where there is memory for it.
pub(crate) fn put_seen(seen: &mut Views, made: (Name, SeenFiles))
    ensures { (b : Base)
        → AreSeenByViews b seen.old
        → AreSeen b made.0 made.1
        → AreSeenByViews b seen.new }
{
    let (view, files) = made;
    match seen.insert(view, files) {
        Ok(_) => {}
        Err(_) => {}
    }
}
