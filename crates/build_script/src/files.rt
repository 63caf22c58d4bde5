//! The files that a run reads.

ghost use Rattle.std.specs.Prelude.{◌≡◌, ℕ, Option, List};
ghost use Rattle.script_grammar.specs.Standings.{Standing, Stays, IsAmong};
ghost use Rattle.build_script.specs.Answers.{IsAnswer};

use cc_names::paths::Path;
use cc_names::texts::Text;
pub use script_grammar::files::GivenUp;

/// What the files answer for a path.
#[derive(Debug, Drop)]
pub enum Got {
    /// A text stands there, made by this row.
    Found { row: u64, text: Text },
    /// Nothing stands there.
    Absent,
    /// It cannot be told any more.
    Broken,
    NoMemory,
}

/// The files that a run may read: for each path a row and its text, or nothing. No call changes that.
pub trait Files {
    /// What stands at a path.
    ghost stands: { Self → List ℕ → Option Standing };

    /// How many answers were `Broken`.
    ghost broken: { Self → ℕ };

    /// What calls at these paths and no others keep, one after the other.
    ghost follows: { List (List ℕ) → Self → Self → Type 0 };

    /// What stands at the path. `Broken` comes only where the count of such answers rose.
    fn read(&mut self, path: &Path) -> Got
        ensures stays { Stays stands broken self.old self.new }
        ensures asked { (paths : List (List ℕ))
            → IsAmong path.now paths
            → follows paths self.old self.new }
        ensures answer { IsAnswer result (stands self.old path.now) (broken self.old)
            (broken self.new) };

    ghost reflexive: { (paths : List (List ℕ)) (files : Self) → follows paths files files };

    ghost transitive: { (paths : List (List ℕ)) (one two three : Self)
        → follows paths one two
        → follows paths two three
        → follows paths one three };
}
