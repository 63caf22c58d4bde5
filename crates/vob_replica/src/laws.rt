//! What holds of every world of sites, for those who build on it.

ghost use Rattle.vob_replica.specs.Laws.{EqualTablesShowTheSame, ImportsChangeNoOtherSite, ImportsOnlyRaise, MastersAreAlone, NamesAreMadeOnce, NumbersAreMadeOnce, VersionsAreMadeOnce};

/// Promises `ImportsChangeNoOtherSite`: an import leaves what every other site knows, and what it thinks that others know.
pub fn imports_change_no_other_site()
    ensures { ImportsChangeNoOtherSite }
{}

/// Promises `ImportsOnlyRaise`: an import lowers no number in the epoch table of its site.
pub fn imports_only_raise()
    ensures { ImportsOnlyRaise }
{}

/// Promises `EqualTablesShowTheSame`: two sites with equal epoch tables know the same operations and branches, and show the same.
pub fn equal_tables_show_the_same()
    ensures { EqualTablesShowTheSame }
{}

/// Promises `MastersAreAlone`: at most one site holds itself master of a branch.
pub fn masters_are_alone()
    ensures { MastersAreAlone }
{}

/// Promises `NumbersAreMadeOnce`: no two operations make the same number of a branch.
pub fn numbers_are_made_once()
    ensures { NumbersAreMadeOnce }
{}

/// Promises `VersionsAreMadeOnce`: two sites show one version by one number of a branch.
pub fn versions_are_made_once()
    ensures { VersionsAreMadeOnce }
{}

/// Promises `NamesAreMadeOnce`: no two operations make the same branch name on an element.
pub fn names_are_made_once()
    ensures { NamesAreMadeOnce }
{}
