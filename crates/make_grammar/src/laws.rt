//! Laws on makefiles that are read, and on the units of a build.

ghost use Rattle.make_grammar.specs.UnitLaws.{UnitsInOrder, UnitsFormed, MakefilesAreFormed};

/// The units of a build are in order: a target is of one unit, and a prerequisite that is a unit's target is one of an
/// earlier unit.
pub fn units_in_order()
    ensures { UnitsInOrder }
{}

/// Each unit of a build has one target or more, below the root, each once, and so its prerequisites; and its script is
/// within the limit, or not run.
pub fn units_formed()
    ensures { UnitsFormed }
{}

/// Every makefile that is read is formed: a rule has one target or more, below the root, each once, and so its
/// prerequisites; and no target is of two rules.
pub fn makefiles_are_formed()
    ensures { MakefilesAreFormed }
{}
