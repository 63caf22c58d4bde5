//! What config specs keep to, whatever the program does. Each function does nothing; its contract is the law.

ghost use Rattle.spec_text.specs.Laws.{MatchesOwnPath, MatchesEndsOfPaths, FirstDecides, PicksNothing, StaysAtRows};

/// An anchored pattern without wild cards matches its own path and no other.
pub fn anchored_names_match_their_path()
    ensures { MatchesOwnPath }
{}

/// A pattern without wild cards that is not anchored matches each path that ends in its names, and no other.
pub fn names_match_ends_of_paths()
    ensures { MatchesEndsOfPaths }
{}

/// Rules after one that decides change nothing.
pub fn first_rule_decides()
    ensures { FirstDecides }
{}

/// Nothing is picked exactly where no rule decides or the one that does is `-none`.
pub fn nothing_is_picked()
    ensures { PicksNothing }
{}

/// What is picked in the first rows stays when later rows change the trees or the labels.
pub fn picks_stay()
    ensures { StaysAtRows }
{}
