//! The laws of legal stories. Each is the contract of a function with an empty body.

ghost use Rattle.legal_history.specs.Laws.StoryLaws.{StoryGoesOnByALawfulStepOn, StoryGoesOnByALawfulStepLast, BaseFits, BaseOnlyGrowsPrefix, BaseOnlyGrowsBase, RowsStayWithinTheLimit, TicksRise, ViewHasOneBuild, ScrubOfAStoryListsWhatIsDue, HeldObjectIsLiveAtEachStep};

/// Promises `StoryGoesOnByALawfulStepOn` and `StoryGoesOnByALawfulStepLast`.
pub fn a_story_goes_on_by_a_lawful_step()
    ensures on { StoryGoesOnByALawfulStepOn }
    ensures last { StoryGoesOnByALawfulStepLast }
{}

/// Promises `BaseFits`.
pub fn a_base_fits()
    ensures { BaseFits }
{}

/// Promises `BaseOnlyGrowsPrefix` and `BaseOnlyGrowsBase`.
pub fn a_base_only_grows()
    ensures prefix { BaseOnlyGrowsPrefix }
    ensures base { BaseOnlyGrowsBase }
{}

/// Promises `RowsStayWithinTheLimit`.
pub fn rows_stay_within_the_limit()
    ensures { RowsStayWithinTheLimit }
{}

/// Promises `TicksRise`.
pub fn ticks_rise()
    ensures { TicksRise }
{}

/// Promises `ViewHasOneBuild`.
pub fn a_view_has_one_build()
    ensures { ViewHasOneBuild }
{}

/// Promises `ScrubOfAStoryListsWhatIsDue`.
pub fn a_scrub_of_a_story_lists_what_is_due()
    ensures { ScrubOfAStoryListsWhatIsDue }
{}

/// Promises `HeldObjectIsLiveAtEachStep`.
pub fn a_held_object_is_live_at_each_step()
    ensures { HeldObjectIsLiveAtEachStep }
{}
