//! The laws of longer stories: what stays, however many steps later. Each is the contract of a function with an empty body.

ghost use Rattle.legal_history.specs.Laws.LaterLaws.{StoryGoesLater, LaneIsWithinItsCommands, FinishedLaneStaysFinished, ActiveBuildIsTheSame, WhatAUnitCameToStaysOutcome, WhatAUnitCameToStaysStart, StartedUnitSeesTheSameLaterSeen, StartedUnitSeesTheSameLaterRun};

/// Promises `StoryGoesLater`.
pub fn a_story_goes_later()
    ensures { StoryGoesLater }
{}

/// Promises `LaneIsWithinItsCommands`.
pub fn a_lane_is_within_its_commands()
    ensures { LaneIsWithinItsCommands }
{}

/// Promises `FinishedLaneStaysFinished`.
pub fn a_finished_lane_stays_finished()
    ensures { FinishedLaneStaysFinished }
{}

/// Promises `ActiveBuildIsTheSame`.
pub fn an_active_build_is_the_same()
    ensures { ActiveBuildIsTheSame }
{}

/// Promises `WhatAUnitCameToStaysOutcome` and `WhatAUnitCameToStaysStart`.
pub fn what_a_unit_came_to_stays()
    ensures outcome { WhatAUnitCameToStaysOutcome }
    ensures start { WhatAUnitCameToStaysStart }
{}

/// Promises `StartedUnitSeesTheSameLaterSeen` and `StartedUnitSeesTheSameLaterRun`.
pub fn a_started_unit_sees_the_same_later()
    ensures seen { StartedUnitSeesTheSameLaterSeen }
    ensures run { StartedUnitSeesTheSameLaterRun }
{}
