//! The laws of builds in legal stories. Each is the contract of a function with an empty body.

ghost use Rattle.legal_history.specs.Laws.BuildLaws.{BuildGoesOn, BuildIsLeftByItsEnd, BuildIsFinishedByItsRefusalOrItsEndRefusal, BuildIsFinishedByItsRefusalOrItsEndEnd, BuildIsOfItsCommand, StartedUnitSeesTheSameRun, StartedUnitSeesTheSameSeen, WhatAUnitSeesStaysSeen, WhatAUnitSeesStaysRun, PlaceOfAUnitStays, GivenObjectIsHeld, BuildIsConsistent, BuildAgrees, EndedBuildHasItsOutcomesFromNothing, BuildIsAsFromNothing};

/// Promises `BuildGoesOn`.
pub fn a_build_goes_on()
    ensures { BuildGoesOn }
{}

/// Promises `BuildIsLeftByItsEnd`.
pub fn a_build_is_left_by_its_end()
    ensures { BuildIsLeftByItsEnd }
{}

/// Promises `BuildIsFinishedByItsRefusalOrItsEndRefusal` and `BuildIsFinishedByItsRefusalOrItsEndEnd`.
pub fn a_build_is_finished_by_its_refusal_or_its_end()
    ensures refusal { BuildIsFinishedByItsRefusalOrItsEndRefusal }
    ensures end { BuildIsFinishedByItsRefusalOrItsEndEnd }
{}

/// Promises `BuildIsOfItsCommand`.
pub fn a_build_is_of_its_command()
    ensures { BuildIsOfItsCommand }
{}

/// Promises `StartedUnitSeesTheSameRun` and `StartedUnitSeesTheSameSeen`.
pub fn a_started_unit_sees_the_same()
    ensures run { StartedUnitSeesTheSameRun }
    ensures seen { StartedUnitSeesTheSameSeen }
{}

/// Promises `WhatAUnitSeesStaysSeen` and `WhatAUnitSeesStaysRun`.
pub fn what_a_unit_sees_stays()
    ensures seen { WhatAUnitSeesStaysSeen }
    ensures run { WhatAUnitSeesStaysRun }
{}

/// Promises `PlaceOfAUnitStays`.
pub fn the_place_of_a_unit_stays()
    ensures { PlaceOfAUnitStays }
{}

/// Promises `GivenObjectIsHeld`.
pub fn a_given_object_is_held()
    ensures { GivenObjectIsHeld }
{}

/// Promises `BuildIsConsistent`.
pub fn a_build_is_consistent()
    ensures { BuildIsConsistent }
{}

/// Promises `BuildAgrees`.
pub fn a_build_agrees()
    ensures { BuildAgrees }
{}

/// Promises `EndedBuildHasItsOutcomesFromNothing`.
pub fn an_ended_build_has_its_outcomes_from_nothing()
    ensures { EndedBuildHasItsOutcomesFromNothing }
{}

/// Promises `BuildIsAsFromNothing`.
pub fn a_build_is_as_from_nothing()
    ensures { BuildIsAsFromNothing }
{}
