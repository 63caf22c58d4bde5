//! The laws of reuse: an object that a unit may take in place of a run is worth that run. Each is the contract of a
//! function with an empty body.

ghost use Rattle.legal_history.specs.Laws.ReuseLaws.{BaseStaysSoundStays, BaseStaysSoundFromNothing, RowLeavesABaseSound, PublishedObjectIsTrue, MatchingEntryIsSeenRow, MatchingEntryIsSeenAbsent, MatchIsTheRun, ReusableObjectIsTheRun, NoMatchIsPassedOverLive, NoMatchIsPassedOverRecordIsNew, WhatIsReusedIsHeldKept, WhatIsReusedIsHeldWinked, ReuseIsARebuildMatched, ReuseIsARebuildRun, ReuseIsARebuildFromNothing, UnitThatMayTakeAnObjectMayRun, KeptObjectAgreesAgrees, KeptObjectAgreesLives, WinkedObjectAgreesAgrees, WinkedObjectAgreesLives, WinkedObjectAgreesSound};

/// Promises `BaseStaysSoundStays` and `BaseStaysSoundFromNothing`.
pub fn a_base_stays_sound()
    ensures stays { BaseStaysSoundStays }
    ensures from_nothing { BaseStaysSoundFromNothing }
{}

/// Promises `RowLeavesABaseSound`.
pub fn a_row_leaves_a_base_sound()
    ensures { RowLeavesABaseSound }
{}

/// Promises `PublishedObjectIsTrue`.
pub fn a_published_object_is_true()
    ensures { PublishedObjectIsTrue }
{}

/// Promises `MatchingEntryIsSeenRow` and `MatchingEntryIsSeenAbsent`.
pub fn a_matching_entry_is_seen()
    ensures row { MatchingEntryIsSeenRow }
    ensures absent { MatchingEntryIsSeenAbsent }
{}

/// Promises `MatchIsTheRun`.
pub fn a_match_is_the_run()
    ensures { MatchIsTheRun }
{}

/// Promises `ReusableObjectIsTheRun`.
pub fn a_reusable_object_is_the_run()
    ensures { ReusableObjectIsTheRun }
{}

/// Promises `NoMatchIsPassedOverLive` and `NoMatchIsPassedOverRecordIsNew`.
pub fn no_match_is_passed_over()
    ensures live { NoMatchIsPassedOverLive }
    ensures record_is_new { NoMatchIsPassedOverRecordIsNew }
{}

/// Promises `WhatIsReusedIsHeldKept` and `WhatIsReusedIsHeldWinked`.
pub fn what_is_reused_is_held()
    ensures kept { WhatIsReusedIsHeldKept }
    ensures winked { WhatIsReusedIsHeldWinked }
{}

/// Promises `ReuseIsARebuildMatched`, `ReuseIsARebuildRun` and `ReuseIsARebuildFromNothing`.
pub fn reuse_is_a_rebuild()
    ensures matched { ReuseIsARebuildMatched }
    ensures run { ReuseIsARebuildRun }
    ensures from_nothing { ReuseIsARebuildFromNothing }
{}

/// Promises `UnitThatMayTakeAnObjectMayRun`.
pub fn a_unit_that_may_take_an_object_may_run()
    ensures { UnitThatMayTakeAnObjectMayRun }
{}

/// Promises `KeptObjectAgreesAgrees` and `KeptObjectAgreesLives`.
pub fn a_kept_object_agrees()
    ensures agrees { KeptObjectAgreesAgrees }
    ensures lives { KeptObjectAgreesLives }
{}

/// Promises `WinkedObjectAgreesAgrees`, `WinkedObjectAgreesLives` and `WinkedObjectAgreesSound`.
pub fn a_winked_object_agrees()
    ensures agrees { WinkedObjectAgreesAgrees }
    ensures lives { WinkedObjectAgreesLives }
    ensures sound { WinkedObjectAgreesSound }
{}
