//! The laws of the steps by which objects are taken, scripts started and objects published. Each is the contract of a function
//! with an empty body.

ghost use Rattle.legal_history.specs.Laws.TakenLaws.{TakenRecordIsSeenKept, TakenRecordIsSeenWinked, NothingIsPassedOverStart, NothingIsPassedOverPublish, NothingIsPassedOverMatch, PublishedRecordIsWhatWasRead, FoundAfterTheStartIsNotHeld};

/// Promises `TakenRecordIsSeenKept` and `TakenRecordIsSeenWinked`.
pub fn a_taken_record_is_seen()
    ensures kept { TakenRecordIsSeenKept }
    ensures winked { TakenRecordIsSeenWinked }
{}

/// Promises `NothingIsPassedOverStart`, `NothingIsPassedOverPublish` and `NothingIsPassedOverMatch`.
pub fn nothing_is_passed_over()
    ensures start { NothingIsPassedOverStart }
    ensures publish { NothingIsPassedOverPublish }
    ensures matched { NothingIsPassedOverMatch }
{}

/// Promises `PublishedRecordIsWhatWasRead`.
pub fn a_published_record_is_what_was_read()
    ensures { PublishedRecordIsWhatWasRead }
{}

/// Promises `FoundAfterTheStartIsNotHeld`.
pub fn what_is_found_after_the_start_is_not_held()
    ensures { FoundAfterTheStartIsNotHeld }
{}
