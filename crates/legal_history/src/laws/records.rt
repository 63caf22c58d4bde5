//! The laws of records: where one is run again, and how it selects. Each is the contract of a function with an empty
//! body.

ghost use Rattle.legal_history.specs.Laws.RecordLaws.{CoveredRecordRunsAgain, SelectionByARecordCovers};

/// Promises `CoveredRecordRunsAgain`.
pub fn a_covered_record_runs_again()
    ensures { CoveredRecordRunsAgain }
{}

/// Promises `SelectionByARecordCovers`.
pub fn selection_by_a_record_covers()
    ensures { SelectionByARecordCovers }
{}
