//! The laws of what is decided of a command. Each is the contract of a function with an empty body.

ghost use Rattle.legal_history.specs.Laws.DecisionLaws.{DecidedRowFits, ScrubListsWhatIsDue, RecordIsLabelledAsListedLabel, RecordIsLabelledAsListedObject, RecordIsLabelledAsListedExactly, RecordIsLabelledAsListedOrder, RecordIsLabelledAsListedSelected, RecordIsLabelledAsListedVersions};

/// Promises `DecidedRowFits`.
pub fn a_decided_row_fits()
    ensures { DecidedRowFits }
{}

/// Promises `ScrubListsWhatIsDue`.
pub fn a_scrub_lists_what_is_due()
    ensures { ScrubListsWhatIsDue }
{}

/// Promises `RecordIsLabelledAsListedLabel`, `RecordIsLabelledAsListedObject`, `RecordIsLabelledAsListedExactly`,
/// `RecordIsLabelledAsListedOrder`, `RecordIsLabelledAsListedSelected` and `RecordIsLabelledAsListedVersions`.
pub fn a_record_is_labelled_as_listed()
    ensures label { RecordIsLabelledAsListedLabel }
    ensures object { RecordIsLabelledAsListedObject }
    ensures exactly { RecordIsLabelledAsListedExactly }
    ensures order { RecordIsLabelledAsListedOrder }
    ensures selected { RecordIsLabelledAsListedSelected }
    ensures versions { RecordIsLabelledAsListedVersions }
{}
