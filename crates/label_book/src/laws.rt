//! What holds of the holders of labels as changes are added, for those who build on it.

ghost use Rattle.label_book.specs.Laws.{OneChangeMore, OlderHoldersStay, RoomMovesNoLabel};

/// Promises `OneChangeMore`: after a change each label stands where it stands by that change and all older ones, at any number
/// of rows.
pub fn one_change_more()
    ensures { OneChangeMore }
{}

/// Promises `OlderHoldersStay`: a change moves no label in the first rows, where its own row is not among them. So no change
/// alters an answer at a smaller number of rows.
pub fn older_holders_stay()
    ensures { OlderHoldersStay }
{}

/// Promises `RoomMovesNoLabel`: making room moves no label.
pub fn room_moves_no_label()
    ensures { RoomMovesNoLabel }
{}
