//! What holds of the versions of every list of changes, for those who build on it.

ghost use Rattle.version_tree.specs.Laws.{OlderRowsStay, NumbersHaveNoGap, WhatWasMadeStaysMade, WhatWasMadeStaysPlaced};

/// Promises `OlderRowsStay`: a change does nothing to what the first rows made, where its own row is not among them. So no add
/// changes an answer at a smaller number of rows.
pub fn older_rows_stay()
    ensures { OlderRowsStay }
{}

/// Promises `NumbersHaveNoGap`: the numbers of the versions on a branch count from 0 without a gap, whatever the order in which
/// branches grow.
pub fn numbers_have_no_gap()
    ensures { NumbersHaveNoGap }
{}

/// Promises `WhatWasMadeStaysMade` and `WhatWasMadeStaysPlaced`: what a row made is changed by no later change, nor where its
/// version stands. So kinds, origins, names, branches and version ids stay as they are.
pub fn what_was_made_stays()
    ensures made { WhatWasMadeStaysMade }
    ensures placed { WhatWasMadeStaysPlaced }
{}
