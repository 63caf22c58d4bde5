//! The laws of outputs: which answers do not hang on the bytes of objects. Each is the contract of a function with an empty
//! body.

ghost use Rattle.legal_history.specs.Laws.OutputLaws.{BlankedSaysTheSameFits, BlankedSaysTheSameBase, BlankedSaysTheSameLive, BlankedSaysTheSameTargets, BlankedSaysTheSameText, BlankedSaysTheSameRerun, OutputsChangeNothingFits, OutputsChangeNothingBase, OutputsChangeNothingLive, OutputsChangeNothingTargets, OutputsChangeNothingText, OutputsChangeNothingRerun, ScrubbedOutputsAreFreeSound, ScrubbedOutputsAreFreeText, EmptiedBaseIsTheSameRows, EmptiedBaseIsTheSameBase, EmptiedBaseIsTheSameSound};

/// Promises `BlankedSaysTheSameFits`, `BlankedSaysTheSameBase`, `BlankedSaysTheSameLive`, `BlankedSaysTheSameTargets`,
/// `BlankedSaysTheSameText` and `BlankedSaysTheSameRerun`.
pub fn a_blanked_base_says_the_same()
    ensures fits { BlankedSaysTheSameFits }
    ensures base { BlankedSaysTheSameBase }
    ensures live { BlankedSaysTheSameLive }
    ensures targets { BlankedSaysTheSameTargets }
    ensures text { BlankedSaysTheSameText }
    ensures rerun { BlankedSaysTheSameRerun }
{}

/// Promises `OutputsChangeNothingFits`, `OutputsChangeNothingBase`, `OutputsChangeNothingLive`,
/// `OutputsChangeNothingTargets`, `OutputsChangeNothingText` and `OutputsChangeNothingRerun`.
pub fn outputs_change_nothing()
    ensures fits { OutputsChangeNothingFits }
    ensures base { OutputsChangeNothingBase }
    ensures live { OutputsChangeNothingLive }
    ensures targets { OutputsChangeNothingTargets }
    ensures text { OutputsChangeNothingText }
    ensures rerun { OutputsChangeNothingRerun }
{}

/// Promises `ScrubbedOutputsAreFreeSound` and `ScrubbedOutputsAreFreeText`.
pub fn scrubbed_outputs_are_free()
    ensures sound { ScrubbedOutputsAreFreeSound }
    ensures text { ScrubbedOutputsAreFreeText }
{}

/// Promises `EmptiedBaseIsTheSameRows`, `EmptiedBaseIsTheSameBase` and `EmptiedBaseIsTheSameSound`.
pub fn an_emptied_base_is_the_same()
    ensures rows { EmptiedBaseIsTheSameRows }
    ensures base { EmptiedBaseIsTheSameBase }
    ensures sound { EmptiedBaseIsTheSameSound }
{}
