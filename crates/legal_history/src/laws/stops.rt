//! The laws of what a stop leaves of a legal story. Each is the contract of a function with an empty body.

ghost use Rattle.legal_history.specs.Laws.StopLaws.{StopLeavesABase, StopLeavesABaseSound, FaultLeavesABaseSound};

/// Promises `StopLeavesABase`.
pub fn a_stop_leaves_a_base()
    ensures { StopLeavesABase }
{}

/// Promises `StopLeavesABaseSound` and `FaultLeavesABaseSound`.
pub fn a_stop_leaves_a_base_sound()
    ensures stop { StopLeavesABaseSound }
    ensures fault { FaultLeavesABaseSound }
{}
