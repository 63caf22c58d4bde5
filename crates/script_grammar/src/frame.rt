//! A law of runs.

ghost use Rattle.std.specs.Prelude.{ℕ, List};
ghost use Rattle.script_grammar.specs.Frame.{IsFramed};

/// The law of the frame: where two files have the same text, or both none, at each of the reads of a run over the one,
/// its run over the other is equal. So a run may be taken again wherever its reads stand as they did.
#[tactic(auto, using(crate::proofs::FrameLemmas::run_framed))]
pub fn runs_are_framed()
    ensures { (script : List ℕ) (targets : List (List ℕ)) → IsFramed script targets }
{}
