//! The phase that began last.

ghost use Rattle.std.specs.Prelude.{◌≡◌, ◌<◌, length};
ghost use Rattle.base_core.specs.Keeping.CoreInvariants.{last_phase};

use session_text::PhaseText;

/// The phase that began last.
pub fn last_phase(phases: &[PhaseText]) -> &PhaseText
    requires { 0 < length phases.now }
    ensures { result.now ≡ last_phase phases.now }
{
    &phases[phases.len() - 1]
}
