//! Why a part of a run ends early.

use crate::files::GivenUp;
use cc_names::memory::NoMemory;
use cc_names::refusals::ScriptFault;
use std::alloc::{AllocError, AllocFailed};

/// Why a part of a run ends early: by a fault of the script, or given up.
#[derive(Debug, Drop)]
pub enum Halt {
    Fault(ScriptFault),
    GivenUp(GivenUp),
    NoMemory,
}

impl From<NoMemory> for Halt {
    ghost use Rattle.std.specs.Prelude.{◌≡◌};
    ghost use Rattle.script_grammar.specs.declared.halts.Halt.TheVariants as variants;

    ghost from_gives = { λ _ halt. halt ≡ variants.NoMemory };

    fn from(_error: NoMemory) -> Halt {
        Halt::NoMemory
    }
}

impl From<AllocError> for Halt {
    ghost use Rattle.std.specs.Prelude.{◌≡◌};
    ghost use Rattle.script_grammar.specs.declared.halts.Halt.TheVariants as variants;

    ghost from_gives = { λ _ halt. halt ≡ variants.NoMemory };

    fn from(_error: AllocError) -> Halt {
        Halt::NoMemory
    }
}

impl<T: Drop> From<AllocFailed<T>> for Halt {
    ghost use Rattle.std.specs.Prelude.{◌≡◌};
    ghost use Rattle.script_grammar.specs.declared.halts.Halt.TheVariants as variants;

    ghost from_gives = { λ _ halt. halt ≡ variants.NoMemory };

    fn from(_error: AllocFailed<T>) -> Halt {
        Halt::NoMemory
    }
}
