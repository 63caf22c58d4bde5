//! The builders of a build and the lanes of a phase, on threads over a lock.
//!
//! What it is for: a base stands behind a lock, and threads take turns at it. `run_phase` carries out the commands of the lanes
//! of a phase, on a thread for each lane once one of them builds; a command that builds has as many builders as it asks for.
//! Where memory runs out, what is left is carried out once more, one lane after the other and by one builder. A script runs
//! outside the lock, and each of its reads is a turn of its own. `BuildService` is what the base is asked.
//!
//! What it promises: the story that comes back begins with the one handed in. On `Ok` each lane of the phase has nothing left
//! to do. What a run reads is what its unit saw when it began, whatever other threads did meanwhile, and each unit is finished
//! by the run of its own script. It is not promised that a call returns, nor that memory suffices, nor which thread does what.
//!
//! What it stands on: `turn_lock` for the lock, `legal_history` for stories and their laws, `build_script` and `script_grammar`
//! for runs, `cc_outside` for the hook, `cc_names` for plain data, and `crossbeam_deque`.
#![tactic(auto)]

mod before_threads;
mod builder_passes;
mod builders;
mod builds;
mod contexts;
mod drives;
mod lanes;
mod locked_files;
mod phases;
mod runs;
mod script_runs;
mod services;
mod sweeps;
mod task_queues;
mod tasks;
mod turns;

pub use phases::run_phase;
pub use services::{BuildService, PhaseService};
pub use turns::{TurnEnd, UnitTurn};
