//! A run of a script.

ghost use Rattle.std.specs.Prelude.{◌≡◌, ℕ, List, IfOk, IfErr};
ghost use Rattle.script_grammar.specs.Run.{after_lines, run_from, run_of_lines, carried_out};
ghost use Rattle.script_grammar.specs.Standings.{Stays, texts};
ghost use Rattle.script_grammar.specs.Parts.{Performed, gives};
ghost use Rattle.build_script.specs.Progress.{run_state, HoldsEach};
ghost use Rattle.build_script.specs.Ended.{ran_of, IsGivenUp};

use crate::files::{Files, GivenUp};
use crate::making::note;
use crate::outcomes::{Ended, Written};
use crate::progress::{Progress, outputs};
use crate::scripts::Script;
use cc_names::lists::List;
use cc_names::memory::{NoMemory, Or};
use cc_names::paths::Path;
use cc_names::texts::Text;
use indexmap::IndexSet;
use script_grammar::halts::Halt;
use script_grammar::lines::Line;
use std::alloc::{AllocError, Global};
use std::hash::RandomState;

/// The targets by their paths.
fn set_of(
    alloc: Global,
    hashing: RandomState,
    targets: &[Path],
) -> Result<IndexSet<Path, RandomState>, NoMemory>
    ensures { IfOk result (λ set. HoldsEach set.keys targets.now) }
{
    let mut set = IndexSet::with_hasher(alloc, hashing);
    for target in targets {
        note(alloc, &mut set, target)?;
    }
    Ok(set)
}

/// Carries out lines one after the other, up to the first fault.
fn run_lines<F: Files>(
    alloc: Global,
    progress: &mut Progress,
    files: &mut F,
    targets: &IndexSet<Path, RandomState>,
    lines: &[Line],
) -> Result<(), Halt>
    ensures { Performed F.stands F.broken F.follows progress.old.reads.keys
        (after_lines targets.now.keys lines.now (run_state progress.old))
        (gives (λ _. run_state progress.new)) result progress.new.reads.keys files.old files.new }
{
    for line in lines {
        progress.carry_out(alloc, files, targets, line)?;
    }
    Ok(())
}

/// Carries out lines, and takes the outputs.
fn run_whole<F: Files>(
    alloc: Global,
    hashing: RandomState,
    progress: &mut Progress,
    files: &mut F,
    targets: &[Path],
    lines: &[Line],
) -> Result<List<Text>, Halt>
    ensures { Performed F.stands F.broken F.follows progress.old.reads.keys
        (run_from targets.now lines.now (run_state progress.old))
        (gives (λ outputs. outputs)) result
        progress.new.reads.keys files.old files.new }
{
    let set = set_of(alloc, hashing, targets)?;
    run_lines(alloc, progress, files, &set, lines)?;
    outputs(alloc, &progress.written, targets)
}

fn into_paths(alloc: Global, reads: IndexSet<Path, RandomState>) -> Result<List<Path>, AllocError>
    ensures { IfOk result (λ paths. paths ≡ reads.keys) }
{
    Ok(List::of(reads.into_iter().collect(alloc)?))
}

/// Carries out a script with these targets over these files.
///
/// The answer is the outputs or the first fault, and the reads; the files are asked for nothing else. A run is given up
/// where the files broke, or where there is no memory. Takes time linear in the bytes of the script and the targets, of
/// the texts that it reads, of what it writes and of the paths of its probes.
pub fn run<F: Files>(
    alloc: Global,
    hashing: RandomState,
    script: &Script,
    targets: &[Path],
    files: &mut F,
) -> Result<Ended, Or<GivenUp>>
    ensures ran { IfOk result
        (λ ended.
        ran_of ended
        ≡ carried_out (texts (F.stands files.old)) (run_of_lines targets.now script.now)) }
    ensures given_up { IfErr result
        (λ cause. IsGivenUp cause (F.broken files.old) (F.broken files.new)) }
    ensures stays { Stays F.stands F.broken files.old files.new }
    ensures asks_its_reads { F.follows
        (carried_out (texts (F.stands files.old)) (run_of_lines targets.now script.now)).reads
        files.old files.new }
{
    let mut progress = Progress::begin(alloc, hashing);
    let result = match run_whole(
        alloc,
        hashing,
        &mut progress,
        files,
        targets,
        script.lines(),
    ) {
        Ok(outputs) => Ok(Written { outputs }),
        Err(Halt::Fault(fault)) => Err(fault),
        Err(Halt::GivenUp(cause)) => return Err(Or::Is(cause)),
        Err(Halt::NoMemory) => return Err(Or::NoMemory),
    };
    let reads = into_paths(alloc, progress.reads)?;
    Ok(Ended { result, reads })
}
