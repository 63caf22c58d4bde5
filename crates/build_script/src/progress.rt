//! How far a run has come: line by line, and the outputs at its end.

ghost use Rattle.std.specs.Prelude.{◌≡◌, ◌++◌, [], ℕ, List, Ok, IfOk, OnOk, length};
ghost use Rattle.std.specs.List.{list_any};
ghost use Rattle.std.specs.Str.{bytes_eq};
ghost use Rattle.script_grammar.specs.Run.{output_start, wrote, write_output, after_line, target_outputs, nothing_written};
ghost use Rattle.script_grammar.specs.Parts.{Performed, PartGave, gives, own_of};
ghost use Rattle.build_script.specs.Progress.{run_state};

use crate::files::Files;
use crate::making::{Made, Making, Outputs, make};
use cc_names::lists::List;
use cc_names::memory::NoMemory;
use cc_names::paths::Path;
use cc_names::refusals::ScriptFault;
use cc_names::texts::Text;
use indexmap::IndexSet;
use script_grammar::halts::Halt;
use script_grammar::lines::{Line, Work};
use std::alloc::Global;
use std::hash::RandomState;

/// Writes what a line made to its output: after what it has, or in its place. Takes time linear in the fresh bytes and
/// the path, spread over the writes to one output.
fn store(
    alloc: Global,
    written: &mut Outputs,
    output: &Path,
    appends: bool,
    fresh: Vec<u8>,
) -> Result<(), NoMemory>
    ensures { OnOk result
        (own_of written.new
        ≡ wrote output.now (output_start appends (own_of written.old output.now) ++ fresh.items)
        (own_of written.old)) }
{
    let bytes = match written.remove(output) {
        Some(mut bytes) if appends => {
            bytes.extend_from_slice(fresh.as_slice())?;
            bytes
        }
        _ => fresh,
    };
    written.insert(output.copy(alloc)?, bytes)?;
    Ok(())
}

/// How many bytes an output has before a line writes to it.
fn length_before(written: &Outputs, output: &Path, appends: bool) -> usize
    ensures { result ≡ length (output_start appends (own_of written.now output.now)) }
{
    match written.get(output) {
        Some(bytes) if appends => bytes.len(),
        _ => 0,
    }
}

/// What a run has written and asked for so far.
#[derive(Drop)]
pub(crate) struct Progress {
    pub(crate) written: Outputs,
    pub(crate) reads: IndexSet<Path, RandomState>,
    pub(crate) probes: u32,
}

impl Progress {
    /// Nothing written and nothing asked for.
    pub(crate) fn begin(alloc: Global, hashing: RandomState) -> Progress
        ensures state { run_state result ≡ nothing_written }
        ensures reads { result.reads.keys ≡ [] }
    {
        Progress {
            written: Outputs::with_hasher(alloc, hashing),
            reads: IndexSet::with_hasher(alloc, hashing),
            probes: 0,
        }
    }

    /// Carries out the work of a line whose output is this target.
    fn write<F: Files>(
        &mut self,
        alloc: Global,
        files: &mut F,
        work: &Work,
        appends: bool,
        path: &Path,
    ) -> Result<(), Halt>
        ensures { Performed F.stands F.broken F.follows self.old.reads.keys
            (write_output (run_state self.old) work.now appends path.now)
            (gives (λ _. run_state self.new)) result self.new.reads.keys files.old files.new }
    {
        let making = Making {
            alloc,
            written: &self.written,
            path,
            before: length_before(&self.written, path, appends),
        };
        let mut made = Made::begin(alloc, self.probes);
        make(making, &mut self.reads, files, &mut made, work)?;
        self.probes = made.probes;
        store(alloc, &mut self.written, path, appends, made.bytes)?;
        Ok(())
    }

    /// Carries out one line: it changes the outputs, or ends the run.
    pub(crate) fn carry_out<F: Files>(
        &mut self,
        alloc: Global,
        files: &mut F,
        targets: &IndexSet<Path, RandomState>,
        line: &Line,
    ) -> Result<(), Halt>
        ensures { Performed F.stands F.broken F.follows self.old.reads.keys
            (after_line targets.now.keys (run_state self.old) line.now)
            (gives (λ _. run_state self.new)) result self.new.reads.keys files.old files.new }
    {
        match line {
            Line::Empty => Ok(()),
            Line::Fail(number) => Err(Halt::Fault(ScriptFault::Failed(*number))),
            Line::Makes {
                work,
                appends,
                output,
            } => {
                if !targets.contains(output) {
                    return Err(Halt::Fault(ScriptFault::StrayWrite(output.copy(alloc)?)));
                }
                self.write(alloc, files, work, *appends, output)
            }
        }
    }
}

/// The output of each target, or the fault of the first that was not written.
pub(crate) fn outputs(
    alloc: Global,
    written: &Outputs,
    targets: &[Path],
) -> Result<List<Text>, Halt>
    ensures { PartGave (target_outputs targets.now (own_of written.now))
        (λ outputs. outputs) result }
{
    let mut outputs = Vec::new(alloc);
    for target in targets {
        let Some(bytes) = written.get(target) else {
            return Err(Halt::Fault(ScriptFault::NotWritten(target.copy(alloc)?)));
        };
        outputs.push(Text::from_bytes(alloc, bytes.as_slice())?)?;
    }
    Ok(List::of(outputs))
}
