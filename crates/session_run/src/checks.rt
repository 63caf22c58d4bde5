//! The check of a base, and its line. The line is made without memory.

ghost use Rattle.std.specs.Prelude.{◌≡◌, IfOk, IfErr, OnOk};
ghost use Rattle.std.specs.Io.KnownBytes.{Appends};
ghost use Rattle.cc_outside.specs.Feeds.{AppendsPrefix};
ghost use Rattle.session_run.specs.Calls.Causes.{SinkRests};
ghost use Rattle.session_run.specs.Running.Checks.{is_unsound, verdict_line};
ghost use Rattle.session_run.specs.Running.Runs.{CountsWriteFaults, WritesCut};
ghost use Rattle.session_run.specs.Story.Modeled.{tells_failure, text_modeled};
ghost use Rattle.session_run.specs.declared.words.Form.TheVariants as forms;

use arrayvec::ArrayString;
use base_core::Core;
use cc_names::memory::Or;
use cc_outside::{Sink, WriteFault, write_whole};
use disk_model::Disk;
use itoa::Buffer;
use object_check::Verdict;
use std::alloc::Global;

/// Whether a check found an object that is not what its record gives.
fn is_unsound(verdict: Verdict) -> bool
    ensures { result ≡ is_unsound verdict }
{
    matches!(verdict, Verdict::Unsound(_))
}

/// The line that tells what a check found.
fn verdict_line(verdict: Verdict) -> ArrayString<80>
    ensures { result.bytes ≡ verdict_line verdict }
{
    let (word, number) = match verdict {
        Verdict::Sound(count) => ("sound ", count),
        Verdict::Unsound(row) => ("unsound ", row),
    };
    let mut digits = Buffer::new();
    let mut line = ArrayString::new();
    line.push_str(word);
    line.push_str(digits.format(number));
    line.push_str("\n");
    line
}

/// Runs the record of each live object of the base again and writes the line of what is found. Answers whether an object is not
/// what its record gives. Takes what `Core::verify` takes.
pub(crate) fn write_check<K: Sink, D: Disk>(
    alloc: Global,
    core: &Core<D>,
    sink: &mut K,
) -> Result<bool, Or<WriteFault>>
    ensures found { IfOk result (λ failed. tells_failure forms.Verify core.now.story ≡ failed) }
    ensures ok { OnOk result
        (Appends (K.ghost_state sink.old).held (K.ghost_state sink.new).held
        (text_modeled forms.Verify core.now.story)) }
    ensures err { IfErr result
        (λ cut.
        WritesCut cut (K.ghost_state sink.old).held (K.ghost_state sink.new).held
        (text_modeled forms.Verify core.now.story)) }
    ensures fault { CountsWriteFaults result (K.ghost_state sink.old).faults
        (K.ghost_state sink.new).faults }
    ensures rests { SinkRests (K.ghost_state sink.old) (K.ghost_state sink.new) }
{
    let verdict = core.verify(alloc)?;
    match write_whole(sink, verdict_line(verdict).as_str().as_bytes()) {
        Ok(()) => Ok(is_unsound(verdict)),
        Err(fault) => Err(Or::Is(fault)),
    }
}
