//! How the output of a line is made: the parts of its work, one after the other.

ghost use Rattle.std.specs.Prelude.{◌≡◌, ◌+◌, ◌++◌, ◌∷◌, [], ℕ, List, Ok, IfOk, OnOk, length, map, nat_lt};
ghost use Rattle.std.specs.List.{flat_map, join_with_byte};
ghost use Rattle.script_grammar.specs.Run.{Done, Asks, TextOf, and_then, see, present, needed_text, with_read, with_output, with_part, with_parts, parts_of, output_limit};
ghost use Rattle.script_grammar.specs.Forms.{with_replaced};
ghost use Rattle.build_script.specs.Making.{form_of, made_by_parts, output_by_parts};
ghost use Rattle.script_grammar.specs.Parts.{Performed, PartGave, gives, own_of};
ghost use Rattle.build_script.specs.MadeOf.{made_of};

use crate::files::{Files, GivenUp, Got};
use crate::forms::{Form, digest_line, first_lines, linked_text};
use crate::preprocess::preprocess;
use cc_names::memory::NoMemory;
use cc_names::paths::Path;
use cc_names::refusals::ScriptFault;
use cc_names::texts::Text;
use indexmap::IndexSet;
use memchr::memmem;
use script_grammar::halts::Halt;
use script_grammar::lines::Work;
use std::alloc::Global;
use std::collections::HashMap;
use std::hash::RandomState;
use std::slice::from_ref;

/// The most bytes that an output may have.
const OUTPUT_LIMIT: usize = 1_048_576;

/// The outputs that a run has written so far.
pub(crate) type Outputs = HashMap<Path, Vec<u8>, RandomState>;

/// What a line has made so far, and how many probes its run has made so far.
#[derive(Drop)]
pub(crate) struct Made {
    pub(crate) bytes: Vec<u8>,
    pub(crate) probes: u32,
}

impl Made {
    /// Nothing made yet, and so many probes.
    pub(crate) fn begin(alloc: Global, probes: u32) -> Made
        ensures { made_of result ≡ made_by_parts [] probes }
    {
        Made {
            bytes: Vec::new(alloc),
            probes,
        }
    }
}

/// What the making of a line's output goes by: the run's own outputs as they stood before the line, the output's path,
/// and how many bytes it has before the line writes.
#[derive(Clone, Copy)]
pub(crate) struct Making<'a> {
    pub(crate) alloc: Global,
    pub(crate) written: &'a Outputs,
    pub(crate) path: &'a Path,
    pub(crate) before: usize,
}

/// Notes a path, unless it is noted.
pub(crate) fn note(
    alloc: Global,
    reads: &mut IndexSet<Path, RandomState>,
    path: &Path,
) -> Result<(), NoMemory>
    ensures { OnOk result (reads.new.keys ≡ with_read reads.old.keys path.now) }
{
    if !reads.contains(path) {
        reads.insert(path.copy(alloc)?)?;
    }
    Ok(())
}

/// Asks the files for a path.
fn ask<F: Files>(
    alloc: Global,
    reads: &mut IndexSet<Path, RandomState>,
    files: &mut F,
    path: &Path,
) -> Result<Option<Text>, Halt>
    ensures { Performed F.stands F.broken F.follows reads.old.keys
        (Asks path.now (λ found. Done (Ok found))) (gives (λ found. found)) result reads.new.keys
        files.old files.new }
{
    note(alloc, reads, path)?;
    match files.read(path) {
        Got::Found { row: _, text } => Ok(Some(text)),
        Got::Absent => Ok(None),
        Got::Broken => Err(Halt::GivenUp(GivenUp::Broken)),
        Got::NoMemory => Err(Halt::NoMemory),
    }
}

/// A text by its path: the run's own output where this run has written it, else the file's.
pub(crate) fn see<F: Files>(
    making: Making<'_>,
    reads: &mut IndexSet<Path, RandomState>,
    files: &mut F,
    path: &Path,
) -> Result<Option<Text>, Halt>
    ensures { Performed F.stands F.broken F.follows reads.old.keys
        (and_then (see (own_of making.entry.written.now path.now) path.now)
        (λ found. Done (Ok found))) (gives (λ found. found)) result reads.new.keys files.old
        files.new }
{
    match making.written.get(path) {
        Some(own) => Ok(Some(Text::from_bytes(making.alloc, own.as_slice())?)),
        None => ask(making.alloc, reads, files, path),
    }
}

/// The text, unless it is absent.
fn present(alloc: Global, path: &Path, found: Option<Text>) -> Result<Text, Halt>
    ensures { PartGave (present path.now found) (λ text. text) result }
{
    match found {
        Some(text) => Ok(text),
        None => Err(Halt::Fault(ScriptFault::Absent(path.copy(alloc)?))),
    }
}

/// The text at a path, which has to be there.
pub(crate) fn needed_text<F: Files>(
    making: Making<'_>,
    reads: &mut IndexSet<Path, RandomState>,
    files: &mut F,
    path: &Path,
) -> Result<Text, Halt>
    ensures { Performed F.stands F.broken F.follows reads.old.keys
        (needed_text (own_of making.entry.written.now) path.now) (gives (λ text. text)) result
        reads.new.keys files.old files.new }
{
    let found = see(making, reads, files, path)?;
    present(making.alloc, path, found)
}

/// Whether an output of so many bytes, so many of this line and so many more passes the limit.
fn is_too_big(before: usize, fresh: usize, more: usize) -> bool
    ensures { result ≡ nat_lt output_limit (before + fresh + more) }
{
    before.saturating_add(fresh).saturating_add(more) > OUTPUT_LIMIT
}

/// More bytes after what the line has made, within the limit.
pub(crate) fn say(making: Making<'_>, made: &mut Made, more: &[u8]) -> Result<(), Halt>
    ensures { PartGave
        (with_output (output_by_parts making.entry.path.now making.entry.before) more.now
        (made_of made.old))
        (λ _. made_of made.new) result }
{
    if is_too_big(making.before, made.bytes.len(), more.len()) {
        let path = making.path.copy(making.alloc)?;
        return Err(Halt::Fault(ScriptFault::TooBig(path)));
    }
    made.bytes.extend_from_slice(more)?;
    Ok(())
}

/// A text with each occurrence of some bytes replaced by others. Takes time linear in those bytes, the text and what is
/// said.
fn say_replaced(
    making: Making<'_>,
    made: &mut Made,
    from: &[u8],
    to: &[u8],
    text: &[u8],
) -> Result<(), Halt>
    ensures { PartGave
        (with_output (output_by_parts making.entry.path.now making.entry.before)
        (with_replaced from.now to.now text.now) (made_of made.old))
        (λ _. made_of made.new) result }
{
    if from.is_empty() {
        return say(making, made, text);
    }
    let finder = memmem::Finder::new(from);
    let mut rest = text;
    while let Some(place) = finder.find(rest) {
        say(making, made, &rest[..place])?;
        say(making, made, to)?;
        rest = &rest[place + from.len()..];
    }
    say(making, made, rest)
}

/// A text in this form.
fn say_as(
    making: Making<'_>,
    made: &mut Made,
    form: Form<'_>,
    path: &Path,
    text: &[u8],
) -> Result<(), Halt>
    ensures { PartGave
        (with_output (output_by_parts making.entry.path.now making.entry.before)
        (form_of form.entry path.now text.now) (made_of made.old)) (λ _. made_of made.new)
        result }
{
    match form {
        Form::Whole => say(making, made, text),
        Form::FirstLines(number) => say(making, made, first_lines(text, number)),
        Form::Replaced { from, to } => say_replaced(making, made, from, to, text),
        Form::DigestLine => {
            let line = digest_line(making.alloc, text)?;
            say(making, made, line.as_slice())
        }
        Form::Listed => {
            let bytes = linked_text(making.alloc, path, text)?;
            say(making, made, bytes.as_slice())
        }
    }
}

/// The text at a path in this form.
fn pour<F: Files>(
    making: Making<'_>,
    reads: &mut IndexSet<Path, RandomState>,
    files: &mut F,
    made: &mut Made,
    form: Form<'_>,
    path: &Path,
) -> Result<(), Halt>
    ensures { Performed F.stands F.broken F.follows reads.old.keys
        (with_part (own_of making.entry.written.now)
        (output_by_parts making.entry.path.now making.entry.before)
        (TextOf (form_of form.entry path.now) path.now) (made_of made.old))
        (gives (λ _. made_of made.new)) result reads.new.keys files.old files.new }
{
    let text = needed_text(making, reads, files, path)?;
    say_as(making, made, form, path, text.as_bytes())
}

/// The texts at these paths in this form.
fn pour_all<F: Files>(
    making: Making<'_>,
    reads: &mut IndexSet<Path, RandomState>,
    files: &mut F,
    made: &mut Made,
    form: Form<'_>,
    paths: &[Path],
) -> Result<(), Halt>
    ensures { Performed F.stands F.broken F.follows reads.old.keys
        (with_parts (own_of making.entry.written.now)
        (output_by_parts making.entry.path.now making.entry.before)
        (map (λ path. TextOf (form_of form.entry path) path) paths.now) (made_of made.old))
        (gives (λ _. made_of made.new)) result reads.new.keys files.old files.new }
{
    for path in paths {
        pour(making, reads, files, made, form, path)?;
    }
    Ok(())
}

/// A word, the others with a space before each, and a newline.
fn line_after_word(alloc: Global, first: &Text, others: &[Text]) -> Result<Vec<u8>, NoMemory>
    ensures { IfOk result
        (λ bytes. bytes.items ≡ (first.now ++ flat_map (λ word. 32 ∷ word) others.now) ++ 10 ∷ []) }
{
    let mut bytes = Vec::from_slice(alloc, first.as_bytes())?;
    for word in others {
        bytes.push(b' ')?;
        bytes.extend_from_slice(word.as_bytes())?;
    }
    bytes.push(b'\n')?;
    Ok(bytes)
}

/// The words with one space between, and a newline.
#[tactic(auto, using(crate::proofs::RunLemmas::joined_by_spaces))]
fn join_words(alloc: Global, words: &[Text]) -> Result<Vec<u8>, NoMemory>
    ensures { IfOk result (λ bytes. bytes.items ≡ join_with_byte 32 words.now ++ 10 ∷ []) }
{
    match words.split_first() {
        Some((first, others)) => line_after_word(alloc, first, others),
        None => Ok(Vec::from_slice(alloc, b"\n")?),
    }
}

/// The words with one space between, and a newline.
fn echo(making: Making<'_>, made: &mut Made, words: &[Text]) -> Result<(), Halt>
    ensures { PartGave
        (with_output (output_by_parts making.entry.path.now making.entry.before)
        (join_with_byte 32 words.now ++ 10 ∷ []) (made_of made.old)) (λ _. made_of made.new)
        result }
{
    let bytes = join_words(making.alloc, words)?;
    say(making, made, bytes.as_slice())
}

/// The parts of a line's work.
pub(crate) fn make<F: Files>(
    making: Making<'_>,
    reads: &mut IndexSet<Path, RandomState>,
    files: &mut F,
    made: &mut Made,
    work: &Work,
) -> Result<(), Halt>
    ensures { Performed F.stands F.broken F.follows reads.old.keys
        (with_parts (own_of making.entry.written.now)
        (output_by_parts making.entry.path.now making.entry.before) (parts_of work.now)
        (made_of made.old)) (gives (λ _. made_of made.new)) result reads.new.keys files.old
        files.new }
{
    match work {
        Work::Echo(words) => echo(making, made, words.as_slice()),
        Work::Cat(paths) => pour_all(making, reads, files, made, Form::Whole, paths.as_slice()),
        Work::Preprocess { directories, path } => {
            preprocess(making, reads, files, made, directories.as_slice(), path)
        }
        Work::Substitute { from, to, path } => {
            let form = Form::Replaced {
                from: from.as_bytes(),
                to: to.as_bytes(),
            };
            pour_all(making, reads, files, made, form, from_ref(path))
        }
        Work::Head { lines, path } => {
            pour_all(
                making,
                reads,
                files,
                made,
                Form::FirstLines(*lines),
                from_ref(path),
            )
        }
        Work::Digest(path) => {
            pour_all(making, reads, files, made, Form::DigestLine, from_ref(path))
        }
        Work::Link(paths) => pour_all(making, reads, files, made, Form::Listed, paths.as_slice()),
    }
}
