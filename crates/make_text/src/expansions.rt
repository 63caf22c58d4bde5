//! What a text expands to, by the macros of a makefile.

ghost use Rattle.std.specs.Prelude.{◌≡◌, ◌<◌, ◌-◌, IfOk, [], length, replicate};
ghost use Rattle.make_grammar.specs.Macros.{Expansion, plain, expansion_of, is_too_long};
ghost use Rattle.make_text.specs.Runs.{HasNamesApart, len_in};
ghost use Rattle.make_text.specs.States.{state_at};
ghost use Rattle.make_grammar.specs.Statements.{macros_of};
ghost use Rattle.make_text.specs.Steps.{automatic_of, IsExpanding, work_of, EndsSafely, MacroEnded, RefersSafely, Referred, Took, StepWent, FallsBelow, IsSomeRun, IsExpandedText};
ghost use Rattle.make_text.specs.declared.states.State.TheVariants as variants;

use crate::macros::MacroTable;
use crate::pieces::{Part, cut_part, first_dollar};
use crate::states::{State, States};
use cc_names::memory::NoMemory;
use std::alloc::Global;

/// The most bytes that a line, a macro or a script expands to.
pub(crate) const EXPANSION_LIMIT: usize = 65_536;

/// The values of `$@`, `$<` and `$*`.
#[derive(Clone, Copy, Drop)]
pub(crate) struct Automatic<'a> {
    pub(crate) target: &'a [u8],
    pub(crate) first: Option<&'a [u8]>,
    pub(crate) stem: &'a [u8],
}

/// What a text expands to.
#[derive(Drop)]
pub(crate) enum ExpandedText {
    /// More bytes than a line may have.
    TooLong,
    /// These bytes, up to where the expansion meets a macro that is being expanded.
    Loop(Vec<u8>),
    /// These bytes.
    Bytes(Vec<u8>),
}

/// A macro that is being expanded, what is left of the text outside it, and how many bytes were written before it.
#[derive(Drop)]
pub(crate) struct Opened<'a> {
    index: usize,
    outer: &'a [u8],
    start: usize,
}

/// What a step of an expansion did.
#[derive(Clone, Copy, Drop)]
pub(crate) enum Step {
    /// It goes on.
    Goes,
    /// It came to its end.
    Ends,
    /// It met a macro that is being expanded.
    Loops,
}

/// An expansion under way. It keeps its own stack, so that no chain of macros is too long for it, and where the bytes of
/// each macro stand that was expanded, so that none is expanded twice.
#[derive(Drop)]
pub(crate) struct Expanding<'a> {
    /// What is left of the value of the innermost macro, or of the text.
    rest: &'a [u8],
    opened: Vec<Opened<'a>>,
    states: States,
    pub(crate) written: Vec<u8>,
}

impl<'a> Automatic<'a> {
    /// The value after `$` and this byte.
    fn value(&self, byte: u8) -> &'a [u8]
        ensures { result.now ≡ automatic_of self.now byte }
    {
        match byte {
            b'@' => self.target,
            b'<' => self.first.unwrap_or(&[]),
            _ => self.stem,
        }
    }
}

impl<'a> Expanding<'a> {
    /// The expansion of a text, by so many macros, of which nothing was done. Takes no memory.
    pub(crate) fn of(alloc: Global, count: usize, text: &'a [u8]) -> Expanding<'a>
        ensures rest { result.rest.now ≡ text.now }
        ensures opened { result.opened.items ≡ [] }
        ensures states { result.states ≡ replicate count variants.Untouched }
        ensures written { result.written.items ≡ [] }
    {
        Expanding::behind(
            alloc,
            States::none_touched(alloc, count),
            Vec::new(alloc),
            text,
        )
    }

    /// The expansion of a text after what was written, where these states of the macros are known. Takes no memory.
    pub(crate) fn behind(
        alloc: Global,
        states: States,
        written: Vec<u8>,
        text: &'a [u8],
    ) -> Expanding<'a>
        ensures rest { result.rest.now ≡ text.now }
        ensures opened { result.opened.items ≡ [] }
        ensures states { result.states ≡ states }
        ensures written { result.written.items ≡ written.items }
    {
        Expanding {
            rest: text,
            opened: Vec::new(alloc),
            states,
            written,
        }
    }

    /// The states of the macros, and what was written.
    pub(crate) fn into_parts(self) -> (States, Vec<u8>)
        ensures states { result.0 ≡ self.entry.states }
        ensures written { result.1 ≡ self.entry.written }
    {
        let Expanding {
            rest: _,
            opened: _opened,
            states,
            written,
        } = self;
        (states, written)
    }

    /// How many bytes were written after so many.
    pub(crate) fn written_behind(&self, start: usize) -> usize
        ensures { result ≡ length self.now.written.items - start }
    {
        self.written.len().saturating_sub(start)
    }

    /// Ends the innermost macro, whose result is known then.
    fn end(&mut self) -> Result<Step, NoMemory>
        requires { EndsSafely self.old }
        ensures { IfOk result (λ step. MacroEnded self.old step self.new) }
    {
        let Some(innermost) = self.opened.pop() else {
            return Ok(Step::Ends);
        };
        let Opened {
            index,
            outer,
            start,
        } = innermost;
        let ended = State::Expanded(start, self.written.len() - start);
        self.states.set(index, ended)?;
        self.rest = outer;
        Ok(Step::Goes)
    }

    /// How many bytes a macro gave whose expansion ended.
    pub(crate) fn known_len(&self, index: usize) -> Option<usize>
        requires { index < length self.now.states }
        ensures { result ≡ len_in (state_at self.now.states index) }
    {
        match self.states.get(index) {
            State::Expanded(_start, len) => Some(len),
            _ => None,
        }
    }

    /// A reference to the macro of this name.
    pub(crate) fn refer(
        &mut self,
        alloc: Global,
        macros: &'a MacroTable,
        name: &[u8],
    ) -> Result<Step, NoMemory>
        requires { RefersSafely (macros_of macros.now) self.old }
        ensures { IfOk result
            (λ step. Referred (macros_of macros.now) name.now self.old self.new step) }
    {
        let Some(index) = macros.find(alloc, name)? else {
            return Ok(Step::Goes);
        };
        match self.states.get(index) {
            State::Begun => Ok(Step::Loops),
            State::Expanded(start, len) => {
                self.written.extend_from_within(start..start + len)?;
                Ok(Step::Goes)
            }
            State::Untouched => {
                let opened = Opened {
                    index,
                    outer: self.rest,
                    start: self.written.len(),
                };
                self.opened.push(opened)?;
                self.states.set(index, State::Begun)?;
                self.rest = macros.value(index);
                Ok(Step::Goes)
            }
        }
    }

    /// What a part of the text gives, after which the text goes on.
    fn take(
        &mut self,
        alloc: Global,
        macros: &'a MacroTable,
        automatic: &Automatic<'a>,
        part: Part<'_>,
    ) -> Result<Step, NoMemory>
        requires { RefersSafely (macros_of macros.now) self.old }
        ensures { IfOk result
            (λ step.
            Took (macros_of macros.now) (automatic_of automatic.now) part.entry self.old
            self.new step) }
    {
        match part {
            Part::Bytes(bytes) => self.written.extend_from_slice(bytes)?,
            Part::Automatic(byte) => self.written.extend_from_slice(automatic.value(byte))?,
            Part::Reference(name) => return self.refer(alloc, macros, name),
            Part::Bad => {}
        }
        Ok(Step::Goes)
    }

    /// One step: the first part of what is left, or the end of the innermost macro.
    pub(crate) fn step(
        &mut self,
        alloc: Global,
        macros: &'a MacroTable,
        automatic: &Automatic<'a>,
    ) -> Result<Step, NoMemory>
        requires apart { HasNamesApart (macros_of macros.now) }
        requires runs { IsSomeRun (macros_of macros.now) (automatic_of automatic.now) self.old }
        ensures went { IfOk result
            (λ step.
            (total : Expansion)
            → IsExpanding (macros_of macros.now) (automatic_of automatic.now) total [] self.old
            → StepWent (macros_of macros.now) (automatic_of automatic.now) total step self.new) }
        ensures falls { IfOk result
            (λ step.
            FallsBelow (work_of (macros_of macros.now) self.old) step
            (work_of (macros_of macros.now) self.new)) }
    {
        if self.rest.is_empty() {
            return self.end();
        }
        let (part, behind) = cut_part(self.rest);
        self.rest = behind;
        self.take(alloc, macros, automatic, part)
    }
}

/// The bytes of an expansion, unless they are too many; a loop may have ended it.
pub(crate) fn unless_too_long(written: Vec<u8>, loops: bool) -> ExpandedText
    ensures { IsExpandedText (record { bytes = written.items; loops = loops }) result }
{
    if written.len() > EXPANSION_LIMIT {
        return ExpandedText::TooLong;
    }
    if loops {
        ExpandedText::Loop(written)
    } else {
        ExpandedText::Bytes(written)
    }
}

/// The bytes of a text that has no reference, unless they are too many.
pub(crate) fn plain_outcome(alloc: Global, text: &[u8]) -> Result<ExpandedText, NoMemory>
    ensures { IfOk result (λ outcome. IsExpandedText (plain text.now) outcome) }
{
    if text.len() > EXPANSION_LIMIT {
        return Ok(ExpandedText::TooLong);
    }
    Ok(ExpandedText::Bytes(Vec::from_slice(alloc, text)?))
}

/// Expands a text. Takes time linear in the text, in the values of the macros that it reaches, each once, and in what it
/// expands to, up to the most bytes of a line, times a logarithm for each macro; and memory for as many bytes, and for one state
/// for each macro that it reaches.
pub(crate) fn expand<'a>(
    alloc: Global,
    macros: &'a MacroTable,
    automatic: &Automatic<'a>,
    text: &'a [u8],
) -> Result<ExpandedText, NoMemory>
    ensures { IfOk result
        (λ outcome.
        IsExpandedText (expansion_of (macros_of macros.now) (automatic_of automatic.now) text.now)
        outcome) }
{
    if first_dollar(text).is_none() {
        return plain_outcome(alloc, text);
    }
    let count = macros.len();
    let mut expanding = Expanding::of(alloc, count, text);
    'steps: loop {
        match expanding.step(alloc, macros, automatic)? {
            Step::Goes => {}
            Step::Ends => return Ok(unless_too_long(expanding.written, false)),
            Step::Loops => return Ok(unless_too_long(expanding.written, true)),
        }
        if expanding.written.len() > EXPANSION_LIMIT {
            return Ok(ExpandedText::TooLong);
        }
    }
}
