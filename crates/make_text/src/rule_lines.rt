//! Rule lines and include lines, and their faults in the order in which they are tested.

ghost use Rattle.std.specs.Prelude.{◌≡◌, ◌+◌, ◌||◌, IfOk, map, nat_lt, not, slice_get};
ghost use Rattle.std.specs.List.{list_any, list_all};
ghost use Rattle.std.specs.Str.{bytes_eq};
ghost use Rattle.cc_names.specs.Answers.{Gives};
ghost use Rattle.cc_names.specs.Cuts.{words_of};
ghost use Rattle.cc_names.specs.declared.refusals.MakeCause.TheVariants as causes;
ghost use Rattle.make_grammar.specs.Lines.{is_byte};
ghost use Rattle.make_grammar.specs.Macros.{Expansion, one_after_other, plain, is_among, is_macro_name, has_bad_dollar};
ghost use Rattle.make_text.specs.Steps.{IsExpandedText};
ghost use Rattle.make_grammar.specs.Statements.{macros_of, or_cause, macro_fault, expansion_fault, is_special, suffixes_name, is_suffix_byte, is_suffix, is_grouped, before_mark, mark_of, is_semicolon, rule_bytes_fault, line_words_fault, rule_words, include_words_fault, include_words};
ghost use Rattle.make_text.specs.RuleLines.{words_below_root, rule_of_paths, rule_of_words, rule_of_sides, expanded_sides};

use crate::expanded_macros::ExpandedMacros;
use crate::expansions::{EXPANSION_LIMIT, ExpandedText};
use crate::pieces::{has_bad_dollar, is_macro_name};
use crate::word_paths::read_paths_below_root;
use crate::words::words;
use cc_names::lists::List;
use cc_names::memory::{NoMemory, Or};
use cc_names::names::is_name_byte;
use cc_names::paths::Path;
use cc_names::refusals::MakeCause;
use cc_names::texts::Text;
use make_grammar::rule_lines::RuleWords;
use std::alloc::Global;

/// The fault of a macro's name and value.
pub(crate) fn macro_fault(name: &[u8], value: &[u8]) -> Option<MakeCause>
    ensures { result ≡ macro_fault name.now value.now }
{
    if !is_macro_name(name) || has_bad_dollar(value) {
        Some(MakeCause::BadMacro)
    } else {
        None
    }
}

fn has_semicolon(bytes: &[u8]) -> bool
    ensures { result ≡ list_any is_semicolon bytes.now }
{
    bytes.iter().any(|byte| *byte == b';')
}

/// Whether what follows a `:` begins with another, or with a `=`.
fn goes_on(behind: &[u8]) -> bool
    ensures { result
        ≡ (is_byte 58 (slice_get behind.now 0) || is_byte 61 (slice_get behind.now 0)) }
{
    matches!(behind.first(), Some(b':' | b'='))
}

/// The fault of a rule line's own bytes.
fn rule_bytes_fault(before: &[u8], behind: &[u8]) -> Option<MakeCause>
    ensures { result ≡ rule_bytes_fault before.now behind.now }
{
    if has_semicolon(before) || has_semicolon(behind) || goes_on(behind) {
        return Some(MakeCause::BadLine);
    }
    if has_bad_dollar(before) || has_bad_dollar(behind) {
        return Some(MakeCause::BadMacro);
    }
    None
}

/// Whether a word is a special target.
pub(crate) fn is_special(word: &[u8]) -> bool
    ensures { result ≡ is_special word.now }
{
    word == b".PHONY".as_slice() || word == b".SUFFIXES".as_slice() || word == b".POSIX".as_slice()
}

fn has_special_word(words: &[&[u8]]) -> bool
    ensures { result ≡ list_any is_special (map (λ word. word.now) words.now) }
{
    for word in words {
        if is_special(word) {
            return true;
        }
    }
    false
}

fn is_suffixes(word: &[u8]) -> bool
    ensures { result ≡ bytes_eq suffixes_name word.now }
{
    b".SUFFIXES".as_slice() == word
}

fn names_suffixes(words: &[&[u8]]) -> bool
    ensures { result ≡ is_among (map (λ word. word.now) words.now) suffixes_name }
{
    for word in words {
        if is_suffixes(word) {
            return true;
        }
    }
    false
}

fn is_suffix_byte(byte: u8) -> bool
    ensures { result ≡ is_suffix_byte byte }
{
    is_name_byte(byte) && byte != b'.'
}

fn has_suffix_bytes(bytes: &[u8]) -> bool
    ensures { result ≡ list_all is_suffix_byte bytes.now }
{
    bytes.iter().all(|byte| is_suffix_byte(*byte))
}

/// Whether a word is a `.` and then bytes of a name other than `.`.
fn is_suffix(word: &[u8]) -> bool
    ensures { result ≡ is_suffix word.now }
{
    match word.split_first() {
        Some((b'.', rest)) => !rest.is_empty() && has_suffix_bytes(rest),
        _ => false,
    }
}

fn are_suffixes(words: &[&[u8]]) -> bool
    ensures { result ≡ list_all is_suffix (map (λ word. word.now) words.now) }
{
    for word in words {
        if !is_suffix(word) {
            return false;
        }
    }
    true
}

/// The fault of a rule line's words, its paths aside.
fn words_fault(is_group: bool, targets: &[&[u8]], prerequisites: &[&[u8]]) -> Option<MakeCause>
    ensures { result
        ≡ line_words_fault is_group (map (λ word. word.now) targets.now)
        (map (λ word. word.now) prerequisites.now) }
{
    if targets.is_empty() || is_group && has_special_word(targets) {
        return Some(MakeCause::BadLine);
    }
    if names_suffixes(targets) && !are_suffixes(prerequisites) {
        return Some(MakeCause::BadLine);
    }
    None
}

/// The words as paths below the root, or that one of them is none. Takes time linear in the words.
fn words_as_paths(alloc: Global, words: &[&[u8]]) -> Result<List<Path>, Or<MakeCause>>
    ensures { Gives result (words_below_root (map (λ word. word.now) words.now)) }
{
    match read_paths_below_root(alloc, words)? {
        Some(paths) => Ok(List::of(paths)),
        None => Err(Or::Is(MakeCause::BadPath)),
    }
}

/// A rule line of these targets and prerequisites, which are paths below the root.
fn rule_of_paths(
    alloc: Global,
    is_group: bool,
    targets: &[&[u8]],
    prerequisites: &[&[u8]],
) -> Result<RuleWords, Or<MakeCause>>
    ensures { Gives result
        (rule_of_paths is_group (map (λ word. word.now) targets.now)
        (map (λ word. word.now) prerequisites.now)) }
{
    let targets = words_as_paths(alloc, targets)?;
    let prerequisites = words_as_paths(alloc, prerequisites)?;
    Ok(RuleWords {
        is_group,
        targets,
        prerequisites,
    })
}

/// A rule line of these words, or why it is refused.
fn rule_of_words(
    alloc: Global,
    is_group: bool,
    targets: &[&[u8]],
    prerequisites: &[&[u8]],
) -> Result<RuleWords, Or<MakeCause>>
    ensures { Gives result
        (rule_of_words is_group (map (λ word. word.now) targets.now)
        (map (λ word. word.now) prerequisites.now)) }
{
    match words_fault(is_group, targets, prerequisites) {
        Some(cause) => Err(Or::Is(cause)),
        None => rule_of_paths(alloc, is_group, targets, prerequisites),
    }
}

/// A rule line by what its sides expand to.
fn rule_of_sides(
    alloc: Global,
    is_group: bool,
    before: &[u8],
    behind: &[u8],
) -> Result<RuleWords, Or<MakeCause>>
    ensures { Gives result (rule_of_sides is_group before.now behind.now) }
{
    let targets = words(alloc, before)?;
    let prerequisites = words(alloc, behind)?;
    rule_of_words(
        alloc,
        is_group,
        targets.as_slice(),
        prerequisites.as_slice(),
    )
}

/// The bytes of an expansion that has no fault.
fn only_bytes(outcome: ExpandedText) -> Result<Text, MakeCause>
    ensures { (total : Expansion)
        → IsExpandedText total outcome
        → result ≡ or_cause (expansion_fault total) total.bytes }
{
    match outcome {
        ExpandedText::TooLong => Err(MakeCause::LineTooLong),
        ExpandedText::Loop(_) => Err(MakeCause::MacroLoop),
        ExpandedText::Bytes(bytes) => Ok(Text::of(bytes)),
    }
}

/// Whether so many bytes are no more than a line has.
fn fits_line(before: usize, mark: usize, behind: usize) -> bool
    ensures { result ≡ not (nat_lt 65536 (before + (mark + behind))) }
{
    before.saturating_add(mark.saturating_add(behind)) <= EXPANSION_LIMIT
}

/// The bytes of an expansion that has no fault and is not too long after what stands before it and a mark.
fn bytes_behind(before: &Text, mark: &[u8], outcome: ExpandedText) -> Result<Text, MakeCause>
    ensures { (total : Expansion)
        → IsExpandedText total outcome
        → result
        ≡ or_cause
        (expansion_fault (one_after_other (plain before.now) (one_after_other (plain mark.now) total)))
        total.bytes }
{
    let (before, mark) = (before.as_bytes().len(), mark.len());
    match outcome {
        ExpandedText::TooLong => Err(MakeCause::LineTooLong),
        ExpandedText::Loop(bytes) if fits_line(before, mark, bytes.len()) => Err(
            MakeCause::MacroLoop,
        ),
        ExpandedText::Bytes(bytes) if fits_line(before, mark, bytes.len()) => Ok(Text::of(bytes)),
        _ => Err(MakeCause::LineTooLong),
    }
}

/// What stands before the `:` of a rule line, or before its `&:`.
fn before_mark(before: &[u8]) -> &[u8]
    ensures { result.now ≡ before_mark before.now }
{
    match before.split_last() {
        Some((b'&', prefix)) => prefix,
        _ => before,
    }
}

fn is_grouped(before: &[u8]) -> bool
    ensures { result ≡ is_grouped before.now }
{
    matches!(before.last(), Some(b'&'))
}

/// The `:` or `&:` of a rule line.
fn mark_of(before: &[u8]) -> &'static [u8]
    ensures { result.now ≡ mark_of before.now }
{
    if is_grouped(before) { b"&:" } else { b":" }
}

/// Both sides of a rule line expanded, by the first and by what the second gave.
fn both_sides(first: Text, mark: &[u8], outcome: ExpandedText) -> Result<(Text, Text), MakeCause>
    ensures { (total : Expansion)
        → IsExpandedText total outcome
        → result
        ≡ or_cause (expansion_fault (one_after_other (plain first) (one_after_other (plain mark.now) total)))
        (first, total.bytes) }
{
    match bytes_behind(&first, mark, outcome) {
        Ok(second) => Ok((first, second)),
        Err(cause) => Err(cause),
    }
}

/// Both sides of a rule line expanded, which are not too long together with the mark between them.
#[tactic(auto, using(crate::proofs::SideLemmas::first_fault, crate::proofs::SideLemmas::second_sides))]
fn expand_sides(
    alloc: Global,
    macros: &mut ExpandedMacros,
    before: &[u8],
    behind: &[u8],
) -> Result<(Text, Text), Or<MakeCause>>
    ensures same { macros.new ≡ macros.old }
    ensures sides { Gives result (expanded_sides (macros_of macros.old) before.now behind.now) }
{
    let outcome = macros.expand(alloc, before_mark(before))?;
    let first = match only_bytes(outcome) {
        Ok(first) => first,
        Err(cause) => return Err(Or::Is(cause)),
    };
    let outcome = macros.expand(alloc, behind)?;
    match both_sides(first, mark_of(before), outcome) {
        Ok(sides) => Ok(sides),
        Err(cause) => Err(Or::Is(cause)),
    }
}

/// The words of a rule line, by what stands before its `:` and after it; or why it is refused. Takes time linear in the
/// line, in the values of the macros that it is the first to reach since one was last defined, and in what it expands to.
pub(crate) fn read_rule_line(
    alloc: Global,
    macros: &mut ExpandedMacros,
    before: &[u8],
    behind: &[u8],
) -> Result<RuleWords, Or<MakeCause>>
    ensures same { macros.new ≡ macros.old }
    ensures words { Gives result (rule_words (macros_of macros.old) before.now behind.now) }
{
    match rule_bytes_fault(before, behind) {
        Some(cause) => Err(Or::Is(cause)),
        None => match expand_sides(alloc, macros, before, behind) {
            Ok((first, second)) => {
                rule_of_sides(
                    alloc,
                    is_grouped(before),
                    first.as_bytes(),
                    second.as_bytes(),
                )
            }
            Err(fault) => Err(fault),
        },
    }
}

/// The paths after `include`, or why the line is refused. Takes time as `read_rule_line`.
pub(crate) fn read_include_line(
    alloc: Global,
    macros: &mut ExpandedMacros,
    behind: &[u8],
) -> Result<List<Path>, Or<MakeCause>>
    ensures same { macros.new ≡ macros.old }
    ensures paths { Gives result (include_words (macros_of macros.old) behind.now) }
{
    if has_bad_dollar(behind) {
        return Err(Or::Is(MakeCause::BadMacro));
    }
    let expanded = only_bytes(macros.expand(alloc, behind)?).map_err(Or::Is)?;
    include_of_text(alloc, expanded.as_bytes())
}

/// The paths after `include` by what it expands to.
fn include_of_text(alloc: Global, text: &[u8]) -> Result<List<Path>, Or<MakeCause>>
    ensures { Gives result
        (or_cause (include_words_fault (words_of text.now)) (words_of text.now)) }
{
    let words = words(alloc, text)?;
    if words.is_empty() {
        return Err(Or::Is(MakeCause::BadLine));
    }
    words_as_paths(alloc, words.as_slice())
}
