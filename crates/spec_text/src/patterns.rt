//! Patterns of config specs: which words spell them, and which paths they match.

ghost use Rattle.std.specs.Prelude.{◌≡◌, ◌≢◌, ℕ, Bool, List, is_none, IfOk};
ghost use Rattle.std.specs.Option.{option_copied};
ghost use Rattle.std.specs.List.{list_all, slice_split};
ghost use Rattle.cc_names.specs.Answers.{Gives};
ghost use Rattle.cc_names.specs.Paths.{is_slash, names_of};
ghost use Rattle.base_model.specs.ConfigSpecs.WildCards.{has_none};
ghost use Rattle.base_model.specs.ConfigSpecs.Patterns.{matches, is_lone_star, is_segment_byte, is_segment, are_three_dots, segment_of, pattern_of_segments, pattern_of};
ghost use Rattle.spec_text.specs.Parts.{parts_left};

use crate::matching::matches_where;
use crate::parts::split_part;
use cc_names::lists::List;
use cc_names::memory::{NoMemory, Or};
use cc_names::names::is_name_byte;
use cc_names::refusals::SpecCause;
use cc_names::selection::{Pattern, Segment};
use cc_names::texts::Text;
use std::alloc::Global;

/// The names of a path as they are taken from its start.
fn names(path: &[u8]) -> Option<&[u8]>
    ensures names { parts_left 47 (option_copied result) ≡ names_of path.now }
    ensures root { is_none (option_copied result) ≡ has_none (names_of path.now) }
{
    if matches!(path, [b'.']) {
        return None;
    }
    Some(path)
}

/// Whether the segments are the one segment `*`.
fn is_lone_star(segments: &[Segment]) -> bool
    ensures { result ≡ is_lone_star segments.now }
{
    match segments {
        [Segment::OneName(bytes)] => matches!(bytes.as_bytes(), [b'*']),
        _ => false,
    }
}

/// What a rule of a config spec affects.
pub trait Matches {
    ghost matches_path: { Self → List (List ℕ) → Bool };

    /// Whether it matches the path of these bytes, in time of its length times the path's and without memory.
    fn matches(&self, path: &[u8]) -> bool
        ensures { result ≡ matches_path self.now (names_of path.now) };
}

impl Matches for Pattern {
    ghost matches_path = { matches };

    fn matches(&self, path: &[u8]) -> bool {
        let names = names(path);
        matches_where(self.anchored, self.segments.as_slice(), names)
            || (!self.anchored && is_lone_star(self.segments.as_slice()) && names.is_none())
    }
}

fn is_segment_byte(byte: u8) -> bool
    ensures { result ≡ is_segment_byte byte }
{
    is_name_byte(byte) || byte == b'*' || byte == b'?'
}

fn are_segment_bytes(bytes: &[u8]) -> bool
    ensures { result ≡ list_all is_segment_byte bytes.now }
{
    bytes.iter().all(|byte| is_segment_byte(*byte))
}

fn is_segment(bytes: &[u8]) -> bool
    ensures { result ≡ is_segment bytes.now }
{
    match bytes {
        [] => false,
        [_, ..] => are_segment_bytes(bytes),
    }
}

fn are_three_dots(bytes: &[u8]) -> bool
    ensures { result ≡ are_three_dots bytes.now }
{
    matches!(bytes, [b'.', b'.', b'.'])
}

fn segment(alloc: Global, bytes: &[u8]) -> Result<Segment, NoMemory>
    ensures { IfOk result (λ segment. segment ≡ segment_of bytes.now) }
{
    if are_three_dots(bytes) {
        return Ok(Segment::AnyNames);
    }
    Ok(Segment::OneName(Text::from_bytes(alloc, bytes)?))
}

fn read_segments(alloc: Global, anchored: bool, bytes: &[u8]) -> Result<Pattern, Or<SpecCause>>
    ensures { Gives result (pattern_of_segments anchored (slice_split is_slash bytes.now)) }
{
    let mut segments = Vec::new(alloc);
    let mut left = Some(bytes);
    'parts: while let Some((part, rest)) = split_part(left, b'/') {
        if !is_segment(part) {
            return Err(Or::Is(SpecCause::BadPattern));
        }
        segments.push(segment(alloc, part)?)?;
        left = rest;
    }
    Ok(Pattern {
        anchored,
        segments: List::of(segments),
    })
}

/// Reads a word as a pattern, in time linear in its bytes.
pub(crate) fn read_pattern(alloc: Global, word: &[u8]) -> Result<Pattern, Or<SpecCause>>
    ensures { Gives result (pattern_of word.now) }
{
    match word.split_first() {
        None => Err(Or::Is(SpecCause::BadPattern)),
        Some((b'/', rest)) => read_segments(alloc, true, rest),
        Some(_) => read_segments(alloc, false, word),
    }
}
