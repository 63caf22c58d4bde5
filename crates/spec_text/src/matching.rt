//! Matching with wild cards in time of one list's length times the other's, without memory.
//!
//! The cards are compared with what they stand for from the start. A wild card stands for nothing at first; where the
//! comparison fails after it, it takes one member more, and the comparison begins again after it. Only the last wild
//! card met is ever tried again: what an earlier one could take, the last one can take too.

ghost use Rattle.std.specs.Prelude.{◌≡◌};
ghost use Rattle.std.specs.Option.{option_copied};
ghost use Rattle.base_model.specs.ConfigSpecs.Patterns.{matches_name, matches_where, fits_byte, fits_name, is_dots};
ghost use Rattle.spec_text.specs.Steps.{IsSegmentStep};
ghost use Rattle.spec_text.specs.Parts.{parts_left};

use crate::parts::split_part;
use cc_names::selection::Segment;

fn fits_byte(card: u8, byte: u8) -> bool
    ensures { result ≡ fits_byte card byte }
{
    card == b'?' || card == byte
}

/// Whether the bytes of a segment match a name: `*` stands for any bytes, `?` for one.
pub(crate) fn matches_name(segment: &[u8], name: &[u8]) -> bool
    ensures { result ≡ matches_name segment.now name.now }
{
    let mut cards = segment;
    let mut left = name;
    let mut again: Option<(&[u8], &[u8])> = None;
    'search: loop {
        if let Some((card, behind)) = cards.split_first() {
            if *card == b'*' {
                again = Some((behind, left));
                cards = behind;
                continue;
            }
            if let Some((byte, rest)) = left.split_first() {
                if fits_byte(*card, *byte) {
                    cards = behind;
                    left = rest;
                    continue;
                }
            }
        } else if left.is_empty() {
            return true;
        }
        let Some((behind, met)) = again else {
            return false;
        };
        let Some((_, rest)) = met.split_first() else {
            return false;
        };
        again = Some((behind, rest));
        cards = behind;
        left = rest;
    }
}

/// Whether a segment is `...`.
fn is_dots(segment: &Segment) -> bool
    ensures { result ≡ is_dots segment.now }
{
    match segment {
        Segment::AnyNames => true,
        Segment::OneName(_) => false,
    }
}

fn fits_name(segment: &Segment, name: &[u8]) -> bool
    ensures { result ≡ fits_name segment.now name.now }
{
    match segment {
        Segment::AnyNames => false,
        Segment::OneName(bytes) => matches_name(bytes.as_bytes(), name),
    }
}

/// How the first segment and the first name that are left go together.
#[derive(Clone, Copy)]
enum Step<'a> {
    /// The segment is `...`; these are after it.
    AnyNames(&'a [Segment]),
    /// The segment matches the name; these are after them.
    OneName(&'a [Segment], Option<&'a [u8]>),
    /// Nothing is left.
    End,
    /// The segments that are left do not match the names.
    Mismatch,
}

fn next_step<'a>(segments: &'a [Segment], names: Option<&'a [u8]>) -> Step<'a>
    ensures { IsSegmentStep segments.now (parts_left 47 (option_copied names.entry)) result }
{
    let Some((segment, behind)) = segments.split_first() else {
        return match split_part(names, b'/') {
            None => Step::End,
            Some(_) => Step::Mismatch,
        };
    };
    if is_dots(segment) {
        return Step::AnyNames(behind);
    }
    match split_part(names, b'/') {
        Some((name, rest)) if fits_name(segment, name) => Step::OneName(behind, rest),
        _ => Step::Mismatch,
    }
}

/// Whether segments match the names that are left of a path: all of them where they are anchored, else those from some
/// name on or after the last.
pub(crate) fn matches_where(anchored: bool, segments: &[Segment], names: Option<&[u8]>) -> bool
    ensures { result
        ≡ matches_where anchored segments.now (parts_left 47 (option_copied names.entry)) }
{
    let mut cards = segments;
    let mut left = names;
    let mut again: Option<(&[Segment], Option<&[u8]>)> = if anchored {
        None
    } else {
        Some((segments, names))
    };
    'search: loop {
        match next_step(cards, left) {
            Step::AnyNames(behind) => {
                again = Some((behind, left));
                cards = behind;
            }
            Step::OneName(behind, rest) => {
                cards = behind;
                left = rest;
            }
            Step::End => return true,
            Step::Mismatch => {
                let Some((behind, met)) = again else {
                    return false;
                };
                let Some((_, rest)) = split_part(met, b'/') else {
                    return false;
                };
                again = Some((behind, rest));
                cards = behind;
                left = rest;
            }
        }
    }
}
