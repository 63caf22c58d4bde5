//! Where the next line of a kind stands.

ghost use Rattle.std.specs.Prelude.{◌≡◌, [], MatchOption};
ghost use Rattle.session_text.specs.Reading.{FindsPhase, FindsLane, FindsCommand, PassesLines, PassesCommand};
ghost use Rattle.session_text.specs.Kinds.{kinds_of};
ghost use Rattle.session_text.specs.Sessions.{commands_of, lanes_of, phases_of};

use crate::kinds::{Bytes, Kind, Rest};
use cc_names::cuts::Words;

/// Finds the next phase, and answers the words after `phase`.
pub(crate) fn find_phase<'a>(rest: &mut Rest<'a>) -> Option<Words<'a>>
    ensures { MatchOption result (phases_of (kinds_of rest.old.bytes) ≡ [])
        (λ words. FindsPhase rest.old words rest.new) }
{
    'lines: while let Some(kind) = rest.next() {
        match kind {
            Kind::Phase(words) => return Some(words),
            Kind::Skipped => {}
            Kind::Body(_bytes) => {}
            Kind::Lane(_words) => {}
            Kind::Command(_word, _words) => {}
        }
    }
    None
}

/// Finds the next lane of a phase, and answers the words after `lane`.
pub(crate) fn find_lane<'a>(rest: &mut Rest<'a>) -> Option<Words<'a>>
    ensures { MatchOption result (lanes_of (kinds_of rest.old.bytes) ≡ [])
        (λ words. FindsLane rest.old words rest.new) }
{
    'lines: while let Some(kind) = rest.next() {
        match kind {
            Kind::Phase(_words) => return None,
            Kind::Lane(words) => return Some(words),
            Kind::Skipped => {}
            Kind::Body(_bytes) => {}
            Kind::Command(_word, _words) => {}
        }
    }
    None
}

/// Finds the next command of a lane, and answers its word and the words after that.
pub(crate) fn find_command<'a>(rest: &mut Rest<'a>) -> Option<(Bytes<'a>, Words<'a>)>
    ensures { MatchOption result (commands_of (kinds_of rest.old.bytes) ≡ [])
        (λ found. FindsCommand rest.old found.0 found.1 rest.new) }
{
    'lines: while let Some(kind) = rest.next() {
        match kind {
            Kind::Phase(_words) | Kind::Lane(_words) => return None,
            Kind::Command(word, words) => return Some((word, words)),
            Kind::Skipped => {}
            Kind::Body(_bytes) => {}
        }
    }
    None
}

/// Goes past the body lines, and past lines that are skipped, to the next line that is neither.
fn pass_body(rest: &mut Rest<'_>)
    ensures { PassesLines commands_of rest.old rest.new }
{
    let mut behind = rest.again();
    'lines: while let Some(Kind::Skipped | Kind::Body(_)) = behind.next() {
        *rest = behind.again();
    }
}

/// Goes past the next command of a lane and its body lines, and answers whether there is one.
pub(crate) fn pass_command(rest: &mut Rest<'_>) -> bool
    ensures { PassesCommand result rest.old rest.new }
{
    match find_command(rest) {
        None => false,
        Some((_word, _words)) => {
            pass_body(rest);
            true
        }
    }
}
