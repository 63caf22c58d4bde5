//! The replies to a text of sites.

ghost use Rattle.std.specs.Prelude.{◌≡◌, ◌≤◌, length, Ok};
ghost use Rattle.session_run.specs.Calls.Asked.{text_limit};
ghost use Rattle.session_run.specs.Calls.Causes.{SinkRests, sink_faults};
ghost use Rattle.session_run.specs.Calls.Sites.{session_cause, session_error, status_of_sites};
ghost use Rattle.session_run.specs.Running.Unstarted.{IsShort, WritesReplies, WritesResult, WritesWithoutBase};

use crate::lines::write_unstarted;
use crate::sessions::{Unstarted, WithoutBase};
use crate::statuses::Status;
use cc_names::memory::Or;
use cc_names::refusals::{SessionCause, SessionError};
use cc_names::texts::Text;
use cc_outside::{Sink, write_whole};
use std::alloc::Global;
use std::hash::RandomState;
use vob_replica::events::{SiteCause, SiteError};
use vob_replica::runs::{Replies, run};

fn session_cause(cause: SiteCause) -> SessionCause
    ensures { result ≡ session_cause cause }
{
    match cause {
        SiteCause::UnknownCommand => SessionCause::UnknownCommand,
        SiteCause::BadWord => SessionCause::BadWord,
    }
}

/// A wrong line, as that of a session.
fn session_error(error: SiteError) -> SessionError
    ensures { result ≡ session_error error }
{
    SessionError {
        line: error.line,
        cause: session_cause(error.cause),
    }
}

/// The status of replies that were written.
fn status_of(replies: &Replies) -> Status
    ensures { result ≡ status_of_sites (Ok replies.now) }
{
    if replies.refused {
        Status::SomeFailed
    } else {
        Status::Good
    }
}

/// Writes replies, and answers the status.
fn write_replies<K: Sink>(replies: &Replies, sink: &mut K) -> Status
    ensures writes { WritesResult (Ok replies.now) result (K.ghost_state sink.old).held
        (K.ghost_state sink.new).held
        (sink_faults (K.ghost_state sink.old) (K.ghost_state sink.new)) }
    ensures rests { SinkRests (K.ghost_state sink.old) (K.ghost_state sink.new) }
{
    match write_whole(sink, replies.text.as_bytes()) {
        Ok(()) => status_of(replies),
        Err(_fault) => Status::WriteFault,
    }
}

/// Writes the replies to a text of sites, or the line that says which of its lines says nothing, and answers the status. Takes
/// the time and the memory of `vob_replica::run`.
fn reply<K: Sink>(alloc: Global, hashing: RandomState, text: Text, sink: &mut K) -> Status
    requires { length text ≤ text_limit }
    ensures writes { WritesReplies text result (K.ghost_state sink.old).held
        (K.ghost_state sink.new).held
        (sink_faults (K.ghost_state sink.old) (K.ghost_state sink.new)) }
    ensures rests { SinkRests (K.ghost_state sink.old) (K.ghost_state sink.new) }
{
    match run(alloc, hashing, text.as_bytes()) {
        Ok(replies) => write_replies(&replies, sink),
        Err(Or::Is(error)) => write_unstarted(Unstarted::BadSession(session_error(error)), sink),
        Err(Or::NoMemory) => Status::NoMemory,
    }
}

/// Writes what a call writes that opens no base, and answers the status.
pub(crate) fn write_without_base<K: Sink>(
    alloc: Global,
    hashing: RandomState,
    without: WithoutBase,
    sink: &mut K,
) -> Status
    requires { IsShort without }
    ensures writes { WritesWithoutBase without result (K.ghost_state sink.old).held
        (K.ghost_state sink.new).held
        (sink_faults (K.ghost_state sink.old) (K.ghost_state sink.new)) }
    ensures rests { SinkRests (K.ghost_state sink.old) (K.ghost_state sink.new) }
{
    match without {
        WithoutBase::Line(unstarted) => write_unstarted(unstarted, sink),
        WithoutBase::Replies(text) => reply(alloc, hashing, text, sink),
    }
}
