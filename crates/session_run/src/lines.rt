//! The line that is written where no base is opened. It is made without memory, so that memory that runs out never hides a cause.

ghost use Rattle.std.specs.Prelude.{◌≡◌, ◌≤◌, length};
ghost use Rattle.story_log.specs.declared.opening.OpenCause.TheVariants as opens;
ghost use Rattle.session_run.specs.declared.sessions.Unstarted.TheVariants as why;
ghost use Rattle.session_run.specs.Calls.Causes.{SinkRests, sink_faults};
ghost use Rattle.session_run.specs.Calls.Statuses.{cause_word};
ghost use Rattle.session_run.specs.Running.Unstarted.{unstarted_status, unstarted_line, WritesUnstarted};

use crate::sessions::Unstarted;
use crate::statuses::Status;
use arrayvec::ArrayString;
use cc_names::refusals::{SessionCause, SessionError};
use cc_outside::{Sink, write_whole};
use itoa::Buffer;
use story_log::OpenCause;

fn cause_word(cause: SessionCause) -> &'static str
    ensures word { result.now ≡ cause_word cause }
    ensures short { length result.now ≤ 14 }
{
    match cause {
        SessionCause::NoPhase => "NoPhase",
        SessionCause::NoLane => "NoLane",
        SessionCause::NoBody => "NoBody",
        SessionCause::TwoLanes => "TwoLanes",
        SessionCause::TooManyLanes => "TooManyLanes",
        SessionCause::UnknownCommand => "UnknownCommand",
        SessionCause::BadWord => "BadWord",
    }
}

/// The status that tells why no session was started.
fn status_of_unstarted(unstarted: Unstarted) -> Status
    ensures { result ≡ unstarted_status unstarted }
{
    match unstarted {
        Unstarted::BadWords => Status::BadWords,
        Unstarted::ReadFault => Status::ReadFault,
        Unstarted::TooLong => Status::TooLong,
        Unstarted::BadSession(error) => Status::BadSession(error),
        Unstarted::Unopened(OpenCause::Damaged(row)) => Status::Damaged(row),
        Unstarted::Unopened(OpenCause::DiskFault) => Status::DiskFault,
        Unstarted::Unopened(OpenCause::NoMemory) => Status::NoMemory,
    }
}

fn text_line(text: &str) -> ArrayString<80>
    requires { length text.now ≤ 80 }
    ensures { result.bytes ≡ text.now }
{
    let mut line = ArrayString::new();
    line.push_str(text);
    line
}

fn error_line(error: SessionError) -> ArrayString<80>
    ensures { result.bytes ≡ unstarted_line (why.BadSession error) }
{
    let mut number = Buffer::new();
    let mut line = ArrayString::new();
    line.push_str("bad session ");
    line.push_str(number.format(error.line));
    line.push_str(" ");
    line.push_str(cause_word(error.cause));
    line.push_str("\n");
    line
}

fn damaged_line(row: u64) -> ArrayString<80>
    ensures { result.bytes ≡ unstarted_line (why.Unopened (opens.Damaged row)) }
{
    let mut number = Buffer::new();
    let mut line = ArrayString::new();
    line.push_str("damaged ");
    line.push_str(number.format(row));
    line.push_str("\n");
    line
}

fn line_of(unstarted: Unstarted) -> ArrayString<80>
    ensures { result.bytes ≡ unstarted_line unstarted }
{
    match unstarted {
        Unstarted::BadWords => text_line("bad words\n"),
        Unstarted::ReadFault => text_line("read fault\n"),
        Unstarted::TooLong => text_line("too long\n"),
        Unstarted::BadSession(error) => error_line(error),
        Unstarted::Unopened(OpenCause::Damaged(row)) => damaged_line(row),
        Unstarted::Unopened(OpenCause::DiskFault) => text_line("disk fault\n"),
        Unstarted::Unopened(OpenCause::NoMemory) => text_line(""),
    }
}

/// Writes the line that says why no session was started, and answers the status. Want of memory has no line. Takes no memory.
#[tactic(auto, using(crate::proofs::Calls::UnstartedStatuses::only_memory, crate::proofs::Calls::UnstartedStatuses::has_line))]
pub(crate) fn write_unstarted<K: Sink>(unstarted: Unstarted, sink: &mut K) -> Status
    ensures writes { WritesUnstarted unstarted result (K.ghost_state sink.old).held
        (K.ghost_state sink.new).held
        (sink_faults (K.ghost_state sink.old) (K.ghost_state sink.new)) }
    ensures rests { SinkRests (K.ghost_state sink.old) (K.ghost_state sink.new) }
{
    if matches!(unstarted, Unstarted::Unopened(OpenCause::NoMemory)) {
        return Status::NoMemory;
    }
    let line = line_of(unstarted);
    match write_whole(sink, line.as_str().as_bytes()) {
        Ok(()) => status_of_unstarted(unstarted),
        Err(_fault) => Status::WriteFault,
    }
}
