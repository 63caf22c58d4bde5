//! What the form of words carries out: the session that the source gives, the large session or none, or a text of sites.

ghost use Rattle.std.specs.Prelude.{◌≡◌, ◌≤◌, Some, true, IfOk, IfErr, length};
ghost use Rattle.session_run.specs.Calls.Asked.{reads_source, text_limit};
ghost use Rattle.session_run.specs.Calls.Causes.{intake_by, intake_of, TakesNoMore};
ghost use Rattle.session_run.specs.Running.Unstarted.{GivesPhases, GivesText, HasPhases, IsGivenBy, IsNotGivenBy, IsSaid, IsUnsaid, IsUnstarted, IsWithoutBase, of_unread, of_unsaid};
ghost use Rattle.session_run.specs.declared.words.Form.{Form};

use crate::words::{Form, form_of};
use cc_names::memory::{NoMemory, Or};
use cc_names::refusals::SessionError;
use cc_names::texts::Text;
use cc_outside::{Source, Unread, read_whole};
use large_session::make_session;
use session_text::{PhaseText, read};
use std::alloc::Global;
use std::hash::RandomState;
use story_log::OpenCause;

/// The most bytes of a session's text.
const TEXT_LIMIT: usize = 16_777_216;

/// Why a session is not started.
#[derive(Clone, Copy, Debug, PartialEq, Eq)]
pub(crate) enum Unstarted {
    BadWords,
    ReadFault,
    TooLong,
    BadSession(SessionError),
    /// The base cannot be opened, or memory ran out before.
    Unopened(OpenCause),
}

fn of_unread(unread: Or<Unread>) -> Unstarted
    ensures { result ≡ of_unread unread }
{
    match unread {
        Or::Is(Unread::Fault) => Unstarted::ReadFault,
        Or::Is(Unread::TooLong) => Unstarted::TooLong,
        Or::NoMemory => Unstarted::Unopened(OpenCause::NoMemory),
    }
}

fn of_unsaid(error: Or<SessionError>) -> Unstarted
    ensures { result ≡ of_unsaid error }
{
    match error {
        Or::Is(error) => Unstarted::BadSession(error),
        Or::NoMemory => Unstarted::Unopened(OpenCause::NoMemory),
    }
}

/// What the words of a call ask of a base, and the phases of its session.
#[derive(Drop)]
pub(crate) struct GivenSession {
    pub(crate) form: Form,
    pub(crate) phases: Vec<PhaseText>,
}

/// What is done without a base.
#[derive(Drop)]
pub(crate) enum WithoutBase {
    /// No session is started, and a line says why.
    Line(Unstarted),
    /// This text of sites is replied to.
    Replies(Text),
}

/// The text that the source gives to its end.
fn text_read<S: Source>(alloc: Global, source: &mut S) -> Result<Text, Unstarted>
    ensures gives { (form : Form) → reads_source (Some form) ≡ true
        → IfOk result
        (λ text.
        GivesText form
        (intake_by (Some form) (S.ghost_state source.old) (S.ghost_state source.new)) text) }
    ensures why { (form : Form) → reads_source (Some form) ≡ true
        → IfErr result
        (λ unstarted.
        IsUnstarted unstarted
        (intake_by (Some form) (S.ghost_state source.old) (S.ghost_state source.new))) }
    ensures taken { (form : Form) → reads_source (Some form) ≡ true
        → TakesNoMore
        (intake_by (Some form) (S.ghost_state source.old) (S.ghost_state source.new)) }
{
    match read_whole(alloc, source, TEXT_LIMIT) {
        Ok(text) => Ok(text),
        Err(unread) => Err(of_unread(unread)),
    }
}

/// The text that a form carries out. That of a check has no line.
fn text_given<S: Source>(alloc: Global, form: Form, source: &mut S) -> Result<Text, Unstarted>
    requires { IsSaid form }
    ensures gives { IfOk result
        (λ text.
        GivesText form
        (intake_by (Some form) (S.ghost_state source.old) (S.ghost_state source.new)) text) }
    ensures why { IfErr result
        (λ unstarted.
        IsUnstarted unstarted
        (intake_by (Some form) (S.ghost_state source.old) (S.ghost_state source.new))) }
    ensures taken { TakesNoMore
        (intake_by (Some form) (S.ghost_state source.old) (S.ghost_state source.new)) }
{
    match form {
        Form::Run => text_read(alloc, source),
        Form::Big { seed, size } => match make_session(alloc, seed, size) {
            Ok(text) => Ok(text),
            Err(NoMemory) => Err(Unstarted::Unopened(OpenCause::NoMemory)),
        },
        Form::Verify => Ok(Text::of(Vec::new(alloc))),
        Form::Sites => text_read(alloc, source),
    }
}

/// The phases that a text spells.
fn phases_of(alloc: Global, hashing: RandomState, text: Text) -> Result<Vec<PhaseText>, Unstarted>
    requires { length text ≤ text_limit }
    ensures has { IfOk result (λ phases. HasPhases text phases.items) }
    ensures why { IfErr result (λ unstarted. IsUnsaid text unstarted) }
{
    let session = match read(alloc, hashing, text) {
        Ok(session) => session,
        Err(error) => return Err(of_unsaid(error)),
    };
    match session.into_phases().into_vec(alloc) {
        Ok(phases) => Ok(phases),
        Err(NoMemory) => Err(of_unsaid(Or::NoMemory)),
    }
}

/// The session that a form runs with a text.
fn session_of(
    alloc: Global,
    hashing: RandomState,
    form: Form,
    text: Text,
) -> Result<GivenSession, WithoutBase>
    requires { length text ≤ text_limit }
    ensures gives { IfOk result (IsGivenBy form text) }
    ensures why { IfErr result (IsNotGivenBy form text) }
{
    match form {
        Form::Sites => Err(WithoutBase::Replies(text)),
        _ => match phases_of(alloc, hashing, text) {
            Ok(phases) => Ok(GivenSession { form, phases }),
            Err(unstarted) => Err(WithoutBase::Line(unstarted)),
        },
    }
}

/// What the words ask of a base, and the phases of its session, or what is done without one. The source is read for `run` and
/// `sites` alone.
pub(crate) fn session_given<S: Source>(
    alloc: Global,
    hashing: RandomState,
    words: &[Text],
    source: &mut S,
) -> Result<GivenSession, WithoutBase>
    ensures gives { IfOk result
        (λ given.
        GivesPhases
        (intake_of words.now (S.ghost_state source.old) (S.ghost_state source.new)) given.form
        given.phases.items) }
    ensures why { IfErr result
        (λ without.
        IsWithoutBase without
        (intake_of words.now (S.ghost_state source.old) (S.ghost_state source.new))) }
    ensures taken { TakesNoMore
        (intake_of words.now (S.ghost_state source.old) (S.ghost_state source.new)) }
{
    let Some(form) = form_of(words) else {
        return Err(WithoutBase::Line(Unstarted::BadWords));
    };
    match text_given(alloc, form, source) {
        Ok(text) => session_of(alloc, hashing, form, text),
        Err(unstarted) => Err(WithoutBase::Line(unstarted)),
    }
}
