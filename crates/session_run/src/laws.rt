//! What the headline says of each legal history, and what the promises of one call say of the next.

ghost use Rattle.legal_history.specs.Builds.Values.{IsSound};
ghost use Rattle.legal_history.specs.Stories.Steps.{state_of};
ghost use Rattle.session_run.specs.Promises.HandedOn.{SoundnessIsHandedOn};
ghost use Rattle.session_run.specs.Promises.Headline.{AreFromNothing, AreOfTheirCommands};
ghost use Rattle.session_run.specs.Promises.Objects.{HeldObjectsAreLive, ScrubsListWhatIsDue};
ghost use Rattle.session_run.specs.Promises.Reused.{HaveTheirOutcomes, NewBaseWasSound, OfEachLegal, PassNothingOver, RecordWhatTheyRead, TakeWhatTheySee, WasSound};

use legal_history::laws::builds::{
    a_build_is_as_from_nothing, a_build_is_of_its_command,
    an_ended_build_has_its_outcomes_from_nothing,
};
use legal_history::laws::reuse::a_base_stays_sound;
use legal_history::laws::stories::{
    a_held_object_is_live_at_each_step, a_scrub_of_a_story_lists_what_is_due,
};
use legal_history::laws::taken::{
    a_published_record_is_what_was_read, a_taken_record_is_seen, nothing_is_passed_over,
};
use story_log::laws::a_found_base_is_sound;

/// Promises `SoundnessIsHandedOn`: a call that opens what a stop of an earlier call left begins on a sound base, where the
/// earlier one did.
pub fn a_sound_base_is_handed_on()
    ensures { SoundnessIsHandedOn }
{
    a_found_base_is_sound();
}

/// Promises `NewBaseWasSound`.
pub fn a_new_base_was_sound()
    ensures { NewBaseWasSound }
{}

/// Promises that the builds of each legal history are those of their commands, and where the base that was opened is sound, as
/// from nothing.
pub fn builds_are_as_from_nothing()
    ensures commanded { OfEachLegal AreOfTheirCommands }
    ensures built { OfEachLegal (λ story. WasSound story → AreFromNothing story) }
    ensures outcomes { OfEachLegal (λ story. WasSound story → HaveTheirOutcomes story) }
{
    a_build_is_as_from_nothing();
    a_build_is_of_its_command();
    an_ended_build_has_its_outcomes_from_nothing();
}

/// Promises that each legal history reuses what its units see, that it passes no object over and records what is read, and that
/// its base stays sound.
pub fn objects_are_reused_well()
    ensures reused { OfEachLegal TakeWhatTheySee }
    ensures sought { OfEachLegal PassNothingOver }
    ensures recorded { OfEachLegal RecordWhatTheyRead }
    ensures sound { OfEachLegal (λ story. WasSound story → IsSound (state_of story).base) }
{
    a_taken_record_is_seen();
    nothing_is_passed_over();
    a_published_record_is_what_was_read();
    a_base_stays_sound();
}

/// Promises that each scrub of a legal history lists what is due, and that the objects which its views hold are live.
pub fn objects_are_scrubbed_well()
    ensures scrubs { OfEachLegal ScrubsListWhatIsDue }
    ensures held { OfEachLegal HeldObjectsAreLive }
{
    a_scrub_of_a_story_lists_what_is_due();
    a_held_object_is_live_at_each_step();
}
