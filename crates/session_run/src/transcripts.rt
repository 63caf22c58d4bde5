//! The transcript of a phase.

ghost use Rattle.std.specs.Prelude.{◌≡◌, ◌≤◌, ◌<◌, ◌++◌, IfOk, OnOk, length};
ghost use Rattle.legal_history.specs.Stories.Steps.{state_of};
ghost use Rattle.base_core.specs.Story.Replying.{replies_of};
ghost use Rattle.reply_text.specs.Replies.{render_words};
ghost use Rattle.session_run.specs.Story.Rendered.{phase_line, lanes_text, transcript};

use base_core::Core;
use cc_names::commands::PhaseWords;
use cc_names::memory::NoMemory;
use cc_names::texts::Text;
use disk_model::Disk;
use reply_text::render;
use std::alloc::Global;

fn push_phase_line(alloc: Global, text: &mut Vec<u8>, number: u32) -> Result<(), NoMemory>
    ensures { OnOk result (text.new.items ≡ text.old.items ++ phase_line number) }
{
    let line = format!(in alloc; "phase {number}\n")?;
    text.extend_from_slice(line.as_bytes())?;
    Ok(())
}

fn push_lane<D: Disk>(
    alloc: Global,
    text: &mut Vec<u8>,
    core: &Core<D>,
    phase: &PhaseWords,
    lane: u32,
) -> Result<(), NoMemory>
    requires from { 1 ≤ lane }
    requires upto { lane ≤ length (state_of core.now.story).phase.lanes }
    ensures { OnOk result
        (text.new.items
        ≡ text.old.items ++ render_words phase.now lane (replies_of core.now.story lane)) }
{
    let lines = render(alloc, phase, lane, core.replies(lane))?;
    text.extend_from_slice(lines.as_bytes())?;
    Ok(())
}

fn push_lanes<D: Disk>(alloc: Global, text: &mut Vec<u8>, core: &Core<D>) -> Result<(), NoMemory>
    requires begun { 0 < (state_of core.now.story).number }
    requires few { length (state_of core.now.story).phase.lanes ≤ 64 }
    ensures { OnOk result
        (text.new.items
        ≡ text.old.items
        ++ lanes_text (state_of core.now.story).phase 1 (state_of core.now.story).phase.lanes
        (replies_of core.now.story)) }
{
    let phase = core.phase().words(alloc)?;
    let mut lane = 1u32;
    let mut rest = phase.lanes.as_slice();
    while let Some((_, behind)) = rest.split_first() {
        push_lane(alloc, text, core, &phase, lane)?;
        lane += 1;
        rest = behind;
    }
    Ok(())
}

/// The transcript of the last phase, which has this number: its line, and the lines of its lanes. Takes time linear in the
/// phase's text and in the replies, and memory for the word of each of its commands while the lines are made.
pub(crate) fn transcript<D: Disk>(
    alloc: Global,
    core: &Core<D>,
    number: u32,
) -> Result<Text, NoMemory>
    requires begun { 0 < (state_of core.now.story).number }
    requires few { length (state_of core.now.story).phase.lanes ≤ 64 }
    ensures { IfOk result
        (λ text.
        text ≡ transcript number (state_of core.now.story).phase (replies_of core.now.story)) }
{
    let mut text = Vec::new(alloc);
    push_phase_line(alloc, &mut text, number)?;
    push_lanes(alloc, &mut text, core)?;
    Ok(Text::of(text))
}
