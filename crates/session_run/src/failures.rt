//! Whether a command of a phase failed.

ghost use Rattle.std.specs.Prelude.{◌≡◌, ◌≤◌, length};
ghost use Rattle.std.specs.List.{list_any, list_all};
ghost use Rattle.legal_history.specs.Stories.Steps.{state_of};
ghost use Rattle.base_core.specs.Story.Replying.{replies_of};
ghost use Rattle.reply_text.specs.Replies.{is_made_line};
ghost use Rattle.session_run.specs.Story.Rendered.{is_failure, lanes_fail};

use base_core::Core;
use cc_names::replies::{Reply, UnitLine, UnitWord};
use disk_model::Disk;

fn is_line_made(line: &UnitLine) -> bool
    ensures { result ≡ is_made_line line.now }
{
    !matches!(line.word, UnitWord::Failed(_) | UnitWord::Blocked(_))
}

fn are_lines_made(lines: &[UnitLine]) -> bool
    ensures { result ≡ list_all is_made_line lines.now }
{
    lines.iter().all(is_line_made)
}

fn is_failure(reply: &Reply) -> bool
    ensures { result ≡ is_failure reply.now }
{
    match reply {
        Reply::Refused(_) => true,
        Reply::Built(lines) => !are_lines_made(lines.as_slice()),
        _ => false,
    }
}

fn has_failure(replies: &[Reply]) -> bool
    ensures { result ≡ list_any is_failure replies.now }
{
    replies.iter().any(is_failure)
}

/// Whether a command of the last phase failed: it was refused, or a unit of its build is not made. Takes time linear in the
/// replies.
pub(crate) fn any_failed<D: Disk>(core: &Core<D>) -> bool
    requires few { length (state_of core.now.story).phase.lanes ≤ 64 }
    ensures { result
        ≡ lanes_fail 1 (state_of core.now.story).phase.lanes (replies_of core.now.story) }
{
    let lanes = core.lanes() as u32;
    for index in 0..lanes {
        if has_failure(core.replies(index + 1)) {
            return true;
        }
    }
    false
}
