//! A text of sites, from its bytes to its replies.

ghost use Rattle.std.specs.Prelude.{◌≡◌, ◌++◌, ◌<◌, ◌^◌, IfOk, OnOk, length};
ghost use Rattle.std.specs.List.{list_any};
ghost use Rattle.cc_names.specs.Answers.{Gives};
ghost use Rattle.vob_replica.specs.Runs.{is_refused, run_of};
ghost use Rattle.vob_replica.specs.World.{answers_behind, replies_behind};

use crate::events::{Event, SiteError};
use crate::operations::Answer;
use crate::showing::push_reply;
use crate::sites::Sites;
use cc_names::memory::{NoMemory, Or};
use cc_names::texts::Text;
use std::alloc::Global;
use std::hash::RandomState;

/// The replies to a text of sites, and whether an event was refused.
#[derive(Drop)]
pub struct Replies {
    pub text: Text,
    pub refused: bool,
}

/// Whether an event was refused.
fn is_refused(answer: &Answer) -> bool
    ensures { result ≡ is_refused answer.now }
{
    matches!(answer, Answer::Refused(_))
}

/// Lets events happen, one after the other, and writes their replies. Answers whether one was refused.
fn reply_all(
    alloc: Global,
    sites: &mut Sites,
    events: &[Event],
    text: &mut Vec<u8>,
) -> Result<bool, NoMemory>
    ensures text { OnOk result
        (text.new.items ≡ text.old.items ++ replies_behind 0 sites.old events.now) }
    ensures refused { IfOk result
        (λ refused. refused ≡ list_any is_refused (answers_behind sites.old events.now)) }
{
    let mut refused = false;
    let mut number = 0;
    for event in events {
        number += 1;
        let answer = sites.step(alloc, event)?;
        push_reply(alloc, text, number, event, &answer)?;
        refused = refused || is_refused(&answer);
    }
    Ok(refused)
}

/// The replies to the events of a text of sites, or its first line that cannot be read. Takes the time of reading and of each
/// event (`Sites::step`), and memory for the events, what the sites know, the packets and the replies.
pub fn run(alloc: Global, hashing: RandomState, text: &[u8]) -> Result<Replies, Or<SiteError>>
    requires { length text.now < 2 ^ 32 }
    ensures { Gives result (run_of text.now) }
{
    let events = Event::read(alloc, text)?;
    let mut sites = Sites::new(alloc, hashing);
    let mut replies = Vec::new(alloc);
    let refused = reply_all(alloc, &mut sites, events.as_slice(), &mut replies)?;
    let text = Text::of(replies);
    Ok(Replies { text, refused })
}
