//! How a core carries out commands that build nothing.

ghost use Rattle.std.specs.Prelude.{◌≡◌};
ghost use Rattle.base_core.specs.Calls.Answering.{append_reply, append_done};
ghost use Rattle.base_core.specs.Story.Replying.{replied_count, row_reply};

use super::Core;
use crate::answers::answer;
use cc_names::commands::{Change, Command, Query};
use cc_names::memory::{NoMemory, Or};
use cc_names::occasions::Done;
use cc_names::refusals::Refusal;
use cc_names::replies::Reply;
use cc_names::rows::{Deed, Row, Tag};
use cc_names::texts::Text;
use checkout_desk::{decide, view_of};
use disk_model::Disk;
use std::alloc::Global;
use std::snapshot::Snapshot;
use story_log::{Appended, Step};
use view_lookup::replied_name;

/// How many things a row of this deed names, where its command is replied their number.
fn replied_count(deed: &Deed) -> Option<u64>
    ensures { result ≡ replied_count deed.now }
{
    match deed {
        Deed::Scrub { objects } => Some(objects.len() as u64),
        Deed::Labels { placed, .. } => Some(placed.len() as u64),
        _ => None,
    }
}

/// The reply to the command of a row that was committed: the version of this name, or the number of things that the row
/// names, where such a one is replied, else that all is well.
fn row_reply(name: Option<Text>, count: Option<u64>) -> Reply
    ensures { result ≡ row_reply name count }
{
    match name {
        Some(name) => Reply::Version(name),
        None => match count {
            Some(count) => Reply::Count(count),
            None => Reply::Good,
        },
    }
}

/// The reply to the command of a row that was to be committed, where its version has this name, or it counts so many things.
fn append_reply(appended: Appended, name: Option<Text>, count: Option<u64>) -> Reply
    ensures { result ≡ append_reply appended name count }
{
    match appended {
        Appended::Committed => row_reply(name, count),
        Appended::Faulted => Reply::DiskFault,
    }
}

/// What became of the command of a row that was to be committed.
fn append_done(appended: Appended) -> Done
    ensures { result ≡ append_done appended }
{
    match appended {
        Appended::Committed => Done::Committed,
        Appended::Faulted => Done::Faulted,
    }
}

impl<D: Disk> Core<D> {
    ghost use Rattle.std.specs.Prelude.{◌≡◌, Some, [], OnOk, OnErr, IfOk};
    ghost use Rattle.cc_names.specs.declared.commands.Command.TheVariants as commands;
    ghost use Rattle.session_text.specs.Formed.{IsChange};
    ghost use Rattle.base_core.specs.Keeping.CoreInvariants.{command_limit};
    ghost use Rattle.cc_names.specs.declared.occasions.Done.TheVariants as dones;
    ghost use Rattle.cc_names.specs.declared.occasions.Next.TheVariants as nexts;
    ghost use Rattle.cc_names.specs.declared.replies.Reply.TheVariants as replies;
    ghost use Rattle.legal_history.specs.Stories.Commanded.{next_command_of};
    ghost use Rattle.legal_history.specs.Stories.States.{next_tag};
    ghost use Rattle.legal_history.specs.Stories.Steps.{state_of};
    ghost use Rattle.base_core.specs.Calls.Acting.{
      Acts,
      AnswersNext,
      DecidesNext,
      IsNextAnswer,
      IsNextRefusal,
      IsRowToCommit,
    };
    ghost use Rattle.base_core.specs.Story.Counted.{KeepsCount};
    ghost use Rattle.clearmake.specs.Nexts.{next_of_lane};

    /// What is decided of a lane's next command, a change: the row, none where there is nothing to change, or its first refusal.
    fn decide(&self, alloc: Global, lane: u32, change: &Change) -> Result<Option<Row>, Or<Refusal>>
        requires act { next_of_lane (state_of self.now.story) lane ≡ nexts.Act }
        requires command { next_command_of (state_of self.now.story) lane
            ≡ Some (commands.Change change.now) }
        requires formed { IsChange command_limit change.now }
        ensures { DecidesNext (state_of self.now.story) (next_tag (state_of self.now.story) lane)
            result }
    {
        let occasion = self.occasion(lane, view_of(change));
        decide(alloc, &self.log.rows(), change, occasion)
    }

    /// What is decided of a lane's next command, a query: its text, or its first refusal.
    fn find_answer(&self, alloc: Global, lane: u32, query: &Query) -> Result<Text, Or<Refusal>>
        requires act { next_of_lane (state_of self.now.story) lane ≡ nexts.Act }
        requires command { next_command_of (state_of self.now.story) lane
            ≡ Some (commands.Query query.now) }
        ensures { AnswersNext (state_of self.now.story) (next_tag (state_of self.now.story) lane)
            result }
    {
        answer(alloc, &self.log.rows(), query)
    }

    /// Commits the row of its lane's next command, or tells that the disk failed under it. An `Err` changes nothing.
    fn commit(&mut self, alloc: Global, row: Row) -> Result<Done, NoMemory>
        requires { IsRowToCommit (state_of self.old.story) row }
        ensures ok { IfOk result (λ done. Acts self.old.story self.new.story row.tag.lane done) }
        ensures err { OnErr result (self.new ≡ self.old) }
        ensures counted { KeepsCount self.old self.new }
    {
        let lane = row.tag().lane;
        let name = replied_name(alloc, &self.log.rows(), row.deed())?;
        let count = replied_count(row.deed());
        let appended = self.log.append(alloc, row, None)?;
        self.lanes.reply(lane, append_reply(appended, name, count));
        Ok(append_done(appended))
    }

    /// Refuses its lane's next command. Takes no memory.
    pub(super) fn refuse(&mut self, tag: Tag, refusal: Refusal)
        requires { IsNextRefusal (state_of self.old.story) tag refusal }
        ensures acts { Acts self.old.story self.new.story tag.lane dones.Refused }
        ensures counted { KeepsCount self.old self.new }
    {
        let step = Step::Refused {
            tag,
            refusal: Snapshot::of(&refusal),
        };
        self.log.tell(&step);
        self.lanes.reply(tag.lane, Reply::Refused(refusal));
    }

    /// Answers its lane's next command. Takes no memory.
    fn tell_answer(&mut self, tag: Tag, text: Text)
        requires { IsNextAnswer (state_of self.old.story) tag text (replies.Answer text) }
        ensures acts { Acts self.old.story self.new.story tag.lane dones.Answered }
        ensures counted { KeepsCount self.old self.new }
    {
        let kept = Snapshot::of(&text);
        let step = Step::Answer { tag, text: kept };
        self.log.tell(&step);
        self.lanes.reply(tag.lane, Reply::Answer(text));
    }

    /// Answers its lane's next command, which found nothing for its row: it counts nothing. Takes no memory.
    fn tell_nothing(&mut self, alloc: Global, tag: Tag)
        requires { IsNextAnswer (state_of self.old.story) tag [] (replies.Count 0) }
        ensures acts { Acts self.old.story self.new.story tag.lane dones.Answered }
        ensures counted { KeepsCount self.old self.new }
    {
        let nothing = Text::of(Vec::new(alloc));
        let text = Snapshot::of(&nothing);
        let step = Step::Answer { tag, text };
        self.log.tell(&step);
        self.lanes.reply(tag.lane, Reply::Count(0));
    }

    /// Carries out a lane's next command, a change: its row is committed, there is nothing to change, the command is refused, or
    /// the disk fails under it. An `Err` changes nothing.
    fn make_row(&mut self, alloc: Global, lane: u32, change: &Change) -> Result<Done, NoMemory>
        requires act { next_of_lane (state_of self.old.story) lane ≡ nexts.Act }
        requires command { next_command_of (state_of self.old.story) lane
            ≡ Some (commands.Change change.now) }
        requires formed { IsChange command_limit change.now }
        ensures ok { IfOk result (λ done. Acts self.old.story self.new.story lane done) }
        ensures err { OnErr result (self.new ≡ self.old) }
        ensures counted { KeepsCount self.old self.new }
    {
        let tag = self.tag(lane);
        match self.decide(alloc, lane, change) {
            Ok(Some(row)) => self.commit(alloc, row),
            Ok(None) => {
                self.tell_nothing(alloc, tag);
                Ok(Done::Answered)
            }
            Err(Or::Is(refusal)) => {
                self.refuse(tag, refusal);
                Ok(Done::Refused)
            }
            Err(Or::NoMemory) => Err(NoMemory),
        }
    }

    /// Carries out a lane's next command, a query: it is answered, or refused. An `Err` changes nothing.
    fn ask(&mut self, alloc: Global, lane: u32, query: &Query) -> Result<Done, NoMemory>
        requires act { next_of_lane (state_of self.old.story) lane ≡ nexts.Act }
        requires command { next_command_of (state_of self.old.story) lane
            ≡ Some (commands.Query query.now) }
        ensures ok { IfOk result (λ done. Acts self.old.story self.new.story lane done) }
        ensures err { OnErr result (self.new ≡ self.old) }
        ensures counted { KeepsCount self.old self.new }
    {
        let tag = self.tag(lane);
        match self.find_answer(alloc, lane, query) {
            Ok(text) => {
                self.tell_answer(tag, text);
                Ok(Done::Answered)
            }
            Err(Or::Is(refusal)) => {
                self.refuse(tag, refusal);
                Ok(Done::Refused)
            }
            Err(Or::NoMemory) => Err(NoMemory),
        }
    }

    /// Carries out a lane's next command, which builds nothing: its row is committed, it is answered, it is refused, or the
    /// disk fails under it. An `Err` changes nothing. A commit has the disk's ticks as this call ends, and no fault was
    /// counted. A fault has the counts of faults as this call begins and ends, and the ticks as it ends. An answer, a refusal
    /// and an `Err` make no device call. Takes time linear in the command, in the row or the answer and in the lanes, and
    /// what `decide` or `answer` takes of the base.
    #[tactic(auto, using(crate::proofs::Acting::Commanded::acts_on_no_build, crate::proofs::Building::UnitCalls::acts_waits))]
    pub fn act(&mut self, alloc: Global, lane: u32) -> Result<Done, NoMemory>
        requires { next_of_lane (state_of self.old.story) lane ≡ nexts.Act }
        ensures ok { IfOk result (λ done. Acts self.old.story self.new.story lane done) }
        ensures err { OnErr result (self.new ≡ self.old) }
        ensures counted { KeepsCount self.old self.new }
    {
        match self.command(alloc, lane)? {
            Command::Change(change) => self.make_row(alloc, lane, &change),
            Command::Query(query) => self.ask(alloc, lane, &query),
            Command::Build(_) => unreachable!(),
        }
    }
}
