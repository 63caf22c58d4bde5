//! What is kept for the lanes of a phase: the commands that are left, the replies to those that are finished, and the active
//! builds.

ghost use Rattle.std.specs.Prelude.{◌≡◌, ◌≤◌, IfOk};
ghost use Rattle.build_core.specs.Slots.{numbered_slots};
ghost use Rattle.base_model.specs.Fits.{row_limit};
ghost use Rattle.legal_history.specs.Builds.Active.{building, rows_reserved};
ghost use Rattle.base_core.specs.Keeping.Lanes.{builds_in};

use build_core::{ActiveBuild, Came};
use cc_names::commands::Command;
use cc_names::memory::NoMemory;
use cc_names::replies::Reply;
use cc_names::rows::Tag;
use session_text::{Ahead, CommandsLeft, LaneText, PhaseText};
use std::alloc::Global;
use std::marker::Model;

/// A lane: its commands that are not finished, kept as their text, the replies to those that are, in order, and its active
/// build. It has room for a reply to each of its commands, so that none of them can lack one once it is carried out.
#[derive(Drop)]
struct Lane {
    commands: CommandsLeft,
    replies: Vec<Reply>,
    build: Option<ActiveBuild>,
}

impl Model for Lane {
    ghost use Rattle.base_core.specs.Keeping.Lanes.{LaneState};
    ghost use Rattle.std.specs.Vec.{vec_capacity};

    ghost Value = { LaneState };

    ghost view = { λ lane. record {
      commands = lane.commands;
      replies = lane.replies.items;
      room = vec_capacity lane.replies;
      build = lane.build;
    } };
}

impl Lane {
    ghost use Rattle.std.specs.Prelude.{◌≡◌, ◌<◌, ◌∷◌, ◌++◌, [], length, drop, None, Some, IfOk, IsSome, option_copied};
    ghost use Rattle.build_core.specs.Comes.{came_of};
    ghost use Rattle.legal_history.specs.Builds.Active.{Build};
    ghost use Rattle.legal_history.specs.Stories.Steps.{with_came};
    ghost use Rattle.base_core.specs.Keeping.Lanes.{begun_lane};

    /// A lane as its phase begins, with no reply and no build. Takes time linear in its text, and memory for a reply to each of
    /// its commands.
    fn new(alloc: Global, lane: LaneText) -> Result<Lane, NoMemory>
        ensures { IfOk result (λ kept. kept ≡ begun_lane lane) }
    {
        let (_name, commands) = lane.into_parts();
        let replies = Vec::with_capacity(alloc, commands.count())?;
        Ok(Lane {
            commands,
            replies,
            build: None,
        })
    }

    /// Replies to the lane's next command, which is finished.
    fn reply(&mut self, reply: Reply)
        requires { length self.old.replies < self.old.room }
        ensures commands { self.new.commands ≡ drop 1 self.old.commands }
        ensures replies { self.new.replies ≡ self.old.replies ++ reply ∷ [] }
        ensures room { self.new.room ≡ self.old.room }
        ensures build { self.new.build ≡ self.old.build }
    {
        self.commands.skip();
        self.replies.push_reserved(reply);
    }

    /// Has another build, or none.
    fn set_build(&mut self, build: Option<ActiveBuild>)
        ensures commands { self.new.commands ≡ self.old.commands }
        ensures replies { self.new.replies ≡ self.old.replies }
        ensures room { self.new.room ≡ self.old.room }
        ensures build { self.new.build ≡ build }
    {
        self.build = build;
    }

    /// Notes what a unit of the lane's build has come to. Takes what `ActiveBuild::note` takes.
    fn note(&mut self, unit: u32, came: Came)
        requires build { IsSome self.old.build }
        requires unit { (build : Build) → self.old.build ≡ Some build
            → unit < length build.units }
        ensures commands { self.new.commands ≡ self.old.commands }
        ensures replies { self.new.replies ≡ self.old.replies }
        ensures room { self.new.room ≡ self.old.room }
        ensures build { (build : Build) → self.old.build ≡ Some build
            → self.new.build ≡ Some (with_came build (Some unit) (came_of came)) }
    {
        let build = self.build.as_mut().unwrap();
        build.note(unit, came);
    }
}

/// The lanes of a phase, which are counted from 1. Contracts see them as a list.
#[derive(Drop)]
pub(crate) struct Lanes {
    lanes: Vec<Lane>,
}

impl Model for Lanes {
    ghost use Rattle.std.specs.Prelude.{List};
    ghost use Rattle.base_core.specs.Keeping.Lanes.{LaneState};

    ghost Value = { List LaneState };

    ghost view = { λ lanes. lanes.lanes.items };
}

impl Lanes {
    ghost use Rattle.std.specs.Prelude.{◌≡◌, ◌≤◌, ◌<◌, [], length, None, Some, IfOk, IsSome, option_copied};
    ghost use Rattle.build_core.specs.Comes.{came_of};
    ghost use Rattle.build_core.specs.Slots.{numbered_slots};
    ghost use Rattle.base_model.specs.Fits.{row_limit};
    ghost use Rattle.legal_history.specs.Builds.Active.{Build, build_of, building, rows_reserved};
    ghost use Rattle.legal_history.specs.Stories.Steps.{with_came};
    ghost use Rattle.session_text.specs.Ahead.{ahead_of};
    ghost use Rattle.base_core.specs.Keeping.Lanes.{
      build_at,
      builds_in,
      fresh_lanes,
      lane_in,
      next_in,
      replies_at,
      room_at,
      put_build,
      with_closed,
      with_reply,
    };

    /// No lanes, before the first phase.
    pub(crate) fn none(alloc: Global) -> Lanes
        ensures { result ≡ [] }
    {
        Lanes {
            lanes: Vec::new(alloc),
        }
    }

    /// The lanes of a phase that begins. Takes time linear in its text, and memory for a reply to each command.
    pub(crate) fn begin(alloc: Global, phase: &PhaseText) -> Result<Lanes, NoMemory>
        ensures { IfOk result (λ lanes. lanes ≡ fresh_lanes phase.now.lanes) }
    {
        let mut left = phase.lanes()?;
        let mut lanes = Vec::new(alloc);
        'each: while let Some(lane) = left.next(alloc)? {
            lanes.push(Lane::new(alloc, lane)?)?;
        }
        Ok(Lanes { lanes })
    }

    /// How many they are.
    pub(crate) fn count(&self) -> usize
        ensures { result ≡ length self.now }
    {
        self.lanes.len()
    }

    /// The lane of this number.
    fn lane(&self, lane: u32) -> Option<&Lane>
        ensures { option_copied result ≡ lane_in self.now lane }
    {
        let index = lane.checked_sub(1)?;
        self.lanes.get(index as usize)
    }

    /// What the next command of a lane asks for. Takes constant time.
    pub(crate) fn ahead(&self, lane: u32) -> Ahead
        ensures { result ≡ ahead_of (next_in self.now lane) }
    {
        match self.lane(lane) {
            Some(lane) => lane.commands.ahead(),
            None => Ahead::Nothing,
        }
    }

    /// The next command of a lane, which is left there. Takes time linear in its lines and those before it that are left, and
    /// memory for it.
    pub(crate) fn next(&self, alloc: Global, lane: u32) -> Result<Option<Command>, NoMemory>
        ensures { IfOk result (λ command. command ≡ next_in self.now lane) }
    {
        match self.lane(lane) {
            Some(lane) => lane.commands.peek(alloc),
            None => Ok(None),
        }
    }

    /// The replies to the finished commands of a lane, in order.
    pub(crate) fn replies(&self, lane: u32) -> &[Reply]
        requires from { 1 ≤ lane }
        requires upto { lane ≤ length self.now }
        ensures { result.now ≡ replies_at self.now lane }
    {
        self.lanes[lane as usize - 1].replies.as_slice()
    }

    /// How many commands a lane has finished: one for each reply.
    pub(crate) fn finished_count(&self, lane: u32) -> usize
        ensures { result ≡ length (replies_at self.now lane) }
    {
        match self.lanes.get((lane as usize).saturating_sub(1)) {
            Some(lane) => lane.replies.len(),
            None => 0,
        }
    }

    /// The active build of a lane.
    pub(crate) fn build(&self, lane: u32) -> Option<&ActiveBuild>
        ensures { option_copied result ≡ build_of (numbered_slots 1 (builds_in self.now)) lane }
    {
        if lane == 0 || lane as usize > self.lanes.len() {
            return None;
        }
        self.lanes[lane as usize - 1].build.as_ref()
    }

    /// The active build of a lane that builds.
    pub(crate) fn build_at(&self, lane: u32) -> &ActiveBuild
        requires { IsSome (build_of (numbered_slots 1 (builds_in self.now)) lane) }
        ensures { Some result.now ≡ build_of (numbered_slots 1 (builds_in self.now)) lane }
    {
        self.build(lane).unwrap()
    }

    /// The tag of the command that builds in the view, if one does. Takes time linear in the lanes.
    pub(crate) fn building(&self, view: &[u8]) -> Option<Tag>
        ensures { result ≡ building (numbered_slots 1 (builds_in self.now)) view.now }
    {
        building_in(self.lanes.as_slice(), view)
    }

    /// How many rows the active builds reserve: one for each of their units. Takes time linear in the lanes.
    pub(crate) fn rows_reserved(&self) -> u64
        requires { rows_reserved (numbered_slots 1 (builds_in self.now)) ≤ row_limit }
        ensures { result ≡ rows_reserved (numbered_slots 1 (builds_in self.now)) }
    {
        reserved_in(self.lanes.as_slice())
    }

    /// Replies to the next command of a lane.
    pub(crate) fn reply(&mut self, lane: u32, reply: Reply)
        requires from { 1 ≤ lane }
        requires upto { lane ≤ length self.old }
        requires room { length (replies_at self.old lane) < room_at self.old lane }
        ensures { self.new ≡ with_reply self.old lane reply }
    {
        self.lanes[lane as usize - 1].reply(reply);
    }

    /// Begins a build of a lane.
    pub(crate) fn open(&mut self, lane: u32, build: ActiveBuild)
        requires from { 1 ≤ lane }
        requires upto { lane ≤ length self.old }
        ensures { self.new ≡ put_build self.old lane (Some build) }
    {
        self.lanes[lane as usize - 1].set_build(Some(build));
    }

    /// Notes what a unit of a lane's build has come to. Takes what `ActiveBuild::note` takes.
    pub(crate) fn note(&mut self, lane: u32, unit: u32, came: Came)
        requires from { 1 ≤ lane }
        requires upto { lane ≤ length self.old }
        requires build { IsSome (build_at self.old lane) }
        requires unit { (build : Build) → build_at self.old lane ≡ Some build
            → unit < length build.units }
        ensures { (build : Build)
            → build_at self.old lane ≡ Some build
            → self.new
            ≡ put_build self.old lane (Some (with_came build (Some unit) (came_of came))) }
    {
        self.lanes[lane as usize - 1].note(unit, came);
    }

    /// Ends the build of a lane, whose command is replied.
    pub(crate) fn close(&mut self, lane: u32, reply: Reply)
        requires from { 1 ≤ lane }
        requires upto { lane ≤ length self.old }
        requires room { length (replies_at self.old lane) < room_at self.old lane }
        ensures { self.new ≡ with_closed self.old lane reply }
    {
        let lane = &mut self.lanes[lane as usize - 1];
        lane.reply(reply);
        lane.set_build(None);
    }
}

/// The tag of the first build among some lanes that is in the view.
fn building_in(lanes: &[Lane], view: &[u8]) -> Option<Tag>
    ensures { result ≡ building (numbered_slots 1 (builds_in lanes.now)) view.now }
{
    let mut rest = lanes;
    while let Some((lane, more)) = rest.split_first() {
        if let Some(build) = &lane.build
            && build.view().as_bytes() == view
        {
            return Some(build.tag());
        }
        rest = more;
    }
    None
}

/// How many rows the builds of some lanes reserve.
fn reserved_in(lanes: &[Lane]) -> u64
    requires { rows_reserved (numbered_slots 1 (builds_in lanes.now)) ≤ row_limit }
    ensures { result ≡ rows_reserved (numbered_slots 1 (builds_in lanes.now)) }
{
    let mut rest = lanes;
    let mut rows = 0u64;
    while let Some((lane, more)) = rest.split_first() {
        if let Some(build) = &lane.build {
            rows += build.units().len() as u64;
        }
        rest = more;
    }
    rows
}
