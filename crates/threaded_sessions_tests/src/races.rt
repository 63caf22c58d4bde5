//! Eight lanes that race for one label, one branch and one target, again and again. Which of them comes first is open: the
//! rows of the base tell, and what each lane is replied follows from that. The row from which it follows stands before the
//! lane's next.

use crate::sessions::{IN_A_LANE, Runtime, outcome_on, outside_of, report_of, run_in};
use cc_names::rows::{Deed, Row, Tag};
use cc_outside::OpenHook;
use std::alloc::{AllocError, Global};
use std::process::Abort;
use std::test::Fail;

// How often they race in each test.
const RACES: u32 = 50;

// The lanes, each with a view of its own: lane N works in view `wN`.
const LANES: u32 = 8;

// The versions of `in` are rows 8 and 11. The views of odd lanes select the first, the others the second. No row is refused, so
// command N makes row N.
const SET_UP: &str = "\
mkview v
checkout v .
mkelem v Makefile
save v Makefile
|out: in
|\tcat in > out
checkin v Makefile
mkelem v in
save v in
|foo
checkin v in
checkout v in
save v in
|bar
checkin v in
checkin v .
mklbtype REL
mkbrtype fix
mkview w1
mkview w2
mkview w3
mkview w4
mkview w5
mkview w6
mkview w7
mkview w8
setcs w1
|element in /main/1
|element * /main/LATEST
setcs w3
|element in /main/1
|element * /main/LATEST
setcs w5
|element in /main/1
|element * /main/LATEST
setcs w7
|element in /main/1
|element * /main/LATEST
";

// The rows that it makes.
const SET_UP_ROWS: usize = 26;

// The rows after a race: a save of each lane more, its object or wink, four labels, and one branch.
const ROWS: usize = 47;

const OF_FIRST: &str = "4 b5bb9d8014a0f9b1d61e21e796d78dccdf1352f23cd32812f4850b878ae4944c";

const OF_SECOND: &str = "4 7d865e959b2466918c9863afca942d0fb89d7c9ac0c99bafc3749504ded97730";

// What each lane does, once.
#[derive(Clone, Copy)]
enum Act {
    Save,
    Label,
    Build,
    Branch,
}

// What the lanes begin with; they go on in the order of the acts, round and round. Lanes are on threads once one of them is to
// build, so where the others begin with a label or a branch the last one begins with its build.
#[derive(Clone, Copy)]
enum Start {
    Label,
    Build,
    Branch,
    // Lane 1 with the second act, lane 2 with the third, and so on.
    Staggered,
}

impl Start {
    // The act of a lane's command, of which the first has the number 1.
    fn act(self, lane: u32, command: u32) -> Act {
        let first = match self {
            Start::Label | Start::Branch if lane == LANES => 2,
            Start::Label => 1,
            Start::Build => 2,
            Start::Branch => 3,
            Start::Staggered => lane,
        };
        match first.wrapping_add(command).wrapping_sub(1) % 4 {
            0 => Act::Save,
            1 => Act::Label,
            2 => Act::Build,
            _ => Act::Branch,
        }
    }
}

// The version of `in` that a lane's view selects.
fn version_of(lane: u32) -> u64 {
    if lane % 2 == 1 { 8 } else { 11 }
}

// What a lane's view has of `out`.
fn object_of(lane: u32) -> &'static str {
    match version_of(lane) {
        8 => OF_FIRST,
        _ => OF_SECOND,
    }
}

fn command(alloc: Global, lane: u32, act: Act) -> Result<String, AllocError> {
    let (word, rest) = match act {
        Act::Save => ("save", " note"),
        Act::Label => ("mklabel", " REL in"),
        Act::Build => ("clearmake", ""),
        Act::Branch => ("mkbranch", " -nco fix in"),
    };
    format!(in alloc; "{word} w{lane}{rest}\n")
}

fn session(alloc: Global, start: Start) -> Result<String, AllocError> {
    let mut session = String::from_str(alloc, "phase\n")?;
    for lane in 1..=LANES {
        session.push_str(format!(in alloc; "lane b{lane}\n")?.as_str())?;
        for number in 1..=4 {
            session.push_str(command(alloc, lane, start.act(lane, number))?.as_str())?;
        }
    }
    Ok(session)
}

// Who came first, and the number of the row.
#[derive(Clone, Copy)]
struct First {
    lane: u32,
    row: usize,
}

impl First {
    const NOBODY: First = First { lane: 0, row: 0 };

    // Or else this lane, by this row.
    fn or(self, lane: u32, row: usize) -> First {
        if self.row == 0 {
            First { lane, row }
        } else {
            self
        }
    }
}

// How a race went: the version that was labelled, and who first put the label, made the branch and built from either version.
#[derive(Clone, Copy)]
struct Race {
    labelled: u64,
    labeller: First,
    brancher: First,
    of_first: First,
    of_second: First,
}

impl Race {
    const NOTHING: Race = Race {
        labelled: 0,
        labeller: First::NOBODY,
        brancher: First::NOBODY,
        of_first: First::NOBODY,
        of_second: First::NOBODY,
    };

    // With one row more, of this number.
    fn with(self, number: usize, row: &Row) -> Race {
        let lane = row.tag().lane;
        match row.deed() {
            Deed::Label { version, .. } => Race {
                labelled: *version,
                labeller: self.labeller.or(lane, number),
                ..self
            },
            Deed::Branch { .. } => Race {
                brancher: self.brancher.or(lane, number),
                ..self
            },
            Deed::Publish { .. } if lane % 2 == 1 => Race {
                of_first: self.of_first.or(lane, number),
                ..self
            },
            Deed::Publish { .. } => Race {
                of_second: self.of_second.or(lane, number),
                ..self
            },
            _ => self,
        }
    }

    // As the rows of a base tell.
    fn of(rows: &[Row]) -> Race {
        let mut race = Race::NOTHING;
        for (place, row) in rows.iter().enumerate() {
            race = race.with(place.saturating_add(1), row);
        }
        race
    }

    // Who first built what a lane builds.
    fn builder(&self, lane: u32) -> First {
        match version_of(lane) {
            8 => self.of_first,
            _ => self.of_second,
        }
    }

    // The number of the row from which the reply follows, or 0.
    fn cause(&self, lane: u32, act: Act) -> usize {
        match act {
            Act::Label if self.labelled != version_of(lane) => self.labeller.row,
            Act::Save | Act::Label => 0,
            Act::Build => self.builder(lane).row,
            Act::Branch => self.brancher.row,
        }
    }

    // Whether a row of a lane stands after the causes of its command and of those before.
    fn is_behind_causes(&self, start: Start, number: usize, tag: Tag) -> bool {
        (1..=tag.command).all(|command| self.cause(tag.lane, start.act(tag.lane, command))
            <= number)
    }

    // The line of a lane's unit.
    fn unit(&self, alloc: Global, lane: u32) -> Result<String, AllocError> {
        let object = object_of(lane);
        let word = if self.builder(lane).lane == lane {
            "built"
        } else {
            "winked"
        };
        format!(in alloc; "  out {word} {object}\n")
    }

    // What a lane is replied.
    fn reply(&self, alloc: Global, lane: u32, act: Act) -> Result<String, AllocError> {
        match act {
            Act::Save => format!(in alloc; "save ok\n"),
            Act::Label if self.labelled == version_of(lane) => format!(in alloc; "mklabel ok\n"),
            Act::Label => {
                format!(in alloc; "mklabel refused C16 LabelElsewhere {}\n", self.labelled)
            }
            Act::Build => format!(in alloc; "clearmake ok\n{}", self.unit(alloc, lane)?),
            Act::Branch if self.brancher.lane == lane => {
                format!(in alloc; "mkbranch ok /main/fix/0\n")
            }
            Act::Branch => {
                format!(in alloc; "mkbranch refused C15 BranchExists {}\n", self.brancher.row)
            }
        }
    }

    // What the session writes.
    fn reported(&self, alloc: Global, start: Start) -> Result<String, AllocError> {
        let mut reported = String::from_str(alloc, "phase 1\n")?;
        for lane in 1..=LANES {
            reported.push_str(format!(in alloc; "lane b{lane}\n")?.as_str())?;
            for number in 1..=4 {
                let reply = self.reply(alloc, lane, start.act(lane, number))?;
                reported.push_str(format!(in alloc; "{number} {reply}")?.as_str())?;
            }
        }
        reported.push_str(format!(in alloc; "status 1, {ROWS} rows\n")?.as_str())?;
        Ok(reported)
    }
}

// Whether the rows that a lane made in the race stand in the order of its commands, and one command made one row at most.
fn are_in_order(rows: &[Row], lane: u32) -> bool {
    let mut last = 0;
    for tag in rows.iter().skip(SET_UP_ROWS).map(|row| row.tag()) {
        if tag.lane == lane {
            if tag.command <= last {
                return false;
            }
            last = tag.command;
        }
    }
    true
}

// What a lane is replied follows from rows that stand before its own later ones.
fn assert_causes_first(rt: &impl Abort, race: Race, rows: &[Row], start: Start) {
    for (place, row) in rows.iter().enumerate().skip(SET_UP_ROWS) {
        let number = place.saturating_add(1);
        assert!(rt;
            race.is_behind_causes(start, number, row.tag()),
            "at row {number}"
        );
    }
}

// Each view keeps what it has.
const AGAIN: &str = "\
clearmake w1
clearmake w2
clearmake w3
clearmake w4
clearmake w5
clearmake w6
clearmake w7
clearmake w8
";

fn kept_again(alloc: Global) -> Result<String, AllocError> {
    let mut reported = String::from_str(alloc, IN_A_LANE.reported)?;
    for lane in 1..=LANES {
        let object = object_of(lane);
        reported.push_str(format!(in alloc;
            "{lane} clearmake ok\n  out kept {object}\n"
        )?.as_str())?;
    }
    reported.push_str(format!(in alloc; "status 0, {ROWS} rows\n")?.as_str())?;
    Ok(reported)
}

// What a race comes to on the base that was set up, and the journal that it leaves.
fn run_race(
    rt: &impl Runtime,
    alloc: Global,
    set_up: &[u8],
    start: Start,
) -> Result<Vec<u8>, Fail> {
    let session = session(alloc, start)?;
    let mut outside = outside_of(alloc, session.as_str())?;
    let ended = run_in(rt, alloc, &OpenHook, set_up, &mut outside)?;
    let rows = ended.history.rows();
    for lane in 1..=LANES {
        assert!(rt; are_in_order(rows, lane), "of lane {lane}");
    }
    let reported = report_of(alloc, outside.sink.bytes(), &ended)?;
    let race = Race::of(rows);
    assert_eq!(rt; reported.as_str(), race.reported(alloc, start)?.as_str());
    assert_causes_first(rt, race, rows, start);
    Ok(ended.disk.bytes(0).to_vec(alloc)?)
}

// The lanes race, and the base that the last race left is opened again.
fn assert_races(rt: &impl Runtime, alloc: Global, start: Start) -> Result<(), Fail> {
    let set_up = outcome_on(rt, alloc, &[], IN_A_LANE, SET_UP)?.journal;
    let mut journal = Vec::new(alloc);
    for _ in 0..RACES {
        journal = run_race(rt, alloc, set_up.as_slice(), start)?;
    }
    let again = outcome_on(rt, alloc, journal.as_slice(), IN_A_LANE, AGAIN)?;
    assert_eq!(rt; again.reported.as_str(), kept_again(alloc)?.as_str());
    Ok(())
}

#[test]
fn lanes_race_for_a_label(rt: HostRuntime) -> Result<(), Fail> {
    assert_races(&rt, rt.alloc(), Start::Label)
}

#[test]
fn lanes_race_for_a_target(rt: HostRuntime) -> Result<(), Fail> {
    assert_races(&rt, rt.alloc(), Start::Build)
}

#[test]
fn lanes_race_for_a_branch(rt: HostRuntime) -> Result<(), Fail> {
    assert_races(&rt, rt.alloc(), Start::Branch)
}

#[test]
fn lanes_race_for_all_of_them(rt: HostRuntime) -> Result<(), Fail> {
    assert_races(&rt, rt.alloc(), Start::Staggered)
}
