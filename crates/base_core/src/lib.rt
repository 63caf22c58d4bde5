//! A base with its story, kept on a disk, which grows by lawful steps alone.
//!
//! What it is for: the top call opens the base that a disk stands for, begins phases, lets each lane carry out its next
//! command, and reads the replies. A `Core` keeps the rows, the story, the replies and the active builds; it takes all
//! memory for a row before it appends it to the journal, and the row joins the base once the journal has acknowledged it.
//!
//! What it promises: the story of a `Core` is legal at every moment. `act` adds the one step by which a lane's next command
//! is finished; `begin`, `try_unit`, `finish_unit` and `end` carry out a lane's clearmake, whose units keep objects, wink them
//! in or are run: the script of a unit that was started is run by the caller, which reads by `fetch`. Calls for other lanes may
//! come between these: what a call asks of the story stays true in each longer one of the build. After want of memory the story
//! is what it was. `begin_phase`, `act` and the calls of a build make device calls for commits and faults alone, each of which
//! has the disk's counts as it ended. `replies` gives the replies of the story. `verify` tells whether each live object of the
//! base is what its record gives when it is run again, and changes nothing. A stop at any call of the disk since the base was
//! opened finds the rows committed before it, and besides at most the row that was under way or that a fault left; `finish`
//! leaves the rows and no more, and makes no device call unless the newest commit or fault is a fault. The file of objects
//! stays as it was.
//!
//! What it stands on: `story_log` for the rows, the story and their journal, `disk_model` and `vob_journal` for what is said of
//! the disk, `checkout_desk` for the decisions on rows, `cleartool` and `vob_history` for the answers to queries,
//! `clearmake` for what builders on threads ask, `build_core` for builds, `object_check` for records that are run again,
//! `legal_history` for the model and the laws of builds and of reused objects in legal stories, `view_lookup` for what a view
//! sees and for the names of versions, `session_text` for the text of commands, `build_script` and `script_grammar` for scripts
//! and how their runs end, and `cc_names` for plain data.
#![tactic(auto)]

mod answers;
mod core_value;
mod lanes;
mod phases;

pub use core_value::Core;
