//! A record that is run again.

ghost use Rattle.std.specs.Prelude.{◌≡◌, ◌<◌, ◌^◌, ℕ, List, IfOk, length, nat_eq};
ghost use Rattle.std.specs.HashMap as hashed;
ghost use Rattle.std.specs.BTreeMap.{get};
ghost use Rattle.std.specs.Cmp.Lexicographic.{slice_cmp};
ghost use Rattle.std.specs.Ordering.{nat_cmp};
ghost use Rattle.cc_names.specs.Answers.{Gives};
ghost use Rattle.script_grammar.specs.Lines.{script_of};
ghost use Rattle.script_grammar.specs.Run.{run};
ghost use Rattle.script_grammar.specs.Standings.{texts};
ghost use Rattle.build_script.specs.Ended.{ran_of};
ghost use Rattle.object_check.specs.Kept.{stands_kept, texts_kept};

use crate::entry_files::{EntryFiles, EntryRows};
use crate::values::Values;
use build_script::outcomes::Ended;
use build_script::run::run;
use build_script::scripts::Script;
use cc_names::lists::List;
use cc_names::memory::{NoMemory, Or};
use cc_names::paths::Path;
use cc_names::texts::Text;
use std::alloc::Global;
use std::hash::RandomState;
use view_lookup::FirstRows;

/// What a script comes to with these targets, on the texts of these entries. One that cannot be read has that for its fault,
/// and asks for nothing. Takes the time of `run`, and for each path that it asks for that of `text_of_entry`.
pub(crate) fn rerun(
    alloc: Global,
    hashing: RandomState,
    rows: &FirstRows<'_>,
    values: &Values,
    entries: &EntryRows,
    script: &Text,
    targets: &[Path],
) -> Result<Ended, NoMemory>
    requires { length script.now < 2 ^ 32 }
    ensures { IfOk result
        (λ ended. ran_of ended
        ≡ run script.now targets.now
        (texts (stands_kept rows.now (hashed.get nat_eq values.now)
        (get (slice_cmp nat_cmp) entries.now)))) }
{
    let script = match Script::read(alloc, script.as_bytes()) {
        Ok(script) => script,
        Err(Or::NoMemory) => return Err(NoMemory),
        Err(Or::Is(fault)) => {
            return Ok(Ended {
                result: Err(fault),
                reads: List::empty(alloc),
            });
        }
    };
    let mut files = EntryFiles {
        alloc,
        rows,
        values,
        entries,
    };
    match run(alloc, hashing, &script, targets, &mut files) {
        Ok(ended) => Ok(ended),
        Err(Or::NoMemory) => Err(NoMemory),
        Err(Or::Is(_)) => unreachable!(),
    }
}
