//! All that rules are made of, each once.

ghost use Rattle.std.specs.Prelude.{◌≡◌, true, false, IfOk, OnOk, flat_map, fold, slice_get, slice_set, unwrap_or};
ghost use Rattle.make_text.specs.Gathering.{prerequisites_at, HasPut};
ghost use Rattle.make_text.specs.Joining.{joined_rule, rules_of};
ghost use Rattle.make_grammar.specs.Serving.{prerequisites_of};
ghost use Rattle.make_grammar.specs.WordPaths.{with_path_once, each_once};

use crate::joining::JoinedRule;
use crate::line_cache::RuleLine;
use crate::special_targets::put_paths;
use cc_names::memory::NoMemory;
use cc_names::paths::Path;
use indexmap::IndexSet;
use std::alloc::Global;
use std::hash::RandomState;

/// The prerequisites of rule lines, each once, and a mark for each line whose prerequisites are among them.
#[derive(Drop)]
struct Gathered {
    paths: IndexSet<Path, RandomState>,
    marks: Vec<bool>,
}

/// The prerequisites of the line of this number.
fn prerequisites_at(lines: &[RuleLine], number: u32) -> &[Path]
    ensures { result.now ≡ prerequisites_at lines.now number }
{
    match lines.get(number as usize) {
        Some(line) => line.prerequisites(),
        None => &[],
    }
}

impl Gathered {
    /// Whether the line of this number is marked.
    fn has_put(&self, number: u32) -> bool
        ensures { result ≡ unwrap_or (slice_get self.now.marks.items number) false }
    {
        self.marks.get(number as usize).copied().unwrap_or(false)
    }

    /// Marks the line of this number.
    fn mark(&mut self, number: u32)
        ensures marks { self.new.marks.items ≡ slice_set self.old.marks.items number true }
        ensures paths { self.new.paths.keys ≡ self.old.paths.keys }
    {
        if (number as usize) < self.marks.len() {
            self.marks[number as usize] = true;
        }
    }

    /// Puts the prerequisites of the line of this number after the others, unless it is marked.
    fn put_line(&mut self, alloc: Global, lines: &[RuleLine], number: u32) -> Result<(), NoMemory>
        requires { HasPut lines.now self.old.marks.items self.old.paths.keys }
        ensures paths { OnOk result
            (self.new.paths.keys
            ≡ fold with_path_once self.old.paths.keys (prerequisites_at lines.now number)) }
        ensures put { OnOk result (HasPut lines.now self.new.marks.items self.new.paths.keys) }
    {
        if self.has_put(number) {
            return Ok(());
        }
        put_paths(alloc, &mut self.paths, prerequisites_at(lines, number))?;
        self.mark(number);
        Ok(())
    }

    /// Puts the prerequisites of the lines of these numbers after the others.
    fn put_lines(
        &mut self,
        alloc: Global,
        lines: &[RuleLine],
        numbers: &[u32],
    ) -> Result<(), NoMemory>
        requires { HasPut lines.now self.old.marks.items self.old.paths.keys }
        ensures paths { OnOk result
            (self.new.paths.keys
            ≡ fold with_path_once self.old.paths.keys
            (flat_map (prerequisites_at lines.now) numbers.now)) }
        ensures put { OnOk result (HasPut lines.now self.new.marks.items self.new.paths.keys) }
    {
        for number in numbers {
            self.put_line(alloc, lines, *number)?;
        }
        Ok(())
    }

    /// Puts the prerequisites of a rule after the others.
    fn put_rule(
        &mut self,
        alloc: Global,
        lines: &[RuleLine],
        rule: &JoinedRule,
    ) -> Result<(), NoMemory>
        requires { HasPut lines.now self.old.marks.items self.old.paths.keys }
        ensures paths { OnOk result
            (self.new.paths.keys
            ≡ fold with_path_once self.old.paths.keys (joined_rule lines.now rule.now).prerequisites) }
        ensures put { OnOk result (HasPut lines.now self.new.marks.items self.new.paths.keys) }
    {
        self.put_lines(alloc, lines, rule.lines())
    }
}

/// All that rules are made of, each once. Takes time linear in the lines that are joined to them and in the prerequisites of
/// the lines, each line taken once; and memory linear in the result.
pub(crate) fn gather(
    alloc: Global,
    hashing: RandomState,
    lines: &[RuleLine],
    rules: &[JoinedRule],
) -> Result<IndexSet<Path, RandomState>, NoMemory>
    ensures { IfOk result
        (λ paths.
        paths.keys ≡ each_once (flat_map prerequisites_of (rules_of lines.now rules.now))) }
{
    let mut gathered = Gathered {
        paths: IndexSet::with_hasher(alloc, hashing),
        marks: vec![in alloc; false; lines.len()]?,
    };
    for rule in rules {
        gathered.put_rule(alloc, lines, rule)?;
    }
    Ok(gathered.paths)
}
