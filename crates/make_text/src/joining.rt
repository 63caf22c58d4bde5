//! The rules that rule lines are joined to.

ghost use Rattle.std.specs.Prelude.{◌≡◌, ◌<◌, ◌^◌, ◌-◌, ◌∷◌, [], Some, true, IfOk, OnOk, find, length, option_copied, slice_get};
ghost use Rattle.make_grammar.specs.Contents.{groups_of, made_with, with_rule_line, joined_rules};
ghost use Rattle.make_text.specs.Joining.{joined_at, joined_rule, rules_of, KnowsJoined, made_together, KnowsGroups, HasJoined, HasNew, HasLonger, HasTarget};
ghost use Rattle.make_grammar.specs.Macros.{is_among};

use crate::line_cache::RuleLine;
use crate::numbers::{Numbers, number, number_all, number_paths};
use crate::rules::MakeRule;
use cc_names::copies::Copied;
use cc_names::lists::List;
use cc_names::memory::NoMemory;
use cc_names::paths::Path;
use std::alloc::Global;
use std::collections::HashMap;
use std::hash::RandomState;

/// A rule, by the numbers of the rule lines that are joined to it, the oldest first.
#[derive(Drop)]
pub(crate) struct JoinedRule {
    targets: List<Path>,
    lines: Vec<u32>,
}

/// The rules so far, and the number of the rule of each target.
#[derive(Drop)]
struct Joining {
    rules: Vec<JoinedRule>,
    numbers: Numbers,
}

/// The numbers of the rule lines that make their targets together. There is no memory for more lines than numbers of four
/// bytes count.
pub(crate) fn number_groups(
    alloc: Global,
    hashing: RandomState,
    lines: &[RuleLine],
) -> Result<Numbers, NoMemory>
    ensures groups { IfOk result (λ groups. KnowsGroups groups lines.now) }
    ensures few { OnOk result (length lines.now < 2 ^ 32) }
{
    if lines.len() > u32::MAX as usize {
        return Err(NoMemory);
    }
    number_all(alloc, hashing, lines)
}

/// The line of this number, if there is one.
fn line_at(lines: &[RuleLine], number: u32) -> Option<&RuleLine>
    ensures { option_copied result ≡ slice_get lines.now number }
{
    lines.get(number as usize)
}

/// The first rule line that makes a target together with others, in constant time.
pub(crate) fn group<'a>(
    lines: &'a [RuleLine],
    groups: &Numbers,
    target: &Path,
) -> Option<&'a RuleLine>
    requires { KnowsGroups groups.now lines.now }
    ensures { option_copied result
        ≡ find (λ line. is_among (made_together line) target.now) lines.now }
{
    match number(groups, target) {
        Some(number) => line_at(lines, number),
        None => None,
    }
}

/// A target alone.
fn target_alone(alloc: Global, target: &Path) -> Result<List<Path>, NoMemory>
    ensures { IfOk result (λ paths. paths ≡ target.now ∷ []) }
{
    let mut paths = Vec::new(alloc);
    paths.push(target.copy(alloc)?)?;
    Ok(List::of(paths))
}

/// What is made together with a target: its group, else it alone. Takes time linear in these.
fn made_with(
    alloc: Global,
    lines: &[RuleLine],
    groups: &Numbers,
    target: &Path,
) -> Result<List<Path>, NoMemory>
    requires { KnowsGroups groups.now lines.now }
    ensures { IfOk result (λ made. made ≡ made_with (groups_of lines.now) target.now) }
{
    match group(lines, groups, target) {
        Some(line) => line.copy_targets(alloc),
        None => target_alone(alloc, target),
    }
}

/// Joins the line of this number to a rule, if there is one.
fn join_number(rule: &mut MakeRule, lines: &[RuleLine], number: u32) -> Result<(), NoMemory>
    ensures { OnOk result (rule.new ≡ joined_at lines.now rule.old number) }
{
    match line_at(lines, number) {
        Some(line) => rule.join(line),
        None => Ok(()),
    }
}

impl JoinedRule {
    /// What it makes.
    pub(crate) fn targets(&self) -> &[Path]
        ensures { result.now ≡ self.now.targets }
    {
        self.targets.as_slice()
    }

    /// The numbers of the rule lines that are joined to it, the oldest first.
    pub(crate) fn lines(&self) -> &[u32]
        ensures { result.now ≡ self.now.lines.items }
    {
        self.lines.as_slice()
    }

    /// Whether the line of this number was joined last.
    fn ends_with(&self, number: u32) -> bool
        ensures { result ≡ true
            → slice_get self.now.lines.items (length self.now.lines.items - 1) ≡ Some number }
    {
        match self.lines.last() {
            Some(last) => *last == number,
            None => false,
        }
    }

    /// Joins the line of this number, unless it was joined last.
    fn join(&mut self, number: u32) -> Result<(), NoMemory>
        ensures { OnOk result (HasJoined self.old number self.new) }
    {
        if self.ends_with(number) {
            return Ok(());
        }
        self.lines.push(number)?;
        Ok(())
    }

    /// The rule itself. Takes time linear in the lines that were joined.
    pub(crate) fn into_rule(self, alloc: Global, lines: &[RuleLine]) -> Result<MakeRule, NoMemory>
        ensures { IfOk result (λ rule. rule ≡ joined_rule lines.now self) }
    {
        let JoinedRule {
            targets,
            lines: numbers,
        } = self;
        let mut rule = MakeRule::without(alloc, targets);
        for number in &numbers {
            join_number(&mut rule, lines, *number)?;
        }
        Ok(rule)
    }
}

impl Joining {
    /// Makes a new rule of these targets, to which the line of this number is joined.
    fn add(&mut self, alloc: Global, targets: List<Path>, line: u32) -> Result<(), NoMemory>
        requires { KnowsJoined self.old.numbers self.old.rules.items }
        ensures rules { OnOk result
            (HasNew targets line self.old.rules.items self.new.rules.items) }
        ensures known { OnOk result (KnowsJoined self.new.numbers self.new.rules.items) }
    {
        let number = self.rules.len();
        if number >= u32::MAX as usize {
            return Err(NoMemory);
        }
        number_paths(alloc, &mut self.numbers, targets.as_slice(), number as u32)?;
        let mut lines = Vec::new(alloc);
        lines.push(line)?;
        self.rules.push(JoinedRule { targets, lines })?;
        Ok(())
    }

    /// Joins the line of this number to a rule.
    fn join_to(&mut self, rule: u32, line: u32) -> Result<(), NoMemory>
        requires within { rule < length self.old.rules.items }
        requires known { KnowsJoined self.old.numbers self.old.rules.items }
        ensures rules { OnOk result
            (HasLonger rule line self.old.rules.items self.new.rules.items) }
        ensures known { OnOk result (KnowsJoined self.new.numbers self.new.rules.items) }
    {
        self.rules[rule as usize].join(line)
    }

    /// Joins a rule line, which has this number, at one of its targets, whose rule may be new.
    fn join_at(
        &mut self,
        alloc: Global,
        lines: &[RuleLine],
        groups: &Numbers,
        line: u32,
        target: &Path,
    ) -> Result<(), NoMemory>
        requires groups { KnowsGroups groups.now lines.now }
        requires known { KnowsJoined self.old.numbers self.old.rules.items }
        ensures rules { OnOk result
            (HasTarget lines.now line target.now self.old.rules.items self.new.rules.items) }
        ensures known { OnOk result (KnowsJoined self.new.numbers self.new.rules.items) }
    {
        match number(&self.numbers, target) {
            Some(rule) => self.join_to(rule, line),
            None => {
                let targets = made_with(alloc, lines, groups, target)?;
                self.add(alloc, targets, line)
            }
        }
    }

    /// Joins a rule line, which has this number, at each of its targets.
    fn join_line(
        &mut self,
        alloc: Global,
        lines: &[RuleLine],
        groups: &Numbers,
        number: u32,
        line: &RuleLine,
    ) -> Result<(), NoMemory>
        requires groups { KnowsGroups groups.now lines.now }
        requires known { KnowsJoined self.old.numbers self.old.rules.items }
        requires line { slice_get lines.now number ≡ Some line.now }
        ensures rules { OnOk result
            (rules_of lines.now self.new.rules.items
            ≡ with_rule_line (groups_of lines.now) (rules_of lines.now self.old.rules.items)
            line.now) }
        ensures known { OnOk result (KnowsJoined self.new.numbers self.new.rules.items) }
    {
        for target in line.targets() {
            self.join_at(alloc, lines, groups, number, target)?;
        }
        Ok(())
    }
}

/// The rules of rule lines, the oldest first. Takes time and memory linear in the targets of the lines.
pub(crate) fn join_rules(
    alloc: Global,
    hashing: RandomState,
    lines: &[RuleLine],
    groups: &Numbers,
) -> Result<Vec<JoinedRule>, NoMemory>
    requires groups { KnowsGroups groups.now lines.now }
    requires few { length lines.now < 2 ^ 32 }
    ensures { IfOk result (λ rules. rules_of lines.now rules.items ≡ joined_rules lines.now) }
{
    let mut joining = Joining {
        rules: Vec::new(alloc),
        numbers: HashMap::with_hasher(alloc, hashing),
    };
    for (index, line) in lines.iter().enumerate() {
        joining.join_line(alloc, lines, groups, index as u32, line)?;
    }
    Ok(joining.rules)
}
