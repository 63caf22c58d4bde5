//! The suffix rules among the rules of a makefile.

ghost use Rattle.std.specs.Prelude.{◌≡◌, ◌++◌, [], IfOk, OnOk, flat_map, unwrap_or};
ghost use Rattle.std.specs.List.{list_any};
ghost use Rattle.make_grammar.specs.Contents.{groups_of, is_suffix_rule, suffix_rules_of};
ghost use Rattle.make_text.specs.Joining.{KnowsGroups};
ghost use Rattle.make_text.specs.SuffixOrder.{placed_by, placed_rules, placed_target};
ghost use Rattle.make_text.specs.SuffixRules.{is_in_group, is_suffix_target};

use crate::joining::group;
use crate::line_cache::RuleLine;
use crate::numbers::Numbers;
use crate::rules::{MakeRule, SuffixRule};
use crate::special_targets::put_paths;
use crate::suffix_order::{PlacedRule, Side, in_order, without_places};
use crate::suffixes::{Suffixes, cut};
use cc_names::memory::NoMemory;
use cc_names::paths::Path;
use cc_names::texts::Text;
use indexmap::IndexSet;
use std::alloc::Global;
use std::hash::RandomState;
use std::rc::Rc;

/// Whether a target is of a group that has a script, in constant time.
fn is_in_group(lines: &[RuleLine], groups: &Numbers, target: &Path) -> bool
    requires { KnowsGroups groups.now lines.now }
    ensures { result ≡ is_in_group (groups_of lines.now) target.now }
{
    match group(lines, groups, target) {
        Some(_line) => true,
        None => false,
    }
}

/// Whether a target is two suffixes put together, and of no group. Takes time linear in it.
fn is_suffix_target(
    alloc: Global,
    suffixes: &Suffixes,
    lines: &[RuleLine],
    groups: &Numbers,
    target: &Path,
) -> Result<bool, NoMemory>
    requires { KnowsGroups groups.now lines.now }
    ensures { IfOk result
        (λ found. found ≡ is_suffix_target suffixes.now (groups_of lines.now) target.now) }
{
    if !suffixes.has_pair(alloc, target.as_bytes())? {
        return Ok(false);
    }
    Ok(!is_in_group(lines, groups, target))
}

/// Whether a target of a rule is two suffixes put together, and of no group.
fn has_suffix_target(
    alloc: Global,
    suffixes: &Suffixes,
    lines: &[RuleLine],
    groups: &Numbers,
    targets: &[Path],
) -> Result<bool, NoMemory>
    requires { KnowsGroups groups.now lines.now }
    ensures { IfOk result
        (λ found.
        found ≡ list_any (is_suffix_target suffixes.now (groups_of lines.now)) targets.now) }
{
    for target in targets {
        if is_suffix_target(alloc, suffixes, lines, groups, target)? {
            return Ok(true);
        }
    }
    Ok(false)
}

/// Whether a rule is a suffix rule. Takes time linear in its targets.
pub(crate) fn is_suffix_rule(
    alloc: Global,
    suffixes: &Suffixes,
    lines: &[RuleLine],
    groups: &Numbers,
    rule: &MakeRule,
) -> Result<bool, NoMemory>
    requires { KnowsGroups groups.now lines.now }
    ensures { IfOk result
        (λ found. found ≡ is_suffix_rule suffixes.now (groups_of lines.now) rule.now) }
{
    Ok(rule.has_only_script() && has_suffix_target(alloc, suffixes, lines, groups, rule.targets())?)
}

/// The suffix rule that makes one suffix from another, by the rule that it is.
fn suffix_rule(
    alloc: Global,
    from: &[u8],
    to: &[u8],
    rule: &MakeRule,
) -> Result<SuffixRule, NoMemory>
    ensures { IfOk result
        (λ made.
        made
        ≡ record { from = from.now; to = to.now; script = unwrap_or rule.now.script [] }) }
{
    let script = match rule.shared_script()? {
        Some(script) => script,
        None => Rc::new(alloc, Vec::new(alloc))?,
    };
    let from = Text::from_bytes(alloc, from)?;
    let to = Text::from_bytes(alloc, to)?;
    Ok(SuffixRule::of(from, to, script))
}

/// Puts the suffix rule that makes one of these from another after others, if both are suffixes.
fn put_pair(
    alloc: Global,
    suffixes: &Suffixes,
    placed: &mut Vec<PlacedRule>,
    rule: &MakeRule,
    first: &[u8],
    second: &[u8],
) -> Result<(), NoMemory>
    ensures { OnOk result
        (placed.new.items
        ≡ placed.old.items
        ++ placed_by suffixes.now first.now second.now (unwrap_or rule.now.script [])) }
{
    let Some(from) = suffixes.place(alloc, first)? else {
        return Ok(());
    };
    let Some(to) = suffixes.place(alloc, second)? else {
        return Ok(());
    };
    let rule = suffix_rule(alloc, first, second, rule)?;
    placed.push(PlacedRule { from, to, rule })?;
    Ok(())
}

/// Puts the suffix rule that a target of a rule is after others, if it is one. Takes time linear in the target.
fn put_target(
    alloc: Global,
    suffixes: &Suffixes,
    placed: &mut Vec<PlacedRule>,
    rule: &MakeRule,
    target: &Path,
) -> Result<(), NoMemory>
    ensures { OnOk result
        (placed.new.items ≡ placed.old.items ++ placed_target suffixes.now rule.now target.now) }
{
    let (first, second) = cut(target.as_bytes());
    put_pair(alloc, suffixes, placed, rule, first, second)
}

/// Puts the suffix rules that these targets of a rule are after others.
fn put_targets(
    alloc: Global,
    suffixes: &Suffixes,
    placed: &mut Vec<PlacedRule>,
    rule: &MakeRule,
    targets: &[Path],
) -> Result<(), NoMemory>
    ensures { OnOk result
        (placed.new.items
        ≡ placed.old.items ++ flat_map (placed_target suffixes.now rule.now) targets.now) }
{
    for target in targets {
        put_target(alloc, suffixes, placed, rule, target)?;
    }
    Ok(())
}

/// Puts the suffix rules that a rule is after others.
fn put_rule(
    alloc: Global,
    hashing: RandomState,
    suffixes: &Suffixes,
    placed: &mut Vec<PlacedRule>,
    rule: &MakeRule,
) -> Result<(), NoMemory>
    ensures { OnOk result
        (placed.new.items ≡ placed.old.items ++ placed_rules suffixes.now rule.now) }
{
    let mut targets = IndexSet::with_hasher(alloc, hashing);
    put_paths(alloc, &mut targets, rule.targets())?;
    put_targets(alloc, suffixes, placed, rule, targets.as_slice())
}

/// The suffix rules that rules are, rule by rule.
fn placed_rules(
    alloc: Global,
    hashing: RandomState,
    suffixes: &Suffixes,
    rules: &[MakeRule],
) -> Result<Vec<PlacedRule>, NoMemory>
    ensures { IfOk result
        (λ placed. placed.items ≡ flat_map (placed_rules suffixes.now) rules.now) }
{
    let mut placed = Vec::new(alloc);
    for rule in rules {
        put_rule(alloc, hashing, suffixes, &mut placed, rule)?;
    }
    Ok(placed)
}

/// The suffix rules, in the order in which they are tried, by the rules that they are. Takes time linear in the targets of the
/// rules and in the suffixes.
pub(crate) fn suffix_rules(
    alloc: Global,
    hashing: RandomState,
    suffixes: &Suffixes,
    rules: &[MakeRule],
) -> Result<Vec<SuffixRule>, NoMemory>
    ensures { IfOk result (λ made. made.items ≡ suffix_rules_of suffixes.now rules.now) }
{
    let count = suffixes.len();
    let placed = placed_rules(alloc, hashing, suffixes, rules)?;
    let by_second = in_order(alloc, count, Side::To, placed)?;
    let ordered = in_order(alloc, count, Side::From, by_second)?;
    without_places(alloc, ordered)
}
