//! What is tested after the last line of a makefile, and what it says then.

ghost use Rattle.std.specs.Prelude.{◌≡◌, IfOk, filter, flat_map, not, reverse};
ghost use Rattle.cc_names.specs.Answers.{Gives};
ghost use Rattle.make_grammar.specs.Contents.{groups_of, is_suffix_rule, joined_rules, suffix_rules_of};
ghost use Rattle.make_grammar.specs.Grammar.{contents_of, ending_fault, phony_fault};
ghost use Rattle.make_text.specs.Endings.{checked_reading};
ghost use Rattle.make_text.specs.Joining.{KnowsGroups, rules_of};
ghost use Rattle.make_text.specs.MacroChecks.{FindsFault};
ghost use Rattle.make_grammar.specs.Serving.{prerequisites_of};
ghost use Rattle.make_grammar.specs.WordPaths.{each_once};

use crate::contents::Makefile;
use crate::gathering::gather;
use crate::joining::{JoinedRule, join_rules, number_groups};
use crate::line_cache::RuleLine;
use crate::macro_checks::test_macros;
use crate::numbers::Numbers;
use crate::readings::{Parts, Reading, reading_fault};
use crate::rules::MakeRule;
use crate::special_targets::has_some;
use crate::suffix_rules::{is_suffix_rule, suffix_rules};
use crate::suffixes::Suffixes;
use cc_names::memory::{NoMemory, Or};
use cc_names::paths::Path;
use cc_names::refusals::{MakeCause, MakeError};
use indexmap::IndexSet;
use std::alloc::Global;
use std::hash::RandomState;

/// Rules in two parts: those that are no suffix rules, and those that are.
#[derive(Drop)]
struct Parted {
    rules: Vec<MakeRule>,
    suffix_rules: Vec<MakeRule>,
}

/// The rules of a makefile, with all that they are made of.
#[derive(Drop)]
struct Ruled {
    parted: Parted,
    prerequisites: IndexSet<Path, RandomState>,
}

/// Tests that no rule line has a script for a phony target. Takes time linear in the targets.
fn test_phony(
    alloc: Global,
    phony: &IndexSet<Path, RandomState>,
    lines: &[RuleLine],
) -> Result<(), Or<MakeError>>
    ensures { FindsFault result (phony_fault phony.now.keys lines.now) }
{
    for line in lines {
        if line.has_script() && has_some(phony, line.targets()) {
            let (file, number) = line.place();
            return Err(reading_fault(alloc, file, number, MakeCause::PhonyScript));
        }
    }
    Ok(())
}

/// The rules apart from the suffix rules.
fn part_rules(
    alloc: Global,
    suffixes: &Suffixes,
    lines: &[RuleLine],
    groups: &Numbers,
    joined: Vec<JoinedRule>,
) -> Result<Parted, NoMemory>
    requires { KnowsGroups groups.now lines.now }
    ensures rules { IfOk result
        (λ parted.
        parted.rules.items
        ≡ filter (λ rule. not (is_suffix_rule suffixes.now (groups_of lines.now) rule))
        (rules_of lines.now joined.items)) }
    ensures suffix_rules { IfOk result
        (λ parted.
        parted.suffix_rules.items
        ≡ filter (is_suffix_rule suffixes.now (groups_of lines.now))
        (rules_of lines.now joined.items)) }
{
    let mut rules = Vec::new(alloc);
    let mut suffix_rules = Vec::new(alloc);
    for joined_rule in joined {
        let rule = joined_rule.into_rule(alloc, lines)?;
        if is_suffix_rule(alloc, suffixes, lines, groups, &rule)? {
            suffix_rules.push(rule)?;
        } else {
            rules.push(rule)?;
        }
    }
    Ok(Parted {
        rules,
        suffix_rules,
    })
}

/// The rules of rule lines, the oldest first.
fn rules_of(
    alloc: Global,
    hashing: RandomState,
    suffixes: &Suffixes,
    lines: &[RuleLine],
) -> Result<Ruled, NoMemory>
    ensures rules { IfOk result
        (λ ruled.
        ruled.parted.rules.items
        ≡ filter (λ rule. not (is_suffix_rule suffixes.now (groups_of lines.now) rule))
        (joined_rules lines.now)) }
    ensures suffix_rules { IfOk result
        (λ ruled.
        ruled.parted.suffix_rules.items
        ≡ filter (is_suffix_rule suffixes.now (groups_of lines.now))
        (joined_rules lines.now)) }
    ensures prerequisites { IfOk result
        (λ ruled.
        ruled.prerequisites.keys ≡ each_once (flat_map prerequisites_of (joined_rules lines.now))) }
{
    let groups = number_groups(alloc, hashing, lines)?;
    let joined = join_rules(alloc, hashing, lines, &groups)?;
    let prerequisites = gather(alloc, hashing, lines, joined.as_slice())?;
    let parted = part_rules(alloc, suffixes, lines, &groups, joined)?;
    Ok(Ruled {
        parted,
        prerequisites,
    })
}

/// What a makefile says, by what was read of it.
fn contents_of(alloc: Global, hashing: RandomState, reading: Reading) -> Result<Makefile, NoMemory>
    ensures { IfOk result (λ make. make ≡ contents_of reading (reverse reading.rules)) }
{
    let Parts {
        macros,
        suffixes,
        phony,
        lines,
    } = reading.into_parts();
    let ruled = rules_of(alloc, hashing, &suffixes, lines.as_slice())?;
    let Ruled {
        parted,
        prerequisites,
    } = ruled;
    let Parted {
        rules,
        suffix_rules: parts,
    } = parted;
    let suffix_rules = suffix_rules(alloc, hashing, &suffixes, parts.as_slice())?;
    Ok(Makefile::of_parts(rules, prerequisites, suffix_rules, phony, macros))
}

/// Tests each macro, and then the phony targets.
fn test_ending(alloc: Global, reading: &Reading) -> Result<(), Or<MakeError>>
    ensures { FindsFault result (ending_fault reading.now) }
{
    match test_macros(alloc, reading.macros()) {
        Ok(()) => test_phony(alloc, reading.phony(), reading.lines()),
        Err(fault) => Err(fault),
    }
}

/// What a makefile says, or the first fault after its last line.
pub(crate) fn checked_contents(
    alloc: Global,
    hashing: RandomState,
    reading: Reading,
) -> Result<Makefile, Or<MakeError>>
    ensures { Gives result (checked_reading reading) }
{
    match test_ending(alloc, &reading) {
        Ok(()) => Ok(contents_of(alloc, hashing, reading)?),
        Err(fault) => Err(fault),
    }
}
