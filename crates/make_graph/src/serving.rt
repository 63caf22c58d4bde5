//! All that may serve a build: rules, and what suffix rules make.

ghost use Rattle.std.specs.Prelude.{◌≡◌, [], ◌∷◌, ◌++◌, IfOk, OnOk, not, map, filter, fold, option_copied};
ghost use Rattle.std.specs.List.{filter_map};
ghost use Rattle.make_grammar.specs.WordPaths.{with_path_once};
ghost use Rattle.make_grammar.specs.Serving.{stem_of, source_at, inference_at, first_inference, inference, may_be_served, with_first, by_suffix, by_itself, with_suffix_rule, inference_for, serving_of, bare_rule, serving_alone, without_rule, servings};
ghost use Rattle.make_grammar.specs.Units.{is_rule_target};
ghost use Rattle.make_graph.specs.Numbered.{KnowsRules};

use crate::goals::Exists;
use crate::numbers::{Numbers, number};
use crate::suffix_tables::SuffixTable;
use cc_names::copies::Copied;
use cc_names::lists::List;
use cc_names::memory::{NoMemory, Or};
use cc_names::paths::Path;
use cc_names::texts::Text;
use indexmap::IndexSet;
use make_text::contents::Makefile;
use make_text::numbers::Makes;
use make_text::rules::{MakeRule, SuffixRule};
use make_text::word_paths::read_path_below_root;
use std::alloc::Global;
use std::hash::RandomState;
use std::marker::Model;
use std::rc::Rc;

/// How a suffix rule serves a path, with the script of the rule, which is shared with it.
#[derive(Drop)]
pub(crate) struct Inference {
    stem: Text,
    source: Path,
    script: Rc<Vec<u8>>,
}

impl Model for Inference {
    ghost use Rattle.make_grammar.specs.Rules.{Inference};

    ghost Value = { Inference };

    ghost view = { λ found.
        record { stem = found.stem; source = found.source; script = found.script.value.items } };
}

/// A rule as it serves a build, by itself or by a suffix rule. Contracts see it as what it makes of what; in memory it shares
/// the prerequisites with the rule, so that only those of units are copied.
#[derive(Drop)]
pub(crate) struct Serving {
    rule: MakeRule,
    found: Option<Inference>,
}

impl Model for Serving {
    ghost use Rattle.make_grammar.specs.Rules.{Serving};
    ghost use Rattle.make_grammar.specs.Serving.{with_suffix_rule};

    ghost Value = { Serving };

    ghost view = { λ serving. with_suffix_rule serving.rule serving.found };
}

impl Makes for Serving {
    ghost targets = { λ serving. serving.targets };

    fn targets(&self) -> &[Path] {
        Serving::targets(self)
    }
}

impl Inference {
    /// The script of the rule.
    fn script(&self) -> &[u8]
        ensures { result.now ≡ self.now.script }
    {
        self.script.as_slice()
    }

    /// What stands before the suffix of the path.
    fn stem(&self) -> &[u8]
        ensures { result.now ≡ self.now.stem }
    {
        self.stem.as_bytes()
    }

    /// What the path is made of.
    fn source(&self) -> &Path
        ensures { result.now ≡ self.now.source }
    {
        &self.source
    }
}

impl Serving {
    /// What it makes, in constant time.
    #[tactic(auto, using(crate::proofs::ServingLemmas::helped_targets))]
    pub(crate) fn targets(&self) -> &[Path]
        ensures { result.now ≡ self.now.targets }
    {
        self.rule.targets()
    }

    /// The script, in constant time.
    pub(crate) fn script(&self) -> Option<&[u8]>
        ensures { option_copied result ≡ self.now.script }
    {
        match &self.found {
            Some(found) => Some(found.script()),
            None => self.rule.script(),
        }
    }

    /// The stem, in constant time.
    pub(crate) fn stem(&self) -> &[u8]
        ensures { result.now ≡ self.now.stem }
    {
        match &self.found {
            Some(found) => found.stem(),
            None => &[],
        }
    }

    /// The prerequisites. Takes time linear in those of the lines of the rule, and memory linear in the result.
    pub(crate) fn prerequisites(
        &self,
        alloc: Global,
        hashing: RandomState,
    ) -> Result<List<Path>, NoMemory>
        ensures { IfOk result (λ paths. paths ≡ self.now.prerequisites) }
    {
        let own = self.rule.prerequisites(alloc, hashing)?;
        match &self.found {
            Some(found) => Ok(with_first(alloc, found.source(), own.as_slice())?),
            None => Ok(own),
        }
    }
}

/// Whether the path is the target of a rule, in constant time.
fn is_rule_target(make: &Makefile, rules: &Numbers, path: &Path) -> bool
    requires { KnowsRules rules.now make.now }
    ensures { result ≡ is_rule_target make.now.rules path.now }
{
    number(rules, path).is_some()
}

/// The path of this stem and suffix, where it is a file or the target of a rule.
fn source<E: Exists>(
    alloc: Global,
    make: &Makefile,
    rules: &Numbers,
    files: &E,
    stem: &[u8],
    suffix: &[u8],
) -> Result<Option<Path>, NoMemory>
    requires { KnowsRules rules.now make.now }
    ensures { IfOk result
        (λ source. source ≡ source_at make.now (E.is_file files.now) suffix.now stem.now) }
{
    let mut bytes = Vec::from_slice(alloc, stem)?;
    bytes.extend_from_slice(suffix)?;
    let Some(path) = read_path_below_root(alloc, bytes.as_slice())? else {
        return Ok(None);
    };
    if files.exists(&path) || is_rule_target(make, rules, &path) {
        Ok(Some(path))
    } else {
        Ok(None)
    }
}

/// How a suffix rule serves a path, where it does.
fn infer_by<E: Exists>(
    alloc: Global,
    make: &Makefile,
    rules: &Numbers,
    files: &E,
    rule: &SuffixRule,
    path: &Path,
) -> Result<Option<Inference>, NoMemory>
    requires { KnowsRules rules.now make.now }
    ensures { IfOk result
        (λ found.
        found
        ≡ inference_at make.now (E.is_file files.now) rule.now (stem_of rule.now.to path.now)) }
{
    let Some(stem) = path.as_bytes().strip_suffix(rule.to_suffix()) else {
        return Ok(None);
    };
    let Some(source) = source(alloc, make, rules, files, stem, rule.from_suffix())? else {
        return Ok(None);
    };
    Ok(Some(Inference {
        stem: Text::from_bytes(alloc, stem)?,
        source,
        script: rule.shared_script()?,
    }))
}

/// Whether a suffix rule may serve a path that has no script.
fn may_be_served<E: Exists>(make: &Makefile, files: &E, path: &Path) -> bool
    ensures { result ≡ may_be_served make.now (E.is_file files.now) path.now }
{
    let _below = path.as_bytes();
    !path.is_root() && !(files.exists(path) || make.is_phony(path))
}

/// How the first suffix rule that serves a path does.
fn infer_first<E: Exists>(
    alloc: Global,
    make: &Makefile,
    rules: &Numbers,
    suffixes: &SuffixTable<'_>,
    files: &E,
    path: &Path,
) -> Result<Option<Inference>, NoMemory>
    requires { KnowsRules rules.now make.now }
    ensures { IfOk result
        (λ found.
        found
        ≡ first_inference make.now (E.is_file files.now) path.now suffixes.now.rules.now) }
{
    let mut place = suffixes.first(alloc, path.as_bytes())?;
    while place < suffixes.len() {
        let found = infer_by(alloc, make, rules, files, suffixes.rule(place), path)?;
        if found.is_some() {
            return Ok(found);
        }
        place = suffixes.next(place);
    }
    Ok(None)
}

/// How the first suffix rule that serves a path without a script does. Takes time linear in the rules for its suffix.
fn infer<E: Exists>(
    alloc: Global,
    make: &Makefile,
    rules: &Numbers,
    suffixes: &SuffixTable<'_>,
    files: &E,
    path: &Path,
) -> Result<Option<Inference>, NoMemory>
    requires rules { KnowsRules rules.now make.now }
    requires suffixes { suffixes.now.rules.now ≡ make.now.suffix_rules }
    ensures { IfOk result (λ found. found ≡ inference make.now (E.is_file files.now) path.now) }
{
    if !may_be_served(make, files, path) {
        return Ok(None);
    }
    infer_first(alloc, make, rules, suffixes, files, path)
}

/// The paths with this one at the start.
fn with_first(alloc: Global, first: &Path, paths: &[Path]) -> Result<List<Path>, NoMemory>
    ensures { IfOk result (λ all. all ≡ with_first first.now paths.now) }
{
    let mut all = Vec::new(alloc);
    all.push(first.copy(alloc)?)?;
    for path in paths {
        if first != path {
            all.push(path.copy(alloc)?)?;
        }
    }
    Ok(List::of(all))
}

/// A rule by itself, or with the script and the source of a suffix rule.
fn with_suffix_rule(
    alloc: Global,
    rule: &MakeRule,
    found: Option<Inference>,
) -> Result<Serving, NoMemory>
    ensures { IfOk result (λ serving. serving ≡ with_suffix_rule rule.now found) }
{
    Ok(Serving {
        rule: rule.copy(alloc)?,
        found,
    })
}

/// How a suffix rule serves the target of a rule, if it has no script.
fn infer_for<E: Exists>(
    alloc: Global,
    make: &Makefile,
    rules: &Numbers,
    suffixes: &SuffixTable<'_>,
    files: &E,
    rule: &MakeRule,
) -> Result<Option<Inference>, NoMemory>
    requires rules { KnowsRules rules.now make.now }
    requires suffixes { suffixes.now.rules.now ≡ make.now.suffix_rules }
    ensures { IfOk result
        (λ found.
        found ≡ inference_for make.now (E.is_file files.now) rule.now.targets rule.now.script) }
{
    if rule.has_script() {
        return Ok(None);
    }
    match rule.targets().first() {
        Some(target) => infer(alloc, make, rules, suffixes, files, target),
        None => Ok(None),
    }
}

/// The rules as they serve.
fn own_servings<E: Exists>(
    alloc: Global,
    make: &Makefile,
    rules: &Numbers,
    suffixes: &SuffixTable<'_>,
    files: &E,
) -> Result<Vec<Serving>, NoMemory>
    requires rules { KnowsRules rules.now make.now }
    requires suffixes { suffixes.now.rules.now ≡ make.now.suffix_rules }
    ensures { IfOk result
        (λ units. units.items ≡ map (serving_of make.now (E.is_file files.now)) make.now.rules) }
{
    let mut units = Vec::new(alloc);
    for rule in make.rules() {
        let found = infer_for(alloc, make, rules, suffixes, files, rule)?;
        units.push(with_suffix_rule(alloc, rule, found)?)?;
    }
    Ok(units)
}

/// Puts those of the paths that have no rule after others, each once.
fn put_without_rule(
    make: &Makefile,
    rules: &Numbers,
    others: &mut IndexSet<Path, RandomState>,
    paths: &[Path],
    alloc: Global,
) -> Result<(), NoMemory>
    requires { KnowsRules rules.now make.now }
    ensures { OnOk result
        (others.new.keys
        ≡ fold with_path_once others.old.keys
        (filter (λ path. not (is_rule_target make.now.rules path)) paths.now)) }
{
    for path in paths {
        if !is_rule_target(make, rules, path) && !others.contains(path) {
            others.insert(path.copy(alloc)?)?;
        }
    }
    Ok(())
}

/// The goals and prerequisites that have no rule. Takes time linear in the goals and the prerequisites, each of these once.
fn gather_without_rule(
    alloc: Global,
    hashing: RandomState,
    make: &Makefile,
    rules: &Numbers,
    goals: &[Path],
) -> Result<IndexSet<Path, RandomState>, NoMemory>
    requires { KnowsRules rules.now make.now }
    ensures { IfOk result (λ paths. paths.keys ≡ without_rule make.now goals.now) }
{
    let mut others = IndexSet::with_hasher(alloc, hashing);
    put_without_rule(make, rules, &mut others, goals, alloc)?;
    put_without_rule(make, rules, &mut others, make.prerequisites(), alloc)?;
    Ok(others)
}

/// The goals and prerequisites that have no rule, each once, as a list.
fn without_rule(
    alloc: Global,
    hashing: RandomState,
    make: &Makefile,
    rules: &Numbers,
    goals: &[Path],
) -> Result<Vec<Path>, NoMemory>
    requires { KnowsRules rules.now make.now }
    ensures { IfOk result (λ paths. paths.items ≡ without_rule make.now goals.now) }
{
    let others = gather_without_rule(alloc, hashing, make, rules, goals)?;
    Ok(others.into_iter().collect(alloc)?)
}

/// What a suffix rule makes of a path without a rule.
fn alone(alloc: Global, path: &Path, found: Inference) -> Result<Serving, NoMemory>
    ensures { IfOk result (λ serving. serving ≡ by_suffix (bare_rule path.now) found) }
{
    Ok(Serving {
        rule: MakeRule::without(alloc, one_path(alloc, path)?),
        found: Some(found),
    })
}

fn one_path(alloc: Global, path: &Path) -> Result<List<Path>, NoMemory>
    ensures { IfOk result (λ paths. paths ≡ path.now ∷ []) }
{
    let mut paths = Vec::new(alloc);
    paths.push(path.copy(alloc)?)?;
    Ok(List::of(paths))
}

/// Puts what suffix rules make of paths without a rule after what serves.
fn put_alone<E: Exists>(
    alloc: Global,
    make: &Makefile,
    rules: &Numbers,
    suffixes: &SuffixTable<'_>,
    files: &E,
    units: &mut Vec<Serving>,
    paths: &[Path],
) -> Result<(), NoMemory>
    requires rules { KnowsRules rules.now make.now }
    requires suffixes { suffixes.now.rules.now ≡ make.now.suffix_rules }
    ensures { OnOk result
        (units.new.items
        ≡ units.old.items
        ++ filter_map (serving_alone make.now (E.is_file files.now)) paths.now) }
{
    for path in paths {
        if let Some(found) = infer(alloc, make, rules, suffixes, files, path)? {
            units.push(alone(alloc, path, found)?)?;
        }
    }
    Ok(())
}

/// All that may serve a build of these goals: the rules, and the paths without a rule that a suffix rule serves. Takes time
/// linear in the rules with the lines that are joined to them, and in the goals and the prerequisites, each once, for each
/// suffix rule of its suffix.
pub(crate) fn servings<E: Exists>(
    alloc: Global,
    hashing: RandomState,
    make: &Makefile,
    rules: &Numbers,
    files: &E,
    goals: &[Path],
) -> Result<Vec<Serving>, NoMemory>
    requires { KnowsRules rules.now make.now }
    ensures { IfOk result
        (λ units. units.items ≡ servings make.now (E.is_file files.now) goals.now) }
{
    let suffixes = SuffixTable::of(alloc, hashing, make.suffix_rules())?;
    let mut units = own_servings(alloc, make, rules, &suffixes, files)?;
    let paths = without_rule(alloc, hashing, make, rules, goals)?;
    put_alone(
        alloc,
        make,
        rules,
        &suffixes,
        files,
        &mut units,
        paths.as_slice(),
    )?;
    Ok(units)
}
