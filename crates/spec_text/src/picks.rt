//! What a rule finds, and the first rule that decides.

ghost use Rattle.std.specs.Prelude.{◌≡◌};
ghost use Rattle.cc_names.specs.Paths.{names_of};
ghost use Rattle.base_model.specs.ConfigSpecs.Rules.{branch_of_type, latest_on, found_by, is_checkout, ends_scan, pick};
ghost use Rattle.spec_text.specs.Verdicts.{verdict};

use crate::branches::branch_behind;
use crate::patterns::Matches;
use crate::selectable::Selectable;
use cc_names::names::Name;
use cc_names::selection::{Picked, Rule, Rules, Selector};

fn branch_of_type<S: Selectable>(sources: &S, element: u64, name: &Name) -> Option<u64>
    ensures { result ≡ branch_of_type (S.selectables sources.now) element name.now }
{
    if name.as_bytes() == b"main".as_slice() {
        return Some(element);
    }
    sources.branch_named(element, name)
}

fn latest_on<S: Selectable>(sources: &S, branch: Option<u64>, before: Option<u64>) -> Option<u64>
    ensures { result ≡ latest_on (S.selectables sources.now) before branch }
{
    sources.latest(branch?, before)
}

/// The version that a rule's selector finds of an element.
fn found_by<S: Selectable>(sources: &S, element: u64, rule: &Rule) -> Option<u64>
    ensures { result ≡ found_by (S.selectables sources.now) element rule.now }
{
    match &rule.selector {
        Selector::CheckedOut => sources.checkout(),
        Selector::Label(name) => sources.holder(name, element),
        Selector::Latest(names) => {
            let branch = branch_behind(sources, element, names.as_slice());
            latest_on(sources, branch, rule.before)
        }
        Selector::Wherever(name) => latest_on(
            sources,
            branch_of_type(sources, element, name),
            rule.before,
        ),
        Selector::Numbered(names, number) => {
            let branch = branch_behind(sources, element, names.as_slice())?;
            sources.version_of_number(branch, *number)
        }
        Selector::Config(target, object) => sources.recorded_version(*object, target, element),
        Selector::Nothing => None,
    }
}

fn is_checkout(selector: &Selector) -> bool
    ensures { result ≡ is_checkout selector.now }
{
    matches!(selector, Selector::CheckedOut)
}

fn ends_scan(selector: &Selector) -> bool
    ensures { result ≡ ends_scan selector.now }
{
    matches!(selector, Selector::Nothing)
}

/// What a rule picks at the path of these bytes, a version or none by `-none`, where it decides there.
fn verdict<S: Selectable>(
    sources: &S,
    element: u64,
    path: &[u8],
    rule: &Rule,
) -> Option<Option<Picked>>
    ensures { result ≡ verdict (S.selectables sources.now) element (names_of path.now) rule.now }
{
    if !rule.pattern.matches(path) {
        return None;
    }
    match found_by(sources, element, rule) {
        Some(row) => Some(Some(Picked {
            row,
            line: rule.line,
            out: is_checkout(&rule.selector),
        })),
        None if ends_scan(&rule.selector) => Some(None),
        None => None,
    }
}

/// Picks the version of an element at the path of these bytes from what there is: that of the first rule whose pattern matches
/// the path and whose selector finds a version, or none where such a rule is `-none` first. Takes no memory, and for each rule
/// tried the matching of the path and one query, for a rule that names a branch two for each of its names.
pub fn pick_from<S: Selectable>(
    sources: &S,
    rules: &Rules,
    element: u64,
    path: &[u8],
) -> Option<Picked>
    ensures { result
        ≡ pick (S.selectables sources.now) element (names_of path.now) rules.now }
{
    for rule in rules.as_slice() {
        if let Some(picked) = verdict(sources, element, path, rule) {
            return picked;
        }
    }
    None
}
