//! The query for the text of a version of an element.

ghost use Rattle.std.specs.Prelude.{◌≡◌, Some, IfOk};
ghost use Rattle.legal_history.specs.Commands.Tests.{needs_no_directory};
ghost use Rattle.legal_history.specs.Queries.QueryLines.{cat, version_seen};
ghost use Rattle.view_lookup.specs.Answering.{AnswersAs};

use crate::file_texts::made_text_at;
use cc_names::commands::VersionName;
use cc_names::memory::{NoMemory, Or};
use cc_names::names::Name;
use cc_names::paths::Path;
use cc_names::refusals::Refusal;
use cc_names::selection::Seen;
use cc_names::texts::Text;
use std::alloc::Global;
use view_lookup::{FirstRows, at, is_directory_element, version_named, view_row};

/// The version of this name of the element that stands at a path, selected or not.
fn version_seen(rows: &FirstRows<'_>, seen: Seen, name: &VersionName) -> Option<u64>
    ensures { result ≡ version_seen rows.now seen name.now }
{
    match seen {
        Seen::Element(element, _) => version_named(rows, element, name),
        Seen::Unselected(element) => version_named(rows, element, name),
        Seen::Private(_) => None,
        Seen::Nothing => None,
    }
}

/// The refusal of a path at which a directory stands.
fn needs_no_directory(
    alloc: Global,
    rows: &FirstRows<'_>,
    path: &Path,
    seen: Seen,
) -> Result<Option<Refusal>, NoMemory>
    ensures { IfOk result (λ refusal. refusal ≡ needs_no_directory rows.now path.now seen) }
{
    let is_directory = match seen {
        Seen::Element(element, _) => is_directory_element(rows, element),
        Seen::Unselected(element) => is_directory_element(rows, element),
        Seen::Private(_) => false,
        Seen::Nothing => false,
    };
    if is_directory {
        Ok(Some(Refusal::IsDirectory(path.copy(alloc)?)))
    } else {
        Ok(None)
    }
}

/// The text of `cat V P@@VERSION`, that of a version of the element at the path, whichever the view selects, or its first
/// refusal. Takes the time of `at`, of `version_named` and of `text_of`, and time linear in the text.
pub fn cat_version(
    alloc: Global,
    rows: &FirstRows<'_>,
    view: &Name,
    path: &Path,
    name: &VersionName,
) -> Result<Text, Or<Refusal>>
    ensures { AnswersAs result (cat rows.now view.now path.now (Some name.now)) }
{
    if view_row(rows, view).is_none() {
        return Err(Or::Is(Refusal::NoView));
    }
    let seen = at(rows, view, path);
    let version = version_seen(rows, seen, name);
    if version.is_none() {
        return Err(Or::Is(Refusal::NoPath(path.copy(alloc)?)));
    }
    if let Some(refusal) = needs_no_directory(alloc, rows, path, seen)? {
        return Err(Or::Is(refusal));
    }
    Ok(Text::from_bytes(alloc, made_text_at(rows, path, version))?)
}
