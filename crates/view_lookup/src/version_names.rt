//! The names of versions, as `/main/fix/1`: the branches that lead to the version, from `main` on, and its number on the last.

ghost use Rattle.std.specs.Prelude.{◌≡◌, codes, ◌<◌, ◌≤◌, ◌∷◌, [], ◌++◌, map, reverse, decimal, option_and_then, Some, IsSome, IfNone, IfOk, IfSome, OnOk};
ghost use Rattle.cc_names.specs.Branches.{branch_of_version, names_of_branch, origin_of};
ghost use Rattle.cc_names.specs.Formed.{Plain};
ghost use Rattle.cc_names.specs.Versions.{element_of_branch, latest};
ghost use Rattle.base_model.specs.Changes.{tree};
ghost use Rattle.base_model.specs.Rows.{size, first_rows};
ghost use Rattle.base_model.specs.Views.{out};
ghost use Rattle.legal_history.specs.Queries.DirectoryTexts.{origin_name};
ghost use Rattle.legal_history.specs.Queries.VersionNames.{at_version, behind_slashes, branch_name, version_name};
ghost use Rattle.view_lookup.specs.Naming.{names_above, name_of_new, name_on, replied_name};
ghost use Rattle.cc_names.specs.declared.rows.Deed.TheVariants.{Checkin};

use base_rows::bases::{FirstRows, first_rows};
use base_rows::checkouts::checked_out;
use base_rows::trees::{
    branch_of_version, latest_version, name_of_branch, origin_of, version_id_of,
};
use cc_names::memory::NoMemory;
use cc_names::names::Name;
use cc_names::numbers::push_number;
use cc_names::rows::Deed;
use cc_names::texts::Text;
use std::alloc::Global;

/// The branch that a branch leaves; `main` leaves none.
fn branch_above(rows: &FirstRows<'_>, branch: u64) -> Option<u64>
    ensures { result
        ≡ option_and_then (branch_of_version (tree (first_rows branch rows.now)))
        (origin_of (tree rows.now) branch) }
{
    let origin = origin_of(rows, branch)?;
    branch_of_version(&first_rows(rows, branch), origin)
}

/// How a branch leaves the one above it: its own name, and that branch. `main` leaves none.
fn leaving<'a>(rows: &FirstRows<'a>, branch: u64) -> Option<(&'a [u8], Option<u64>)>
    ensures main { IfNone result (names_of_branch (tree rows.now) branch ≡ []) }
    ensures behind { IfSome result (λ left. 1 ≤ branch) }
    ensures below { IfSome result (λ left. branch < size rows.now) }
    ensures leaves { IfSome result
        (λ left. names_of_branch (tree rows.now) branch
        ≡ names_above (tree (first_rows branch rows.now)) left.1 ++ left.0.now ∷ []) }
{
    match name_of_branch(rows, branch) {
        None => None,
        Some(name) => Some((name.as_bytes(), branch_above(rows, branch))),
    }
}

/// The names after `main` that lead to a branch, the last one first. Takes time linear in them, and for each time logarithmic in
/// the changes.
fn names_upwards<'a>(
    alloc: Global,
    rows: &FirstRows<'a>,
    branch: Option<u64>,
) -> Result<Vec<&'a [u8]>, NoMemory>
    ensures { IfOk result
        (λ names. reverse (map (λ name. name.now) names.items)
        ≡ names_above (tree rows.now) branch) }
{
    let mut names = Vec::new(alloc);
    let mut older = first_rows(rows, rows.size());
    let mut next = branch;
    loop {
        match next {
            None => return Ok(names),
            Some(branch) => match leaving(&older, branch) {
                None => return Ok(names),
                Some((name, above)) => {
                    names.push(name)?;
                    older = first_rows(&older, branch);
                    next = above;
                }
            },
        }
    }
}

/// Writes names after a text, each with a `/` before it, the last of them first.
fn push_names(text: &mut Vec<u8>, names: Vec<&[u8]>) -> Result<(), NoMemory>
    ensures { OnOk result
        (text.new.items
        ≡ text.old.items ++ behind_slashes (reverse (map (λ name. name.now) names.entry.items))) }
{
    let mut left = names;
    loop {
        match left.pop() {
            None => return Ok(()),
            Some(name) => {
                text.push(b'/')?;
                text.extend_from_slice(name)?;
            }
        }
    }
}

/// The path of a branch, as `/main/fix`.
fn branch_text(
    alloc: Global,
    rows: &FirstRows<'_>,
    branch: Option<u64>,
) -> Result<Vec<u8>, NoMemory>
    ensures { IfOk result
        (λ text. text.items ≡ behind_slashes (codes "main" ∷ names_above (tree rows.now) branch)) }
{
    let names = names_upwards(alloc, rows, branch)?;
    let mut text = Vec::from_slice(alloc, b"/main")?;
    push_names(&mut text, names)?;
    Ok(text)
}

/// The path of a branch that a row made, as `/main/fix`; `/main` where it made none. Takes time linear in the name, and for each
/// branch in it time logarithmic in the changes.
pub fn branch_name(alloc: Global, rows: &FirstRows<'_>, branch: u64) -> Result<Vec<u8>, NoMemory>
    ensures { IfOk result (λ text. text.items ≡ branch_name rows.now branch) }
{
    branch_text(alloc, rows, Some(branch))
}

/// A path of a branch and a number there, as `/main/fix/1`.
fn name_with_number(alloc: Global, branch: Vec<u8>, number: u64) -> Result<Text, NoMemory>
    ensures { IfOk result (λ text. text ≡ branch.items ++ 47 ∷ decimal number) }
{
    let mut text = branch;
    text.push(b'/')?;
    push_number(alloc, &mut text, number)?;
    Ok(Text::of(text))
}

/// No bytes.
fn nothing(alloc: Global) -> Text
    ensures { result ≡ [] }
{
    Text::of(Vec::new(alloc))
}

/// The name of the version that a row made, as `/main/fix/1`; empty where it made none. Takes time linear in the name, and for
/// each branch in it time logarithmic in the changes.
pub fn version_name(alloc: Global, rows: &FirstRows<'_>, version: u64) -> Result<Text, NoMemory>
    ensures { IfOk result (λ text. text ≡ version_name rows.now version) }
{
    match version_id_of(rows, version) {
        None => Ok(nothing(alloc)),
        Some(version_id) => {
            let branch = branch_text(alloc, rows, Some(version_id.branch))?;
            name_with_number(alloc, branch, version_id.number)
        }
    }
}

/// The name of the version from which the view's checkout was made; empty where there is none.
/// Takes the time of `checked_out` and of `version_name`.
pub fn origin_name(
    alloc: Global,
    rows: &FirstRows<'_>,
    view: &Name,
    element: u64,
) -> Result<Text, NoMemory>
    ensures { IfOk result
        (λ text. text ≡ origin_name rows.now (out rows.now view.now element)) }
{
    match checked_out(rows, view, element) {
        None => Ok(Text::of(Vec::new(alloc))),
        Some(checkout) => version_name(alloc, rows, checkout.origin),
    }
}

/// The name of version 0 of a new branch, which leaves at a version.
fn first_name(
    alloc: Global,
    rows: &FirstRows<'_>,
    origin: u64,
    name: &Name,
) -> Result<Text, NoMemory>
    ensures { IfOk result
        (λ text. text
        ≡ name_of_new (tree rows.now) (branch_of_version (tree rows.now) origin) name.now) }
{
    let mut branch = branch_text(alloc, rows, branch_of_version(rows, origin))?;
    branch.push(b'/')?;
    branch.extend_from_slice(name.as_bytes())?;
    name_with_number(alloc, branch, 0)
}

/// The name of the next version on a branch that there is.
fn name_on(alloc: Global, rows: &FirstRows<'_>, branch: u64) -> Result<Text, NoMemory>
    requires { IsSome (latest (tree rows.now) branch None) }
    ensures { IfOk result
        (λ text. text ≡ name_on (tree rows.now) branch (element_of_branch (tree rows.now) branch)) }
{
    rows.size();
    let Some(newest) = latest_version(rows, branch, None) else {
        return Ok(nothing(alloc));
    };
    match version_id_of(rows, newest) {
        None => Ok(nothing(alloc)),
        Some(version_id) => {
            let branch = branch_text(alloc, rows, Some(branch))?;
            name_with_number(alloc, branch, version_id.number + 1)
        }
    }
}

/// The name of the version that a checkin of the view's checkout makes.
fn next_name(
    alloc: Global,
    rows: &FirstRows<'_>,
    view: &Name,
    element: u64,
) -> Result<Text, NoMemory>
    ensures { (row : Plain)
        → row.deed ≡ Checkin view.now element
        → IfOk result (λ text. text ≡ version_name (row ∷ rows.now) (size rows.now)) }
{
    match checked_out(rows, view, element) {
        None => Ok(nothing(alloc)),
        Some(checkout) => match branch_of_version(rows, checkout.origin) {
            None => Ok(nothing(alloc)),
            Some(branch) => name_on(alloc, rows, branch),
        },
    }
}

/// The name with which the command of a row of this deed is replied, once the row is there: the name of the version
/// that a checkout is made from, or that a branch or a checkin makes; none for any other deed. Takes time linear in the
/// name, and for each branch in it time logarithmic in the changes.
pub fn replied_name(
    alloc: Global,
    rows: &FirstRows<'_>,
    deed: &Deed,
) -> Result<Option<Text>, NoMemory>
    ensures { (row : Plain)
        → row.deed ≡ deed.now
        → IfOk result (λ name. name ≡ replied_name (row ∷ rows.now) deed.now) }
{
    match deed {
        Deed::Checkout { origin, .. } => Ok(Some(version_name(alloc, rows, *origin)?)),
        Deed::Branch { origin, name, .. } => Ok(Some(first_name(alloc, rows, *origin, name)?)),
        Deed::Checkin { view, element } => Ok(Some(next_name(alloc, rows, view, *element)?)),
        _ => Ok(None),
    }
}

/// Adds a path or a name, `@@`, and the name of a version.
pub fn push_at_version(text: &mut Vec<u8>, path: &[u8], version: &[u8]) -> Result<(), NoMemory>
    ensures { OnOk result (text.new.items ≡ text.old.items ++ at_version path.now version.now) }
{
    text.extend_from_slice(path)?;
    text.extend_from_slice(b"@@")?;
    text.extend_from_slice(version)?;
    Ok(())
}
