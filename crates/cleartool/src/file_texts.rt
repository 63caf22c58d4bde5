//! The query for the text of a file, or of an object.

ghost use Rattle.std.specs.Prelude.{◌≡◌, ◌∷◌, [], None, IfOk};
ghost use Rattle.base_model.specs.Seen.{at};
ghost use Rattle.legal_history.specs.Commands.Decisions.{first_refusal};
ghost use Rattle.legal_history.specs.Commands.Tests.{needs_no_directory};
ghost use Rattle.legal_history.specs.Queries.QueryLines.{cat, needs_text, made_text_at, text_row};
ghost use Rattle.view_lookup.specs.Answering.{AnswersAs};

use cc_names::memory::{NoMemory, Or};
use cc_names::names::Name;
use cc_names::paths::Path;
use cc_names::refusals::Refusal;
use cc_names::rows::Kind;
use cc_names::selection::Seen;
use cc_names::texts::Text;
use std::alloc::Global;
use view_lookup::{FirstRows, at, file_at, held_object, kind_of, text_of, view_row};

/// The refusal of a path at which a view sees no text: nothing is selected there and it holds no object, or
/// there is a directory.
fn needs_text(
    alloc: Global,
    rows: &FirstRows<'_>,
    view: &Name,
    path: &Path,
) -> Result<Option<Refusal>, NoMemory>
    ensures { IfOk result
        (λ refusal.
        let seen = at rows.now view.now path.now in
        refusal
        ≡ first_refusal
        (needs_text rows.now view.now path.now seen
        ∷ needs_no_directory rows.now path.now seen
        ∷ [])) }
{
    match at(rows, view, path) {
        Seen::Private(_) => Ok(None),
        Seen::Element(element, _) => match kind_of(rows, element) {
            Some(Kind::Directory) => Ok(Some(Refusal::IsDirectory(path.copy(alloc)?))),
            Some(Kind::File) => Ok(None),
            None => Ok(None),
        },
        Seen::Unselected(_) => Ok(Some(Refusal::NoPath(path.copy(alloc)?))),
        Seen::Nothing => match held_object(rows, view, path) {
            Some(_) => Ok(None),
            None => Ok(Some(Refusal::NoPath(path.copy(alloc)?))),
        },
    }
}

/// The row that makes the text at a path: of the file there, or, where nothing stands, of the object that the view holds.
fn text_row(rows: &FirstRows<'_>, view: &Name, path: &Path) -> Option<u64>
    ensures { result
        ≡ text_row rows.now view.now path.now (at rows.now view.now path.now) }
{
    match at(rows, view, path) {
        Seen::Private(_) => file_at(rows, view, path),
        Seen::Element(_, _) => file_at(rows, view, path),
        Seen::Unselected(_) => file_at(rows, view, path),
        Seen::Nothing => held_object(rows, view, path),
    }
}

/// The text that a row made at a path; no bytes where there is none.
pub(crate) fn made_text_at<'a>(rows: &FirstRows<'a>, path: &Path, row: Option<u64>) -> &'a [u8]
    ensures { result.now ≡ made_text_at rows.now path.now row }
{
    match row {
        None => &[],
        Some(row) => match text_of(rows, row, path) {
            None => &[],
            Some(text) => text,
        },
    }
}

/// The text of `cat V P`, that of the file which the view sees there or of the object that it holds, or its first refusal.
/// Takes the time of `at`, three times at most, and of `text_of`, and time linear in the text.
pub fn cat(
    alloc: Global,
    rows: &FirstRows<'_>,
    view: &Name,
    path: &Path,
) -> Result<Text, Or<Refusal>>
    ensures { AnswersAs result (cat rows.now view.now path.now None) }
{
    if view_row(rows, view).is_none() {
        return Err(Or::Is(Refusal::NoView));
    }
    if let Some(refusal) = needs_text(alloc, rows, view, path)? {
        return Err(Or::Is(refusal));
    }
    let text = made_text_at(rows, path, text_row(rows, view, path));
    Ok(Text::from_bytes(alloc, text)?)
}
