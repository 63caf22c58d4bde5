//! What rows do to the catalogs of views' checkouts of directories.

ghost use Rattle.std.specs.Prelude.{◌≡◌, ◌==◌, ◌&&◌, ◌||◌, bytes_eq};
ghost use Rattle.base_model.specs.Catalogs as model;
ghost use Rattle.base_model.specs.Rows.{size};
ghost use Rattle.base_rows.specs.Changed.{begins, changes};
ghost use Rattle.base_rows.specs.Entries.{plain_edit};

use crate::bases::FirstRows;
use crate::checkouts::same_checkout;
use crate::look_ups::{Does, LookUp, only_if};
use crate::subjects::Subject;
use cc_names::names::Name;
use cc_names::rows::{Deed, Out};

/// What a row does to the catalog of a view's checkout of a directory.
#[derive(Clone, Copy)]
pub enum Edit<'a> {
    /// Nothing.
    Same,
    /// The checkout begins, of a new directory.
    BeginsEmpty,
    /// The checkout begins, with the catalog of this version.
    BeginsAs(u64),
    /// A name for a new element.
    Adds(&'a Name, u64),
    /// A name goes.
    Removes(&'a Name),
    /// The first name goes, and its element gets the second one.
    Renames(&'a Name, &'a Name),
}

fn edit_where<'a>(test: bool, edit: Edit<'a>) -> Edit<'a>
    ensures { plain_edit result ≡ model.edit_where test (plain_edit edit.entry) }
{
    if test { edit } else { Edit::Same }
}

/// Whether a new branch is checked out.
pub(crate) fn is_out(out: Out) -> bool
    ensures { result ≡ model.is_out out }
{
    match out {
        Out::No => false,
        Out::Reserved => true,
        Out::Unreserved => true,
    }
}

/// What the making of an element does, as the row of a number, to a view's checkout of a directory.
fn edit_of_element<'a>(
    number: u64,
    is_own: bool,
    is_inside: bool,
    out: bool,
    name: &'a Name,
) -> Edit<'a>
    ensures { plain_edit result
        ≡ model.first_edit (is_own && out) model.BeginsEmpty
        (model.edit_where is_inside (model.Adds name.now number)) }
{
    if is_own && out {
        Edit::BeginsEmpty
    } else {
        edit_where(is_inside, Edit::Adds(name, number))
    }
}

/// What the row of a number does to the catalog of a view's checkout of a directory.
pub fn edit_of<'a>(view: &Name, directory: u64, number: u64, deed: &'a Deed) -> Edit<'a>
    ensures { plain_edit result ≡ model.edit_of view.now directory number deed.now }
{
    match deed {
        Deed::Mkelem {
            view: by,
            directory: within,
            name,
            out,
            ..
        } => edit_of_element(
            number,
            same_checkout(view, directory, by, number),
            same_checkout(view, directory, by, *within),
            *out,
            name,
        ),
        Deed::Checkout {
            view: by,
            element,
            origin,
            ..
        } => edit_where(
            same_checkout(view, directory, by, *element),
            Edit::BeginsAs(*origin),
        ),
        Deed::Branch {
            view: by,
            element,
            origin,
            out,
            ..
        } => edit_where(
            same_checkout(view, directory, by, *element) && is_out(*out),
            Edit::BeginsAs(*origin),
        ),
        Deed::Rmname {
            view: by,
            directory: within,
            name,
        } => edit_where(
            same_checkout(view, directory, by, *within),
            Edit::Removes(name),
        ),
        Deed::Mv {
            view: by,
            directory: within,
            from_name,
            to_name,
        } => edit_where(
            same_checkout(view, directory, by, *within),
            Edit::Renames(from_name, to_name),
        ),
        _ => Edit::Same,
    }
}

/// Whether a name has these bytes.
pub fn is_name(bytes: &[u8], name: &Name) -> bool
    ensures { result ≡ bytes_eq name.now bytes.now }
{
    name.as_bytes() == bytes
}

fn begins(edit: Edit<'_>) -> bool
    ensures { result ≡ begins (plain_edit edit.entry) }
{
    match edit {
        Edit::BeginsEmpty => true,
        Edit::BeginsAs(_) => true,
        _ => false,
    }
}

fn changes(name: &[u8], edit: Edit<'_>) -> bool
    ensures { result ≡ changes name.now (plain_edit edit.entry) }
{
    match edit {
        Edit::Adds(other, _) => is_name(name, other),
        Edit::Removes(other) => is_name(name, other),
        Edit::Renames(from, to) => is_name(name, from) || is_name(name, to),
        _ => false,
    }
}

/// The row that began a view's checkout of a directory, whatever becomes of either.
#[derive(Clone, Copy)]
pub struct BegunOf<'a> {
    pub view: &'a Name,
    pub directory: u64,
}

impl LookUp for BegunOf<'_> {
    type Item = u64;

    ghost use Rattle.base_rows.specs.Laws.AffectedByNames.{begun_affects};
    ghost use Rattle.base_rows.specs.Entries.{begun_effect};
    ghost use Rattle.base_rows.specs.Subjects as subjects;

    ghost effect = { λ it. begun_effect it.view.now it.directory };

    ghost about = { λ it. subjects.Out it.view.now it.directory };

    fn effect(&self, older: &FirstRows<'_>, deed: &Deed) -> Does<u64> {
        let number = older.size();
        only_if(
            begins(edit_of(self.view, self.directory, number, deed)),
            Does::Sets(number),
        )
    }

    fn subject(&self) -> Subject<'_> {
        Subject::Out(self.view, self.directory)
    }

    ghost affects = { λ it. begun_affects it.view.now it.directory };
}

/// The row that changed a name in a view's checkout of a directory, whatever becomes of either.
#[derive(Clone, Copy)]
pub struct ChangedOf<'a> {
    pub view: &'a Name,
    pub directory: u64,
    pub name: &'a [u8],
}

impl LookUp for ChangedOf<'_> {
    type Item = u64;

    ghost use Rattle.base_rows.specs.Laws.AffectedByNames.{changed_affects};
    ghost use Rattle.base_rows.specs.Entries.{changed_effect};
    ghost use Rattle.base_rows.specs.Subjects as subjects;

    ghost effect = { λ it. changed_effect it.view.now it.directory it.name.now };

    ghost about = { λ it. subjects.NameIn it.view.now it.directory it.name.now };

    fn effect(&self, older: &FirstRows<'_>, deed: &Deed) -> Does<u64> {
        let number = older.size();
        only_if(
            changes(self.name, edit_of(self.view, self.directory, number, deed)),
            Does::Sets(number),
        )
    }

    fn subject(&self) -> Subject<'_> {
        Subject::NameIn(self.view, self.directory, self.name)
    }

    ghost affects = { λ it. changed_affects it.view.now it.directory it.name.now };
}
