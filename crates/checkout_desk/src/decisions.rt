//! The decision on a change.

ghost use Rattle.std.specs.Prelude.{◌≡◌, ◌≤◌};
ghost use Rattle.cc_names.specs.Commands.{view_of};
ghost use Rattle.base_model.specs.Rows.{size};
ghost use Rattle.session_text.specs.Formed.{IsChange};
ghost use Rattle.legal_history.specs.Commands.Decisions.{Scene};
ghost use Rattle.legal_history.specs.Commands.Lines.{change_decision};
ghost use Rattle.checkout_desk.specs.Deciding.{DecidesIfAny, Sees, with_row};

use crate::arrows::mkarrow;
use crate::branches::mkbranch;
use crate::checkins::{checkin, uncheckout};
use crate::checkouts::checkout;
use crate::config_specs::setcs;
use crate::elements::mkelem;
use crate::labels::{mklabel, rmlabel};
use crate::names::{mv, rmname};
use crate::objects::rmdo;
use crate::recorded_labels::mklabel_config;
use crate::removals::rm;
use crate::saves::save;
use crate::scrubs::scrub;
use crate::types::mktype;
use crate::views::{mkview, rmview};
use cc_names::commands::Change;
use cc_names::memory::Or;
use cc_names::occasions::Occasion;
use cc_names::refusals::Refusal;
use cc_names::rows::{Kind, Row, TypeKind};
use std::alloc::Global;
use view_lookup::FirstRows;

/// What was decided where there is always a row.
fn with_row(row: Result<Row, Or<Refusal>>) -> Result<Option<Row>, Or<Refusal>>
    ensures { result ≡ with_row row }
{
    Ok(Some(row?))
}

/// A change's row, or its first refusal in the order of the tests of its line. A scrub for which nothing is due has no row, nor
/// has the label of a record that lists nothing. The clause speaks of the scenes with these rows, this build in the view and so
/// many rows taken; in each of them the model's decision has room for the row. Takes the time of its change.
pub fn decide(
    alloc: Global,
    rows: &FirstRows<'_>,
    change: &Change,
    occasion: Occasion,
) -> Result<Option<Row>, Or<Refusal>>
    requires formed { IsChange 16777216 change.now }
    requires rows { size rows.now ≤ occasion.taken }
    ensures { (scene : Scene)
        → Sees scene rows.now occasion.moment (view_of change.now) occasion.busy occasion.taken
        → DecidesIfAny occasion.tag occasion.moment result (change_decision scene change.now) }
{
    match change {
        Change::Mkview { view } => with_row(mkview(alloc, rows, view, occasion)),
        Change::Rmview { view, force } => with_row(rmview(alloc, rows, view, *force, occasion)),
        Change::Setcs { view, text } => with_row(setcs(alloc, rows, view, text, occasion)),
        Change::Mkelem { view, nco, path } => with_row(mkelem(
            alloc,
            rows,
            view,
            *nco,
            Kind::File,
            path,
            occasion,
        )),
        Change::Mkdir { view, nco, path } => with_row(mkelem(
            alloc,
            rows,
            view,
            *nco,
            Kind::Directory,
            path,
            occasion,
        )),
        Change::Checkout {
            view,
            unreserved,
            path,
        } => with_row(checkout(alloc, rows, view, *unreserved, path, occasion)),
        Change::Mkbranch {
            view,
            nco,
            branch,
            path,
        } => with_row(mkbranch(alloc, rows, view, *nco, branch, path, occasion)),
        Change::Save { view, path, text } => with_row(save(
            alloc, rows, view, path, text, occasion,
        )),
        Change::Rm { view, path } => with_row(rm(alloc, rows, view, path, occasion)),
        Change::Checkin {
            view,
            identical,
            path,
        } => with_row(checkin(alloc, rows, view, *identical, path, occasion)),
        Change::Uncheckout { view, path } => with_row(uncheckout(
            alloc, rows, view, path, occasion,
        )),
        Change::Rmname { view, path } => with_row(rmname(alloc, rows, view, path, occasion)),
        Change::Mv { view, path, name } => with_row(mv(alloc, rows, view, path, name, occasion)),
        Change::Mklbtype { name } => with_row(mktype(alloc, rows, TypeKind::Label, name, occasion)),
        Change::Mkbrtype { name } => with_row(mktype(
            alloc,
            rows,
            TypeKind::Branch,
            name,
            occasion,
        )),
        Change::Mklabel {
            view,
            replace,
            label,
            path,
        } => with_row(mklabel(alloc, rows, view, *replace, label, path, occasion)),
        Change::Rmlabel { view, label, path } => with_row(rmlabel(
            alloc, rows, view, label, path, occasion,
        )),
        Change::Mkarrow {
            view,
            path,
            version,
        } => with_row(mkarrow(alloc, rows, view, path, version, occasion)),
        Change::Rmdo { view, path } => with_row(rmdo(alloc, rows, view, path, occasion)),
        Change::MklabelConfig {
            view,
            replace,
            path,
            label,
        } => mklabel_config(alloc, rows, view, *replace, path, label, occasion),
        Change::Scrub { age } => scrub(alloc, rows, *age, occasion),
    }
}
