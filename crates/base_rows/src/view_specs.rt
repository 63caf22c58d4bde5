//! The config specs of views.

ghost use Rattle.std.specs.Prelude.{◌≡◌, ◌<◌, map, vec_len, vec_capacity};
ghost use Rattle.std.specs.Option.{option_copied};
ghost use Rattle.cc_names.specs.Falling.{Falls};
ghost use Rattle.base_model.specs.Seen.{rules};
ghost use Rattle.base_model.specs.Views.{spec_text};
ghost use Rattle.base_rows.specs.Effects.{spec_row_effect};
ghost use Rattle.base_rows.specs.LookUps.{last_of};
ghost use Rattle.base_rows.specs.Made.{spec_made};
ghost use Rattle.base_rows.specs.Order.{newest_first};
ghost use Rattle.base_rows.specs.SetSpecs.{or_no_rules, row_of_parsed, rules_at, with_spec};

use crate::bases::{FirstRows, row_at};
use crate::look_ups::{Does, LookUp, later, left_by, only_if};
use crate::subjects::Subject;
use crate::views::{LifeOf, same_name};
use cc_names::by_row::{ByRow, item_of};
use cc_names::names::Name;
use cc_names::rows::Deed;
use cc_names::selection::Rules;

/// The config spec with which a view begins.
const DEFAULT_SPEC: &[u8] = b"element * CHECKEDOUT\nelement * /main/LATEST\n";

/// The row that set a view's config spec last.
#[derive(Clone, Copy)]
struct SetOf<'a> {
    view: &'a Name,
}

impl LookUp for SetOf<'_> {
    type Item = u64;

    ghost use Rattle.base_rows.specs.Laws.AffectedSubjects.{set_affects};
    ghost use Rattle.base_rows.specs.Effects.{set_effect};
    ghost use Rattle.base_rows.specs.Subjects as model;

    ghost effect = { λ it. set_effect it.view.now };

    ghost about = { λ it. model.Spec it.view.now };

    fn effect(&self, older: &FirstRows<'_>, deed: &Deed) -> Does<u64> {
        match deed {
            Deed::Setcs { view, .. } => {
                only_if(same_name(self.view, view), Does::Sets(older.size()))
            }
            _ => Does::Keeps,
        }
    }

    fn subject(&self) -> Subject<'_> {
        Subject::Spec(self.view)
    }

    ghost affects = { λ it. set_affects it.view.now };
}

/// The row by which the view has its config spec: the last one that set it in the view's life, else the mkview row.
fn spec_row(rows: &FirstRows<'_>, view: &Name) -> Option<u64>
    ensures { result ≡ last_of (spec_row_effect view.now) rows.now }
{
    left_by(later(rows.newest(&LifeOf { view }), rows.newest(&SetOf { view })))
}

/// The config spec that a row gives to its view.
pub fn spec_made(deed: &Deed) -> Option<&[u8]>
    ensures { option_copied result ≡ spec_made deed.now }
{
    match deed {
        Deed::Mkview { .. } => Some(DEFAULT_SPEC),
        Deed::Setcs { text, .. } => Some(text.as_bytes()),
        _ => None,
    }
}

/// The text of the view's config spec as it was set, where the view exists. Takes the time of `newest`, twice.
pub fn spec_text<'a>(rows: &FirstRows<'a>, view: &Name) -> Option<&'a [u8]>
    ensures { option_copied result ≡ spec_text rows.now view.now }
{
    let row = row_at(rows, spec_row(rows, view)?)?;
    spec_made(row.deed())
}

/// The rules of a config spec, by the row that gave it to its view.
#[derive(Drop)]
pub(crate) struct Parsed {
    row: u64,
    spec: Rules,
}

impl ByRow for Parsed {
    ghost use Rattle.base_rows.specs.SetSpecs.{row_of_parsed};

    ghost row_in = { row_of_parsed };

    fn row(&self) -> u64 {
        self.row
    }
}

/// Keeps the rules that a row gives to its view, where it gives any.
pub(crate) fn keep_spec(specs: &mut Vec<Parsed>, row: u64, spec: Option<Rules>)
    requires room { vec_len specs.old < vec_capacity specs.old }
    ensures { newest_first specs.new.items ≡ with_spec row spec (newest_first specs.old.items) }
{
    match spec {
        None => {}
        Some(spec) => specs.push_reserved(Parsed { row, spec }),
    }
}

/// The rules that the row of this number gave, among config specs. Takes time logarithmic in them.
pub(crate) fn spec_of(specs: &[Parsed], row: u64) -> Option<&Rules>
    requires falling { Falls (map row_of_parsed (newest_first specs.now)) }
    ensures { option_copied result ≡ rules_at row (newest_first specs.now) }
{
    let parsed = item_of(specs, row)?;
    Some(&parsed.spec)
}

/// The rules of the view's config spec, where the view exists. Takes the time of `spec_text`, and time logarithmic in the config
/// specs.
pub fn rules<'a>(rows: &FirstRows<'a>, view: &Name) -> Option<&'a Rules>
    ensures { or_no_rules (option_copied result) ≡ rules rows.now view.now }
{
    rows.spec_given(spec_row(rows, view)?)
}
