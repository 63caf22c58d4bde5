//! What changes name.

ghost use Rattle.std.specs.Prelude.{◌≡◌};
ghost use Rattle.cc_names.specs.Commands.{view_of};

use cc_names::commands::Change;

/// The view in which a change is made; no bytes where it names none. Takes constant time.
pub fn view_of(change: &Change) -> &[u8]
    ensures { result.now ≡ view_of change.now }
{
    match change {
        Change::Mkview { view } => view.as_bytes(),
        Change::Rmview { view, .. } => view.as_bytes(),
        Change::Setcs { view, .. } => view.as_bytes(),
        Change::Mkelem { view, .. } => view.as_bytes(),
        Change::Mkdir { view, .. } => view.as_bytes(),
        Change::Checkout { view, .. } => view.as_bytes(),
        Change::Mkbranch { view, .. } => view.as_bytes(),
        Change::Save { view, .. } => view.as_bytes(),
        Change::Rm { view, .. } => view.as_bytes(),
        Change::Checkin { view, .. } => view.as_bytes(),
        Change::Uncheckout { view, .. } => view.as_bytes(),
        Change::Rmname { view, .. } => view.as_bytes(),
        Change::Mv { view, .. } => view.as_bytes(),
        Change::Mklbtype { .. } => &[],
        Change::Mkbrtype { .. } => &[],
        Change::Mklabel { view, .. } => view.as_bytes(),
        Change::MklabelConfig { view, .. } => view.as_bytes(),
        Change::Rmlabel { view, .. } => view.as_bytes(),
        Change::Mkarrow { view, .. } => view.as_bytes(),
        Change::Rmdo { view, .. } => view.as_bytes(),
        Change::Scrub { .. } => &[],
    }
}
