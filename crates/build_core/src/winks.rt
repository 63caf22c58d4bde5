//! The row by which the view of a build winks in an object.

ghost use Rattle.std.specs.Prelude.{◌≡◌, ◌≤◌, true, IfOk};
ghost use Rattle.cc_names.specs.declared.rows.Deed.TheVariants as deeds;
ghost use Rattle.legal_history.specs.Stories.Lawful.{last_moment};

use crate::active::ActiveBuild;
use cc_names::memory::NoMemory;
use cc_names::rows::{Deed, Row};
use std::alloc::Global;

/// The row by which the view of an active build winks in an object at this moment. Fails only where memory runs out. Takes
/// time linear in the view's name.
pub fn wink_row(
    alloc: Global,
    build: &ActiveBuild,
    moment: u64,
    object: u64,
) -> Result<Row, NoMemory>
    requires { moment ≤ last_moment }
    ensures { IfOk result
        (λ row.
        row
        ≡ record {
          tag = build.now.tag;
          moment = moment;
          deed = deeds.Wink build.now.view object;
        }) }
{
    let view = build.view().copy(alloc)?;
    Ok(Row::of(build.tag(), moment, Deed::Wink { view, object }))
}
