//! The decision on a clearmake: the build that begins, or its first refusal.

ghost use Rattle.std.specs.Prelude.{◌≡◌, ℕ, ◌+◌, ◌∷◌, [], ◌<◌, ◌≤◌, ◌^◌, length, option_copied, IfOk, IfNone};
ghost use Rattle.base_model.specs.Fits.{row_limit};
ghost use Rattle.cc_names.specs.Answers.{Gives};
ghost use Rattle.session_text.specs.Formed.{IsClearmake};
ghost use Rattle.base_model.specs.Rows.{size};
ghost use Rattle.legal_history.specs.Builds.Active.{building, rows_reserved};
ghost use Rattle.legal_history.specs.Commands.Decisions.{Scene, first_refusal, needs_room};
ghost use Rattle.legal_history.specs.Builds.Consistency.{InOrder};
ghost use Rattle.base_model.specs.Texts.{texts};
ghost use Rattle.legal_history.specs.Commands.ObjectLines.{clearmake, clearmake_tests};
ghost use Rattle.make_grammar.specs.Graphs.{units};
ghost use Rattle.build_core.specs.BuildForms.{IsBuildFormed};
ghost use Rattle.build_core.specs.Plans.{Meets, AreUnits, Begun, Plans};

use crate::active::ActiveBuild;
use crate::plans::graph;
use cc_names::commands::{Clearmake, Macro};
use cc_names::memory::Or;
use cc_names::names::Name;
use cc_names::occasions::Occasion;
use cc_names::paths::Path;
use cc_names::refusals::Refusal;
use cc_names::rows::Tag;
use make_graph::unit_graphs::Graph;
use make_text::contents::Texts;
use std::alloc::Global;
use std::hash::RandomState;
use view_lookup::{FirstRows, ROW_LIMIT, text_at, view_row};

// The texts of the files of a view.
#[derive(Drop)]
struct ViewTexts<'a> {
    rows: &'a FirstRows<'a>,
    owner: &'a Name,
}

impl Texts for ViewTexts<'_> {
    ghost use Rattle.legal_history.specs.Builds.Consistency.{InOrder};
    ghost use Rattle.base_model.specs.Texts.{texts};

    ghost texts = { λ files path. texts files.rows.now files.owner.now path };

    fn text(&self, path: &Path) -> Option<&[u8]> {
        text_at(self.rows, self.owner, path)
    }
}

/// The units of a build in a view, over the view's files.
fn units_in(
    alloc: Global,
    hashing: RandomState,
    rows: &FirstRows<'_>,
    view: &Name,
    file: Option<&Path>,
    macros: &[Macro],
    goals: &[Path],
) -> Result<Graph, Or<Refusal>>
    ensures { Gives result
        (units (texts rows.now view.now) (option_copied file.entry) macros.now goals.now) }
{
    let files = ViewTexts { rows, owner: view };
    graph(alloc, hashing, &files, file, macros, goals)
}

/// The refusal of a build before its units are planned: there is no such view, or a build of it is active.
fn refusal_of_view(rows: &FirstRows<'_>, view: &Name, busy: Option<Tag>) -> Option<Refusal>
    ensures refusal { (scene : Scene)
        → scene.base ≡ rows.now
        → building scene.active view.now ≡ busy
        → result ≡ first_refusal (clearmake_tests scene view.now) }
{
    if view_row(rows, view).is_none() {
        return Some(Refusal::NoView);
    }
    match busy {
        Some(build) => Some(Refusal::Building(build)),
        None => None,
    }
}

/// The refusal of a build of this many units where there is no room for a row of each.
fn refusal_of_room(taken: u64, units: u64) -> Option<Refusal>
    requires taken { taken < 2 ^ 63 }
    requires units { units < 2 ^ 63 }
    ensures refusal { (scene : Scene)
        → size scene.base + rows_reserved scene.active ≡ taken
        → result ≡ needs_room scene units }
    ensures room { IfNone result (taken + units ≤ row_limit) }
{
    if taken + units > ROW_LIMIT {
        Some(Refusal::Full(taken.min(ROW_LIMIT)))
    } else {
        None
    }
}

/// The units with which a build in a view begins, or its first refusal.
fn units_to_begin(
    alloc: Global,
    hashing: RandomState,
    rows: &FirstRows<'_>,
    view: &Name,
    file: Option<&Path>,
    macros: &[Macro],
    goals: &[Path],
    busy: Option<Tag>,
    taken: u64,
) -> Result<Graph, Or<Refusal>>
    requires taken { taken < 2 ^ 63 }
    ensures decided { (scene : Scene)
        → Meets scene rows.now view.now busy taken
        → Begun result
        (clearmake scene view.now (option_copied file.entry) macros.now goals.now) }
    ensures formed { IfOk result AreUnits }
    ensures in_order { IfOk result InOrder }
    ensures room { IfOk result (λ units. taken + length units ≤ row_limit) }
{
    if let Some(refusal) = refusal_of_view(rows, view, busy) {
        return Err(Or::Is(refusal));
    }
    let graph = units_in(alloc, hashing, rows, view, file, macros, goals)?;
    if let Some(refusal) = refusal_of_room(taken, graph.units().len() as u64) {
        return Err(Or::Is(refusal));
    }
    Ok(graph)
}

/// The build that a clearmake begins, or its first refusal: there is no such view (C1), a build of the view is active
/// (C18), its units cannot be planned, or there is no room for a row of each (C23). Fails also where memory runs out.
///
/// Takes what `graph` takes, and for each file that it looks at a look-up by the file's path.
pub fn plan_build(
    alloc: Global,
    hashing: RandomState,
    rows: &FirstRows<'_>,
    asked: &Clearmake,
    occasion: Occasion,
) -> Result<ActiveBuild, Or<Refusal>>
    requires formed { IsClearmake 16777216 asked.now }
    requires taken { occasion.taken < 2 ^ 63 }
    requires rows { size rows.now ≤ occasion.taken }
    ensures planned { (scene : Scene)
        → Meets scene rows.now asked.now.view occasion.busy occasion.taken
        → Plans occasion.tag scene asked.now result }
    ensures formed { IfOk result (λ build. IsBuildFormed build) }
    ensures room { IfOk result (λ build. occasion.taken + length build.units ≤ row_limit) }
{
    let graph = units_to_begin(
        alloc,
        hashing,
        rows,
        &asked.view,
        asked.file.as_ref(),
        asked.macros.as_slice(),
        asked.goals.as_slice(),
        occasion.busy,
        occasion.taken,
    )?;
    let size = rows.size();
    let view = asked.view.copy(alloc)?;
    let build = ActiveBuild::begin(
        alloc,
        occasion.tag,
        size,
        view,
        asked.own_only,
        asked.rebuild,
        graph,
    )?;
    Ok(build)
}
