//! The active builds: which units a build has, and what they have come to.

ghost use Rattle.std.specs.Prelude.{◌≡◌, ◌<◌, [], true, false, Some, None, length, option_copied, option_map, replicate, IfOk, IfSome};
ghost use Rattle.legal_history.specs.Builds.Active.{came_to, is_outcome, object_of, unit_with};
ghost use Rattle.legal_history.specs.Stories.Steps.{with_came};
ghost use Rattle.legal_history.specs.Builds.Consistency.{InOrder};
ghost use Rattle.build_core.specs.Comes.{came_of, comes_of};
ghost use Rattle.make_graph.specs.Waits.{dependants_of, makers_of, prerequisites_at};
ghost use Rattle.build_core.specs.VisibleObjects.{AreNeeds};

use cc_names::memory::NoMemory;
use cc_names::names::Name;
use cc_names::paths::Path;
use cc_names::rows::Tag;
use cc_names::steps::UnitEnd;
use cc_names::units::Unit;
use make_graph::closures::Closure;
use make_graph::unit_graphs::Graph;
use std::alloc::Global;
use std::marker::Model;

/// What a unit has come to.
#[derive(Drop)]
pub enum Came {
    /// Its script was started.
    Started,
    /// It ended without a row.
    Concluded(UnitEnd),
    /// It was given the object of this row.
    Given(u64),
}

/// An active build. Contracts see it as the model's record of a build.
#[derive(Drop)]
pub struct ActiveBuild {
    tag: Tag,
    view: Name,
    rows: u64,
    own_only: bool,
    rebuild: bool,
    graph: Graph,
    comes: Vec<Option<Came>>,
    /// What each unit stands on whose script was started, until it has its outcome: its script may read many paths.
    closures: Vec<Option<Closure>>,
    faulted: bool,
    alloc: Global,
}

impl Model for ActiveBuild {
    ghost use Rattle.legal_history.specs.Builds.Active.{Build};
    ghost use Rattle.build_core.specs.UnitSlots.{AreSlotsOf};

    ghost Value = { Build };

    ghost use Rattle.build_core.specs.Comes.{comes_of};

    ghost view = { λ build. record {
      tag = build.tag;
      view = build.view;
      rows = build.rows;
      own_only = build.own_only;
      rebuild = build.rebuild;
      units = build.graph;
      comes = comes_of build.comes.items;
      faulted = build.faulted;
    } };

    ghost invariant = { λ build.
        AreSlotsOf build.graph build.comes.items build.closures.items };
}

/// An empty slot for each unit.
fn slots_for(alloc: Global, units: &[Unit]) -> Result<Vec<Option<Came>>, NoMemory>
    ensures length { IfOk result (λ slots. length slots.items ≡ length units.now) }
    ensures empty { IfOk result (λ slots. comes_of slots.items ≡ []) }
{
    let mut slots = Vec::with_capacity(alloc, units.len())?;
    for unit in units {
        slots.push(None)?;
    }
    Ok(slots)
}

/// No closure for each of so many units.
fn no_closures(alloc: Global, count: usize) -> Result<Vec<Option<Closure>>, NoMemory>
    ensures { IfOk result (λ closures. closures.items ≡ replicate count None) }
{
    let mut closures = Vec::with_capacity(alloc, count)?;
    for _unit in 0..count {
        closures.push(None)?;
    }
    Ok(closures)
}

impl ActiveBuild {
    /// A build that begins: none of its units has come to anything. Takes time linear in the units.
    pub(crate) fn begin(
        alloc: Global,
        tag: Tag,
        rows: u64,
        view: Name,
        own_only: bool,
        rebuild: bool,
        graph: Graph,
    ) -> Result<ActiveBuild, NoMemory>
        requires { InOrder graph }
        ensures { IfOk result
            (λ build.
            build
            ≡ record {
              tag = tag;
              view = view;
              rows = rows;
              own_only = own_only;
              rebuild = rebuild;
              units = graph;
              comes = [];
              faulted = false;
            }) }
    {
        let comes = slots_for(alloc, graph.units())?;
        let closures = no_closures(alloc, graph.units().len())?;
        Ok(ActiveBuild {
            tag,
            view,
            rows,
            own_only,
            rebuild,
            graph,
            comes,
            closures,
            faulted: false,
            alloc,
        })
    }

    /// The command that builds.
    pub fn tag(&self) -> Tag
        ensures { result ≡ self.now.tag }
    {
        self.tag
    }

    /// The view in which it builds.
    pub fn view(&self) -> &Name
        ensures { result.now ≡ self.now.view }
    {
        &self.view
    }

    /// How many rows, row 0 included, its units see.
    pub fn rows(&self) -> u64
        ensures { result ≡ self.now.rows }
    {
        self.rows
    }

    /// Whether it reuses its own view's objects alone.
    pub(crate) fn own_only(&self) -> bool
        ensures { result ≡ self.now.own_only }
    {
        self.own_only
    }

    /// Whether it reuses no object.
    pub(crate) fn rebuild(&self) -> bool
        ensures { result ≡ self.now.rebuild }
    {
        self.rebuild
    }

    /// The units, in order.
    pub fn units(&self) -> &[Unit]
        ensures { result.now ≡ self.now.units }
    {
        self.graph.units()
    }

    /// The number of the unit that makes a path, if one does, in constant time.
    pub(crate) fn unit_with(&self, path: &Path) -> Option<u32>
        ensures number { result ≡ unit_with self.now path.now }
        ensures within { IfSome result (λ n. n < length self.now.units) }
    {
        self.graph.unit_of(path)
    }

    /// The units that a unit stands on. Takes the time of `Graph::closure`.
    pub(crate) fn needs(&self, alloc: Global, unit: u32) -> Result<Closure, NoMemory>
        requires { unit < length self.now.units }
        ensures { IfOk result (λ closure. AreNeeds self.now unit closure) }
    {
        self.graph.closure(alloc, unit)
    }

    /// The units that a unit stands on whose script was started, if they are kept, in constant time.
    pub(crate) fn kept_needs(&self, unit: u32) -> Option<&Closure>
        ensures { IfSome (option_copied result) (AreNeeds self.now unit) }
    {
        self.closures.get(unit as usize)?.as_ref()
    }

    /// What to keep of the units that a unit stands on, once it has come to this.
    fn needs_to_keep(&self, unit: u32, came: &Came) -> Option<Closure>
        requires { unit < length self.now.units }
        ensures { IfSome result (λ closure. AreNeeds self.now unit closure) }
    {
        match came {
            Came::Started => self.needs(self.alloc, unit).ok(),
            Came::Concluded(_) | Came::Given(_) => None,
        }
    }

    /// The units that make a unit's prerequisites, by their numbers, in the order of these, in constant time.
    pub(crate) fn makers(&self, unit: u32) -> &[u32]
        requires { unit < length self.now.units }
        ensures { result.now ≡ makers_of self.now.units (prerequisites_at self.now.units unit) }
    {
        self.graph.makers(unit)
    }

    /// The units one of whose prerequisites a unit makes, by their numbers, in order and each once, in constant time.
    pub(crate) fn dependants(&self, unit: u32) -> &[u32]
        requires { unit < length self.now.units }
        ensures { result.now ≡ dependants_of self.now.units unit }
    {
        self.graph.dependants(unit)
    }

    /// What a unit has come to, if to anything.
    pub(crate) fn came_to(&self, unit: u32) -> Option<&Came>
        ensures { option_map came_of (option_copied result) ≡ came_to self.now unit }
    {
        self.comes.get(unit as usize)?.as_ref()
    }

    /// Whether a unit has its outcome.
    pub fn has_outcome(&self, unit: u32) -> bool
        ensures { result ≡ is_outcome (came_to self.now unit) }
    {
        matches!(
            self.came_to(unit),
            Some(Came::Concluded(_) | Came::Given(_))
        )
    }

    /// The object that a unit was given or kept.
    pub(crate) fn object_of(&self, unit: u32) -> Option<u64>
        ensures { result ≡ object_of (came_to self.now unit) }
    {
        match self.came_to(unit)? {
            Came::Given(id) => Some(*id),
            Came::Concluded(UnitEnd::Kept(id)) => Some(*id),
            _ => None,
        }
    }

    /// Notes what a unit has come to. Of one that was started it takes what `needs` takes, and fails nowhere: where there is no
    /// memory for that, each read of its script takes it instead.
    pub fn note(&mut self, unit: u32, came: Came)
        requires { unit < length self.old.units }
        ensures { self.new ≡ with_came self.old (Some unit) (came_of came) }
    {
        let needs = self.needs_to_keep(unit, &came);
        self.closures[unit as usize] = needs;
        self.comes[unit as usize] = Some(came);
    }
}
