//! What operations need.

ghost use Rattle.std.specs.Prelude.{◌≡◌, is_none, IfOk};
ghost use Rattle.vob_replica.specs.Needs.{needs_of};
ghost use Rattle.vob_replica.specs.Tables.{first_gap, holds, number_in, with_operation};

use crate::events::Identity;
use crate::tables::Table;
use cc_names::memory::NoMemory;
use cc_names::names::Name;
use std::alloc::Global;
use std::marker::Model;
use std::rc::Rc;

/// What an operation needs: the epoch table of its maker before it. That is a table which the maker's operations share, with the
/// one before this taken in. Contracts see the whole table.
#[derive(Drop)]
pub struct Needs {
    shared: Rc<Table>,
    own: Option<Identity>,
}

impl Model for Needs {
    ghost use Rattle.std.specs.Prelude.{List};
    ghost use Rattle.vob_replica.specs.declared.events.Identity.{Identity};

    ghost Value = { List Identity };

    ghost use Rattle.vob_replica.specs.Needs.{needs_of};

    ghost view = { λ needs. needs_of needs.shared.value needs.own };
}

/// The number of a site in a table that an operation is taken into. Takes time logarithmic in the sites.
fn number_with(table: &Table, own: &Identity, site: &Name) -> u64
    ensures { result ≡ number_in (with_operation table.now own.now) site.now }
{
    table.is_in_order();
    let number = table.number(site);
    if own.site == *site {
        return number.max(own.number);
    }
    number
}

/// A copy of a table that an operation is taken into. Takes time linear in the sites.
fn copy_with(alloc: Global, table: &Table, own: &Identity) -> Result<Table, NoMemory>
    ensures { IfOk result (λ copy. copy ≡ with_operation table.now own.now) }
{
    let mut copy = table.copy(alloc)?;
    copy.raise(alloc, own)?;
    Ok(copy)
}

impl Needs {
    /// What a table holds, with an operation taken in. Takes no memory.
    pub(crate) fn new(shared: Rc<Table>, own: Option<Identity>) -> Needs
        ensures { result ≡ needs_of shared.value own }
    {
        Needs { shared, own }
    }

    /// The number of a site. Takes time logarithmic in the sites.
    fn number(&self, site: &Name) -> u64
        ensures { result ≡ number_in self.now site.now }
    {
        match &self.own {
            None => self.shared.number(site),
            Some(own) => number_with(&self.shared, own, site),
        }
    }

    /// Whether an operation is needed. Takes time logarithmic in the sites.
    pub fn holds(&self, identity: &Identity) -> bool
        ensures { result ≡ holds self.now identity.now }
    {
        identity.number > 0 && identity.number <= self.number(&identity.site)
    }

    /// Whether all operations of a table are needed.
    fn covers_all(&self, entries: &[Identity]) -> bool
        ensures { result ≡ is_none (first_gap entries.now self.now) }
    {
        for entry in entries {
            if self.number(&entry.site) < entry.number {
                return false;
            }
        }
        true
    }

    /// Whether all operations of a table that an operation is taken into are needed.
    fn covers_with(&self, table: &Table, own: &Identity) -> bool
        ensures { result ≡ is_none (first_gap (with_operation table.now own.now) self.now) }
    {
        let needed = self.number(&own.site);
        if needed < own.number {
            return false;
        }
        self.covers_all(table.entries())
    }

    /// Whether all is needed that others need. Takes time linear in the sites, and logarithmic for each.
    pub(crate) fn covers(&self, others: &Needs) -> bool
        ensures { result ≡ is_none (first_gap others.now self.now) }
    {
        match &others.own {
            None => self.covers_all(others.shared.entries()),
            Some(own) => self.covers_with(&others.shared, own),
        }
    }

    /// A table of its own. Takes time and memory linear in the sites.
    pub fn table(&self, alloc: Global) -> Result<Table, NoMemory>
        ensures { IfOk result (λ table. table ≡ self.now) }
    {
        match &self.own {
            None => self.shared.copy(alloc),
            Some(own) => copy_with(alloc, &self.shared, own),
        }
    }
}
