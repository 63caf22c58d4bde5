//! A site: the operations that it knows, and what it thinks that others know.

ghost use Rattle.std.specs.Prelude.{◌≡◌, [], List, IfOk, IfSome, OnOk, OnErr};
ghost use Rattle.vob_replica.specs.declared.operations.Operation.{Operation};
ghost use Rattle.vob_replica.specs.Estimates.{estimates_of, exported_in, peer_by, IsExported, AreExported};
ghost use Rattle.vob_replica.specs.Logs.{IsWhole};
ghost use Rattle.vob_replica.specs.Needs.{IsSharedBy};
ghost use Rattle.vob_replica.specs.Replicas.{new_site, above, estimate_in, made, imported, packet_for, thinking, gap_fault, AreBranchesOf, Comes};
ghost use Rattle.vob_replica.specs.Tables.{raised_by, table_of};
ghost use Rattle.vob_replica.specs.Trees.{trees_of};
ghost use Rattle.vob_replica.specs.Showing.{show_text};

use crate::branches::Branches;
use crate::changes::{change_fault, operation_of};
use crate::estimates::{Estimate, Peer, peer_for, put_peer, set_peer};
use crate::events::Identity;
use crate::logs::Log;
use crate::operations::{Change, SiteFault};
use crate::packets::Packet;
use crate::shared::Shared;
use crate::showing::show_text;
use crate::tables::Table;
use cc_names::memory::{NoMemory, Or};
use cc_names::names::Name;
use cc_names::texts::Text;
use std::alloc::Global;
use std::marker::Model;
use std::rc::Rc;

/// A site. Contracts see its name, the operations that it knows in the order in which it came to know them, and what it thinks
/// that others know.
#[derive(Drop)]
pub struct Replica {
    name: Name,
    log: Log,
    branches: Branches,
    /// The branches are those of so many operations, the first ones. They are fewer than all where memory ran out.
    taken: usize,
    peers: Vec<Peer>,
    /// A table that the site's next operations share, until a packet is taken in.
    shared: Option<Rc<Table>>,
}

impl Model for Replica {
    ghost use Rattle.std.specs.Prelude.{IfSome};
    ghost use Rattle.vob_replica.specs.Estimates.{estimates_of, AreExported};
    ghost use Rattle.vob_replica.specs.Needs.{IsSharedBy};
    ghost use Rattle.vob_replica.specs.Replicas.{Site, AreBranchesOf};

    ghost Value = { Site };

    ghost view = { λ replica. record {
      name = replica.name;
      known = replica.log;
      estimates =
          estimates_of replica.peers.items;
    } };

    ghost invariant = { λ replica.
        AreBranchesOf replica.branches replica.taken replica.log
        × AreExported replica.log replica.peers.items
        × IfSome replica.shared (λ shared. IsSharedBy replica.name replica.log shared.value) };
}

/// Takes in the operations that the branches lack yet. An `Err` leaves them with some of these.
fn catch_up(
    alloc: Global,
    branches: &mut Branches,
    taken: &mut usize,
    operations: &[Shared],
) -> Result<(), NoMemory>
    requires { AreBranchesOf branches.old taken.old operations.now }
    ensures kept { AreBranchesOf branches.new taken.new operations.now }
    ensures all { OnOk result (branches.new ≡ trees_of operations.now) }
{
    'taking: while *taken < operations.len() {
        branches.take_operation(alloc, &operations[*taken])?;
        *taken += 1;
    }
    Ok(())
}

/// Those of the operations of a log that an estimate does not hold.
fn news_for(alloc: Global, log: &Log, peers: &[Peer], to: &Name) -> Result<Vec<Shared>, NoMemory>
    requires { AreExported log.now peers.now }
    ensures above { IfOk result
        (λ news. news.items ≡ above (estimate_in (estimates_of peers.now) to.now) log.now) }
    ensures whole { IfOk result
        (λ news. IsWhole (estimate_in (estimates_of peers.now) to.now) news.items) }
{
    match peer_for(peers, to) {
        Some(peer) => log.above(alloc, peer.exported, &peer.estimate.table),
        None => log.above(alloc, 0, &Table::new(alloc)),
    }
}

/// What is thought that a site knows, as a table of its own.
fn estimate_of(alloc: Global, peers: &[Peer], site: &Name) -> Result<Table, NoMemory>
    ensures { IfOk result (λ table. table ≡ estimate_in (estimates_of peers.now) site.now) }
{
    match peer_for(peers, site) {
        Some(peer) => peer.estimate.table.copy(alloc),
        None => Ok(Table::new(alloc)),
    }
}

/// How many operations of the log were exported to a site.
fn exported_to(peers: &[Peer], site: &Name) -> usize
    ensures { result ≡ exported_in peers.now site.now }
{
    match peer_for(peers, site) {
        Some(peer) => peer.exported,
        None => 0,
    }
}

/// The table that the next operations of a site share as their needs. Where there is none yet, takes time and memory linear in the
/// sites.
fn shared_table(
    alloc: Global,
    name: &Name,
    log: &Log,
    shared: &Option<Rc<Table>>,
) -> Result<Rc<Table>, NoMemory>
    requires { IfSome shared.now (λ shared. IsSharedBy name.now log.now shared.value) }
    ensures { IfOk result (λ shared. IsSharedBy name.now log.now shared.value) }
{
    if let Some(shared) = shared {
        return Ok(shared.clone()?);
    }
    let table = log.table().copy(alloc)?;
    Ok(Rc::new(alloc, table)?)
}

/// A peer of which is thought what is thought of a site, and that it knows what a table holds too.
fn raised_peer(alloc: Global, peers: &[Peer], site: &Name, table: &Table) -> Result<Peer, NoMemory>
    ensures peer { IfOk result
        (λ peer. peer
        ≡ peer_by site.now
        (raised_by (estimate_in (estimates_of peers.now) site.now) table.now)
        (exported_in peers.now site.now)) }
    ensures exported { (known : List Operation) → AreExported known peers.now
        → IfOk result (λ peer. IsExported known peer.estimate.table peer.exported) }
{
    let mut table_raised = estimate_of(alloc, peers, site)?;
    table_raised.raise_all(alloc, table.entries())?;
    let exported = exported_to(peers, site);
    let site = site.copy(alloc)?;
    let estimate = Estimate {
        site,
        table: table_raised,
    };
    Ok(Peer { estimate, exported })
}

/// The fault of a packet that was not added.
fn gap_fault(fault: Or<Identity>) -> Or<SiteFault>
    ensures { result ≡ gap_fault fault }
{
    match fault {
        Or::NoMemory => Or::NoMemory,
        Or::Is(missing) => Or::Is(SiteFault::Gap(missing)),
    }
}

impl Replica {
    /// A site that knows nothing. Takes no memory.
    pub fn new(alloc: Global, name: Name) -> Replica
        ensures { result ≡ new_site name }
    {
        Replica {
            name,
            log: Log::new(alloc),
            branches: Branches::new(alloc),
            taken: 0,
            peers: Vec::new(alloc),
            shared: None,
        }
    }

    /// Its name.
    pub fn name(&self) -> &Name
        ensures { result.now ≡ self.now.name }
    {
        &self.name
    }

    /// Makes a change, and answers the operation by which it did. An `Err` changes nothing. Takes time logarithmic in the branches
    /// and in the sites; the first change after a packet was taken in also time and memory linear in the sites.
    pub fn make(&mut self, alloc: Global, change: &Change) -> Result<Identity, Or<SiteFault>>
        ensures { Comes result self.old self.new (made self.old change.now) }
    {
        catch_up(
            alloc,
            &mut self.branches,
            &mut self.taken,
            self.log.operations(),
        )?;
        if let Some(fault) = change_fault(alloc, &self.name, &self.branches, change)? {
            return Err(Or::Is(fault));
        }
        let shared = shared_table(alloc, &self.name, &self.log, &self.shared)?;
        let next = shared.clone()?;
        let operation = operation_of(alloc, &self.name, &self.log, shared, &self.branches, change)?;
        let identity = operation.operation().identity.copy(alloc)?;
        self.log.push(alloc, operation)?;
        self.shared = Some(next);
        // Without memory the branches lack the change until the next call.
        let _caught_up = catch_up(
            alloc,
            &mut self.branches,
            &mut self.taken,
            self.log.operations(),
        );
        Ok(identity)
    }

    /// A packet for another site, with what that is not thought to know, which it is thought to know from then on. An `Err`
    /// changes nothing. Takes time linear in the sites and in the operations that were not exported to the site. Each of these
    /// whose site is not that of the one before takes time logarithmic in the sites.
    pub fn export(&mut self, alloc: Global, to: &Name) -> Result<Packet, NoMemory>
        ensures packet { IfOk result (λ packet. packet ≡ packet_for self.old to.now) }
        ensures ok { OnOk result (self.new ≡ thinking self.old to.now (table_of self.old.known)) }
        ensures err { OnErr result (self.new ≡ self.old) }
    {
        let operations = news_for(alloc, &self.log, &self.peers, to)?;
        let floor = estimate_of(alloc, &self.peers, to)?;
        let sender = self.name.copy(alloc)?;
        let table = self.log.table().copy(alloc)?;
        let estimate = self.log.table().copy(alloc)?;
        let exported = self.log.operations().len();
        set_peer(alloc, &mut self.peers, to, estimate, exported)?;
        Ok(Packet::new(sender, operations, table, floor))
    }

    /// Takes in the operations of a packet that are not known yet, and answers how many; or answers the first operation that is
    /// missing. An `Err` changes nothing. Takes time linear in the operations, and for each site of the packet's table time
    /// logarithmic in the sites. An operation whose site is not that of the one before takes time logarithmic in the sites, and a
    /// new one time logarithmic in the branches. Where the packet's floor is not known, each new one takes the time of
    /// `Table::first_gap`.
    pub fn import(&mut self, alloc: Global, packet: &Packet) -> Result<u64, Or<SiteFault>>
        ensures { Comes result self.old self.new (imported self.old packet.now) }
    {
        let peer = raised_peer(alloc, &self.peers, packet.sender(), packet.table())?;
        self.peers.reserve(1)?;
        self.shared = None;
        let count = match self
            .log
            .import_operations(alloc, packet.floor(), packet.operations())
        {
            Ok(count) => count,
            Err(fault) => return Err(gap_fault(fault)),
        };
        put_peer(&mut self.peers, peer);
        // Without memory the branches lack the last operations until the next call.
        let _caught_up = catch_up(
            alloc,
            &mut self.branches,
            &mut self.taken,
            self.log.operations(),
        );
        Ok(count)
    }

    /// Forgets what it thinks that another site knows. An `Err` changes nothing.
    pub fn recover(&mut self, alloc: Global, to: &Name) -> Result<(), NoMemory>
        ensures ok { OnOk result (self.new ≡ thinking self.old to.now []) }
        ensures err { OnErr result (self.new ≡ self.old) }
    {
        set_peer(alloc, &mut self.peers, to, Table::new(alloc), 0)
    }

    /// What it knows, as lines. Takes time linear in the text. It is an `Err` too while the branches lack operations.
    pub fn show(&self, alloc: Global) -> Result<Text, NoMemory>
        ensures { IfOk result (λ text. text ≡ show_text self.now) }
    {
        if self.taken < self.log.operations().len() {
            return Err(NoMemory);
        }
        show_text(alloc, self.log.table(), &self.branches)
    }
}
