//! All sites, and all packets.

ghost use Rattle.std.specs.Prelude.{◌≡◌, ◌≤◌, ◌<◌, ◌++◌, ◌∷◌, [], None, length, vec_len, slice_index_or, slice_set, option_copied, is_some, IfOk, OnOk, IfSome, IfNone};
ghost use Rattle.std.specs.Fmt.{decimal};
ghost use Rattle.vob_replica.specs.Replicas.{Site, Packet, made, imported, packet_for, thinking};
ghost use Rattle.vob_replica.specs.Showing.{show_text};
ghost use Rattle.vob_replica.specs.Sites.{place_in, sents_of, identity_answer, number_answer, IsRefusal};
ghost use Rattle.vob_replica.specs.Tables.{table_of};
ghost use Rattle.vob_replica.specs.World.{no_sites, site_in, packet_in, makes, site_step, export_step, import_step, recover_step, show_step, chmaster_step, step};
ghost use Rattle.vob_replica.specs.declared.operations.Answer.TheVariants as answers;
ghost use Rattle.vob_replica.specs.declared.operations.Change.TheVariants as changes;
ghost use Rattle.vob_replica.specs.declared.operations.SiteFault.TheVariants as faults;

use crate::events::{Event, Identity};
use crate::operations::{Answer, Change, SiteFault};
use crate::packets::Packet;
use crate::replicas::Replica;
use crate::showing::{identity_text, number_text};
use cc_names::memory::{NoMemory, Or};
use cc_names::names::Name;
use cc_names::texts::Text;
use indexmap::IndexMap;
use std::alloc::Global;
use std::hash::RandomState;
use std::marker::Model;

/// Packets by their names, in the order in which they were made.
type Packets = IndexMap<Name, Packet, RandomState>;

/// All sites, and all packets. Contracts see them as a world.
#[derive(Drop)]
pub struct Sites {
    sites: Vec<Replica>,
    packets: Packets,
}

impl Model for Sites {
    ghost use Rattle.vob_replica.specs.Sites.{sents_of};
    ghost use Rattle.vob_replica.specs.World.{World};

    ghost Value = { World };

    ghost view = { λ all. record { sites = all.sites.items; packets = sents_of all.packets.entries } };
}

/// How many sites stand before the one of a name.
fn place_of(sites: &[Replica], name: &Name) -> usize
    ensures place { result ≡ place_in name.now sites.now }
    ensures within { result ≤ length sites.now }
{
    let mut place = 0;
    for site in sites {
        if *site.name() == *name {
            break;
        }
        place += 1;
    }
    place
}

/// The place of the site of a name.
fn find(sites: &[Replica], name: &Name) -> Option<usize>
    ensures place { IfSome result (λ place. place ≡ place_in name.now sites.now) }
    ensures within { IfSome result (λ place. place < length sites.now) }
    ensures none { IfNone result (site_in sites.now name.now ≡ None) }
{
    let place = place_of(sites, name);
    if place < sites.len() {
        Some(place)
    } else {
        None
    }
}

/// The answer where there is no site of a name.
fn no_site(alloc: Global, name: &Name) -> Result<Answer, NoMemory>
    ensures { IfOk result (λ answer. answer ≡ answers.Refused (faults.NoSite name.now)) }
{
    let name = name.copy(alloc)?;
    Ok(Answer::Refused(SiteFault::NoSite(name)))
}

/// The packet of a name. Takes time linear in the name.
fn packet_in<'a>(packets: &'a Packets, name: &Name) -> Option<&'a Packet>
    ensures { option_copied result ≡ packet_in (sents_of packets.now.entries) name.now }
{
    packets.get(name)
}

/// Puts a packet of a new name after the others.
fn add_packet(packets: &mut Packets, name: Name, packet: Packet) -> Result<(), NoMemory>
    requires { packet_in (sents_of packets.old.entries) name ≡ None }
    ensures { OnOk result
        (sents_of packets.new.entries
        ≡ sents_of packets.old.entries ++ record { name = name; packet = packet } ∷ []) }
{
    packets.insert(name, packet)?;
    Ok(())
}

/// The answer of a call that was refused.
fn refused(fault: Or<SiteFault>) -> Result<Answer, NoMemory>
    ensures { IfOk result (IsRefusal fault) }
{
    match fault {
        Or::Is(fault) => Ok(Answer::Refused(fault)),
        Or::NoMemory => Err(NoMemory),
    }
}

/// The site at a place makes a change.
fn make_at(
    alloc: Global,
    sites: &mut Vec<Replica>,
    place: usize,
    change: &Change,
) -> Result<Answer, NoMemory>
    requires { place < vec_len sites.old }
    ensures answer { IfOk result
        (λ answer. (d : Site)
        → answer ≡ identity_answer (made (slice_index_or sites.old.items place d) change.now).0) }
    ensures sites { OnOk result
        ((d : Site) → sites.new.items
        ≡ slice_set sites.old.items place
        (made (slice_index_or sites.old.items place d) change.now).1) }
{
    match sites[place].make(alloc, change) {
        Ok(identity) => Ok(Answer::Done(identity_text(alloc, &identity)?)),
        Err(fault) => refused(fault),
    }
}

/// The site at a place takes a packet in.
fn import_at(
    alloc: Global,
    sites: &mut Vec<Replica>,
    place: usize,
    packet: &Packet,
) -> Result<Answer, NoMemory>
    requires { place < vec_len sites.old }
    ensures answer { IfOk result
        (λ answer. (d : Site)
        → answer ≡ number_answer (imported (slice_index_or sites.old.items place d) packet.now).0) }
    ensures sites { OnOk result
        ((d : Site) → sites.new.items
        ≡ slice_set sites.old.items place
        (imported (slice_index_or sites.old.items place d) packet.now).1) }
{
    match sites[place].import(alloc, packet) {
        Ok(count) => Ok(Answer::Done(number_text(alloc, count)?)),
        Err(fault) => refused(fault),
    }
}

/// The site at a place makes a packet for another.
fn export_at(
    alloc: Global,
    sites: &mut Vec<Replica>,
    place: usize,
    to: &Name,
) -> Result<Packet, NoMemory>
    requires { place < vec_len sites.old }
    ensures packet { IfOk result
        (λ packet. (d : Site)
        → packet ≡ packet_for (slice_index_or sites.old.items place d) to.now) }
    ensures sites { OnOk result
        ((d : Site) → sites.new.items
        ≡ slice_set sites.old.items place
        (thinking (slice_index_or sites.old.items place d) to.now
        (table_of (slice_index_or sites.old.items place d).known))) }
{
    sites[place].export(alloc, to)
}

/// The site at a place forgets what it thinks that another knows.
fn recover_at(
    alloc: Global,
    sites: &mut Vec<Replica>,
    place: usize,
    to: &Name,
) -> Result<(), NoMemory>
    requires { place < vec_len sites.old }
    ensures { OnOk result
        ((d : Site) → sites.new.items
        ≡ slice_set sites.old.items place
        (thinking (slice_index_or sites.old.items place d) to.now [])) }
{
    sites[place].recover(alloc, to)
}

/// What the site at a place knows, as lines.
fn show_at(alloc: Global, sites: &[Replica], place: usize) -> Result<Text, NoMemory>
    requires { place < length sites.now }
    ensures { IfOk result
        (λ text. (d : Site) → text ≡ show_text (slice_index_or sites.now place d)) }
{
    sites[place].show(alloc)
}

/// The site at a place makes a packet for another, which is kept by its name. Answers how many operations it carries.
fn send(
    alloc: Global,
    all: &mut Sites,
    place: usize,
    to: &Name,
    name: &Name,
) -> Result<Text, NoMemory>
    requires place { place < length all.old.sites }
    requires new { packet_in all.old.packets name.now ≡ None }
    ensures count { IfOk result
        (λ count. (d : Site)
        → count
        ≡ decimal (length (packet_for (slice_index_or all.old.sites place d) to.now).operations)) }
    ensures sites { OnOk result
        ((d : Site) → all.new.sites
        ≡ slice_set all.old.sites place
        (thinking (slice_index_or all.old.sites place d) to.now
        (table_of (slice_index_or all.old.sites place d).known))) }
    ensures packets { OnOk result
        ((d : Site) → all.new.packets
        ≡ all.old.packets
        ++ record {
          name = name.now;
          packet = packet_for (slice_index_or all.old.sites place d) to.now;
        } ∷ []) }
{
    let packet = export_at(alloc, &mut all.sites, place, to)?;
    let count = number_text(alloc, packet.operations().len() as u64)?;
    let name = name.copy(alloc)?;
    add_packet(&mut all.packets, name, packet)?;
    Ok(count)
}

impl Sites {
    /// A world without sites. Takes no memory.
    pub fn new(alloc: Global, hashing: RandomState) -> Sites
        ensures { result ≡ no_sites }
    {
        Sites {
            sites: Vec::new(alloc),
            packets: IndexMap::with_hasher(alloc, hashing),
        }
    }

    /// `site S`
    fn add_site(&mut self, alloc: Global, name: &Name) -> Result<Answer, NoMemory>
        ensures { IfOk result
            (λ answer. site_step self.old name.now ≡ record { world = self.new; answer = answer }) }
    {
        if find(&self.sites, name).is_some() {
            let name = name.copy(alloc)?;
            return Ok(Answer::Refused(SiteFault::SiteExists(name)));
        }
        if self.sites.len() > 63 {
            return Ok(Answer::Refused(SiteFault::TooManySites));
        }
        let site = Replica::new(alloc, name.copy(alloc)?);
        self.sites.push(site)?;
        Ok(Answer::Done(Text::of(Vec::new(alloc))))
    }

    /// A site makes a change.
    fn make(&mut self, alloc: Global, name: &Name, change: &Change) -> Result<Answer, NoMemory>
        ensures { IfOk result
            (λ answer. makes self.old name.now change.now
            ≡ record { world = self.new; answer = answer }) }
    {
        match find(&self.sites, name) {
            None => no_site(alloc, name),
            Some(place) => make_at(alloc, &mut self.sites, place, change),
        }
    }

    /// `chmaster S ID T`
    fn change_master(
        &mut self,
        alloc: Global,
        name: &Name,
        branch: &Identity,
        to: &Name,
    ) -> Result<Answer, NoMemory>
        ensures { IfOk result
            (λ answer. chmaster_step self.old name.now branch.now to.now
            ≡ record { world = self.new; answer = answer }) }
    {
        if find(&self.sites, name).is_none() {
            return no_site(alloc, name);
        }
        if find(&self.sites, to).is_none() {
            return no_site(alloc, to);
        }
        let branch = branch.copy(alloc)?;
        let to = to.copy(alloc)?;
        self.make(alloc, name, &Change::Master(branch, to))
    }

    /// `export S T P`
    fn export(
        &mut self,
        alloc: Global,
        name: &Name,
        to: &Name,
        packet: &Name,
    ) -> Result<Answer, NoMemory>
        ensures { IfOk result
            (λ answer. export_step self.old name.now to.now packet.now
            ≡ record { world = self.new; answer = answer }) }
    {
        let Some(place) = find(&self.sites, name) else {
            return no_site(alloc, name);
        };
        if find(&self.sites, to).is_none() {
            return no_site(alloc, to);
        }
        if packet_in(&self.packets, packet).is_some() {
            let packet = packet.copy(alloc)?;
            return Ok(Answer::Refused(SiteFault::PacketExists(packet)));
        }
        Ok(Answer::Done(send(alloc, self, place, to, packet)?))
    }

    /// `import S P`
    fn import(&mut self, alloc: Global, name: &Name, packet: &Name) -> Result<Answer, NoMemory>
        ensures { IfOk result
            (λ answer. import_step self.old name.now packet.now
            ≡ record { world = self.new; answer = answer }) }
    {
        let Some(place) = find(&self.sites, name) else {
            return no_site(alloc, name);
        };
        match packet_in(&self.packets, packet) {
            None => {
                let packet = packet.copy(alloc)?;
                Ok(Answer::Refused(SiteFault::NoPacket(packet)))
            }
            Some(contents) => import_at(alloc, &mut self.sites, place, contents),
        }
    }

    /// `recover S T`
    fn recover(&mut self, alloc: Global, name: &Name, to: &Name) -> Result<Answer, NoMemory>
        ensures { IfOk result
            (λ answer. recover_step self.old name.now to.now
            ≡ record { world = self.new; answer = answer }) }
    {
        let Some(place) = find(&self.sites, name) else {
            return no_site(alloc, name);
        };
        if find(&self.sites, to).is_none() {
            return no_site(alloc, to);
        }
        recover_at(alloc, &mut self.sites, place, to)?;
        Ok(Answer::Done(Text::of(Vec::new(alloc))))
    }

    /// `show S`
    fn show(&self, alloc: Global, name: &Name) -> Result<Answer, NoMemory>
        ensures { IfOk result
            (λ answer. show_step self.now name.now ≡ record { world = self.now; answer = answer }) }
    {
        match find(&self.sites, name) {
            None => no_site(alloc, name),
            Some(place) => Ok(Answer::Done(show_at(alloc, &self.sites, place)?)),
        }
    }

    /// `mkbranch S ID N B`
    fn make_branch(
        &mut self,
        alloc: Global,
        site: &Name,
        branch: &Identity,
        number: u64,
        name: &Name,
    ) -> Result<Answer, NoMemory>
        ensures { IfOk result
            (λ answer. makes self.old site.now (changes.Branch branch.now number name.now)
            ≡ record { world = self.new; answer = answer }) }
    {
        let branch = branch.copy(alloc)?;
        let name = name.copy(alloc)?;
        self.make(alloc, site, &Change::Branch(branch, number, name))
    }

    /// `checkin S ID WORD`
    fn check_in(
        &mut self,
        alloc: Global,
        site: &Name,
        branch: &Identity,
        word: &Text,
    ) -> Result<Answer, NoMemory>
        ensures { IfOk result
            (λ answer. makes self.old site.now (changes.Version branch.now word.now)
            ≡ record { world = self.new; answer = answer }) }
    {
        let branch = branch.copy(alloc)?;
        let word = word.copy(alloc)?;
        self.make(alloc, site, &Change::Version(branch, word))
    }

    /// Lets an event happen: by the calls of one site, which hands on nothing but packets. Answers what it comes to. An `Err`
    /// leaves some world. Sites are found among at most 64; a packet in time linear in its name.
    pub fn step(&mut self, alloc: Global, event: &Event) -> Result<Answer, NoMemory>
        ensures { IfOk result
            (λ answer. step self.old event.now ≡ record { world = self.new; answer = answer }) }
    {
        match event {
            Event::Site { site } => self.add_site(alloc, site),
            Event::Mkelem { site } => self.make(alloc, site, &Change::Element),
            Event::Mkbranch {
                site,
                branch,
                number,
                name,
            } => self.make_branch(alloc, site, branch, *number, name),
            Event::Checkin { site, branch, word } => self.check_in(alloc, site, branch, word),
            Event::Chmaster { site, branch, to } => self.change_master(alloc, site, branch, to),
            Event::Export { site, to, packet } => self.export(alloc, site, to, packet),
            Event::Import { site, packet } => self.import(alloc, site, packet),
            Event::Recover { site, to } => self.recover(alloc, site, to),
            Event::Show { site } => self.show(alloc, site),
        }
    }
}
