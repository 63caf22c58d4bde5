//! One branch as a site knows it.

ghost use Rattle.std.specs.List.{list_any};
ghost use Rattle.std.specs.Prelude.{◌≡◌, ◌==◌, ◌≤◌, [], length, IfOk, OnOk, OnErr};
ghost use Rattle.vob_replica.specs.Branches.{branch_made_by, name_in, word_in, version_by, version_place, is_up_to, is_number_below, count_passing, has_number_at, with_master, with_version_by, AreByNumber};
ghost use Rattle.vob_replica.specs.Trees.{given_to, master_of, next_number, has_version};

use crate::events::Identity;
use crate::masters::Masters;
use crate::operations::SiteDeed;
use crate::shared::Shared;
use cc_names::memory::NoMemory;
use cc_names::names::Name;
use std::alloc::Global;
use std::marker::Model;

/// The name of the branch that a deed made.
pub(crate) fn name_in(deed: &SiteDeed) -> &[u8]
    ensures { result.now ≡ name_in deed.now }
{
    match deed {
        SiteDeed::Element => b"main".as_slice(),
        SiteDeed::Branch(_, _, name) => name.as_bytes(),
        _ => b"".as_slice(),
    }
}

/// The word of the version that a deed made.
fn word_in(deed: &SiteDeed) -> &[u8]
    ensures { result.now ≡ word_in deed.now }
{
    match deed {
        SiteDeed::Version(_, _, word) => word.as_bytes(),
        _ => b"".as_slice(),
    }
}

/// A version after version 0.
#[derive(Drop)]
pub struct Version {
    number: u64,
    made: Shared,
}

impl Model for Version {
    ghost use Rattle.vob_replica.specs.Trees.{VersionMade};
    ghost use Rattle.vob_replica.specs.Branches.{version_by};

    ghost Value = { VersionMade };

    ghost view = { λ version. version_by version.number version.made };
}

impl Version {
    /// The version of this number that an operation made.
    fn new(number: u64, made: Shared) -> Version
        ensures { result ≡ version_by number made }
    {
        Version { number, made }
    }

    /// Its number.
    pub fn number(&self) -> u64
        ensures { result ≡ self.now.number }
    {
        self.number
    }

    /// The operation that made it.
    pub fn identity(&self) -> &Identity
        ensures { result.now ≡ self.now.identity }
    {
        &self.made.operation().identity
    }

    /// Its text, of one word.
    pub fn word(&self) -> &[u8]
        ensures { result.now ≡ self.now.word }
    {
        word_in(&self.made.operation().deed)
    }
}

fn is_up_to(version: &Version, number: u64) -> bool
    ensures { result ≡ is_up_to number version.now }
{
    version.number() <= number
}

/// How many versions stand before the first one of a greater number. Takes time logarithmic in them.
fn first_above(versions: &[Version], number: u64) -> usize
    requires { AreByNumber versions.now }
    ensures place { result ≡ version_place number versions.now }
    ensures within { result ≤ length versions.now }
{
    versions.partition_point(|version| is_up_to(version, number))
}

/// How many versions stand before a new one of this number. Takes constant time where it is the greatest, else time logarithmic
/// in the versions.
fn version_place(versions: &[Version], number: u64) -> usize
    requires { AreByNumber versions.now }
    ensures place { result ≡ version_place number versions.now }
    ensures within { result ≤ length versions.now }
{
    match versions.last() {
        Some(last) if number < last.number() => first_above(versions, number),
        _ => versions.len(),
    }
}

fn is_number_below(version: &Version, number: u64) -> bool
    ensures { result ≡ is_number_below number version.now }
{
    version.number() < number
}

/// How many versions have a lower number: these are the first ones. Takes time logarithmic in the versions.
fn number_place(versions: &[Version], number: u64) -> usize
    requires { AreByNumber versions.now }
    ensures { result ≡ count_passing (is_number_below number) versions.now }
{
    versions.partition_point(|version| is_number_below(version, number))
}

/// Whether the version at a place has a number.
fn has_number_at(versions: &[Version], place: usize, number: u64) -> bool
    ensures { result ≡ has_number_at versions.now place number }
{
    match versions.get(place) {
        Some(version) => version.number() == number,
        None => false,
    }
}

/// Whether one of some versions has a number. Takes time logarithmic in them.
fn has_version_number(versions: &[Version], number: u64) -> bool
    requires { AreByNumber versions.now }
    ensures { result ≡ list_any (λ version. version.number == number) versions.now }
{
    let place = number_place(versions, number);
    has_number_at(versions, place, number)
}

/// The site that a deed gives the mastership to, where it gives it away.
fn given_to<'a>(deed: &'a SiteDeed, maker: &'a Name) -> &'a Name
    ensures { result.now ≡ given_to deed.now maker.now }
{
    match deed {
        SiteDeed::Master(_, site) => site,
        _ => maker,
    }
}

/// A branch of an element. Contracts see its identity, the element, its name, the operations that gave its mastership away, and
/// its versions after version 0.
#[derive(Drop)]
pub struct Branch {
    made: Shared,
    element: Identity,
    masters: Masters,
    versions: Vec<Version>,
}

impl Model for Branch {
    ghost use Rattle.vob_replica.specs.Trees.{Tree};
    ghost use Rattle.vob_replica.specs.Branches.{branch_made_by, AreByNumber};

    ghost Value = { Tree };

    ghost view = { λ branch. branch_made_by branch.made branch.element branch.masters
        branch.versions.items };

    ghost invariant = { λ branch. AreByNumber branch.versions.items };
}

impl Branch {
    /// The branch of an element that an operation made, with version 0 alone. Takes no memory.
    pub(crate) fn new(alloc: Global, made: Shared, element: Identity) -> Branch
        ensures { result ≡ branch_made_by made element [] [] }
    {
        Branch {
            made,
            element,
            masters: Masters::new(alloc),
            versions: Vec::new(alloc),
        }
    }

    /// The operation that made it; of the branch `main` the one that made the element.
    pub fn identity(&self) -> &Identity
        ensures { result.now ≡ self.now.identity }
    {
        &self.made.operation().identity
    }

    /// The element.
    pub fn element(&self) -> &Identity
        ensures { result.now ≡ self.now.element }
    {
        &self.element
    }

    /// The name.
    pub fn name(&self) -> &[u8]
        ensures { result.now ≡ self.now.name }
    {
        name_in(&self.made.operation().deed)
    }

    /// The operation that made it, shared once more.
    pub(crate) fn made(&self) -> Result<Shared, NoMemory>
        ensures { IfOk result (λ made. made.identity ≡ self.now.identity) }
    {
        self.made.copy()
    }

    /// The versions after version 0, by number.
    pub fn versions(&self) -> &[Version]
        ensures { result.now ≡ self.now.versions }
    {
        self.versions.as_slice()
    }

    /// The site that has the mastership. Takes the time of `Masters::last`: constant at all sites of a world.
    pub fn master(&self) -> &Name
        ensures { result.now ≡ master_of self.now }
    {
        let maker = &self.identity().site;
        match self.masters.last() {
            Some(last) => given_to(&last.deed, maker),
            None => maker,
        }
    }

    /// The number of the next version. Takes constant time.
    pub fn next_number(&self) -> u64
        ensures { result ≡ next_number self.now }
    {
        self.versions.len() as u64 + 1
    }

    /// Whether it has a version of this number. Takes time logarithmic in the versions.
    pub fn has_version(&self, number: u64) -> bool
        ensures { result ≡ has_version self.now number }
    {
        number == 0 || has_version_number(&self.versions, number)
    }

    /// Puts one operation more after those that gave the mastership away. Takes the time of `Masters::push`.
    pub(crate) fn push_master(&mut self, operation: Shared) -> Result<(), NoMemory>
        ensures ok { OnOk result (self.new ≡ with_master self.old operation) }
        ensures err { OnErr result (self.new ≡ self.old) }
    {
        self.masters.push(operation)
    }

    /// Puts the version of a number that an operation made among its versions. Takes constant time where it is the greatest, else
    /// time logarithmic in the versions and a move of those after it.
    pub(crate) fn put_version(&mut self, number: u64, made: Shared) -> Result<(), NoMemory>
        ensures ok { OnOk result (self.new ≡ with_version_by self.old number made) }
        ensures err { OnErr result (self.new ≡ self.old) }
    {
        let place = version_place(&self.versions, number);
        self.versions.insert(place, Version::new(number, made))?;
        Ok(())
    }
}
