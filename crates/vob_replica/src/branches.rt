//! The branches that a site knows.

ghost use Rattle.std.specs.Prelude.{◌≡◌, [], ◌&&◌, bytes_eq, option_copied, IfOk, IfSome, OnOk, OnErr};
ghost use Rattle.std.specs.Map.{values_of};
ghost use Rattle.vob_replica.specs.BranchNames.{is_named, AreNamesOf};
ghost use Rattle.vob_replica.specs.Branches.{with_master, with_version_by, AreKeyed, AreKept};
ghost use Rattle.vob_replica.specs.Trees.{Tree, tree_at, named_tree, element_of_branch, with_tree, with_branch_changed, after_operation};

use crate::branch::Branch;
use crate::branch_names::{BranchNames, branch_told, put_name};
use crate::events::{Identity, is_same_identity};
use crate::operations::SiteDeed;
use crate::shared::Shared;
use cc_names::memory::NoMemory;
use cc_names::names::Name;
use std::alloc::Global;
use std::collections::BTreeMap;
use std::collections::btree_map::Values;
use std::marker::Model;

/// Branches by their identities.
type BranchMap = BTreeMap<Identity, Branch>;

/// The branches that a site knows. Contracts see them by identity, each once.
#[derive(Drop)]
pub struct Branches {
    branches: BranchMap,
    /// The branches by element and name. There are none where a branch took the place of another, or has the name of another of
    /// its element, as at no site of a world; or where memory ran out.
    names: Option<BranchNames>,
}

impl Model for Branches {
    ghost use Rattle.std.specs.Prelude.{List, IfSome};
    ghost use Rattle.std.specs.Map.{values_of};
    ghost use Rattle.vob_replica.specs.BranchNames.{AreNamesOf};
    ghost use Rattle.vob_replica.specs.Branches.{AreKept};
    ghost use Rattle.vob_replica.specs.Trees.{Tree};

    ghost Value = { List Tree };

    ghost view = { λ branches. values_of branches.branches.entries };

    ghost invariant = { λ branches.
        AreKept branches.branches.entries
        × IfSome branches.names
        (λ names. AreNamesOf names (values_of branches.branches.entries)) };
}

/// The branch of an identity. Takes time logarithmic in the branches.
fn find_in<'a>(branches: &'a BranchMap, identity: &Identity) -> Option<&'a Branch>
    requires { AreKeyed branches.now.entries }
    ensures { option_copied result ≡ tree_at (values_of branches.now.entries) identity.now }
{
    branches.get(identity)
}

/// Puts the name of a branch that is to be put among others. No names are kept on where a branch has its identity.
fn put_name_of(
    alloc: Global,
    branches: &BranchMap,
    names: &mut Option<BranchNames>,
    tree: &Branch,
) -> Result<(), NoMemory>
    requires kept { AreKept branches.now.entries }
    requires names { IfSome names.old
        (λ names. AreNamesOf names (values_of branches.now.entries)) }
    ensures ok { OnOk result
        (IfSome names.new
        (λ names. AreNamesOf names (with_tree tree.now (values_of branches.now.entries)))) }
    ensures err { OnErr result
        (IfSome names.new (λ names. AreNamesOf names (values_of branches.now.entries))) }
{
    if branches.contains_key(tree.identity()) {
        *names = None;
        return Ok(());
    }
    put_name(alloc, names, tree)
}

/// Puts a branch among others, by identity. An `Err` changes nothing.
fn put_branch(
    alloc: Global,
    branches: &mut BranchMap,
    names: &mut Option<BranchNames>,
    tree: Branch,
) -> Result<(), NoMemory>
    requires kept { AreKept branches.old.entries }
    requires names { IfSome names.old
        (λ names. AreNamesOf names (values_of branches.old.entries)) }
    ensures ok { OnOk result
        (values_of branches.new.entries ≡ with_tree tree (values_of branches.old.entries)) }
    ensures err { OnErr result (branches.new.entries ≡ branches.old.entries) }
    ensures keyed { AreKeyed branches.new.entries }
    ensures names { IfSome names.new
        (λ names. AreNamesOf names (values_of branches.new.entries)) }
{
    let identity = tree.identity().copy(alloc)?;
    put_name_of(alloc, branches, names, &tree)?;
    match branches.insert(identity, tree) {
        Ok(_) => Ok(()),
        Err(_) => {
            *names = None;
            Err(NoMemory)
        }
    }
}

/// Puts a version on a branch, where that is there. Takes time logarithmic in the branches where the version is its last one. An
/// `Err` changes nothing.
fn put_version(
    branches: &mut BranchMap,
    branch: &Identity,
    number: u64,
    made: Shared,
) -> Result<(), NoMemory>
    requires { AreKept branches.old.entries }
    ensures ok { OnOk result
        (values_of branches.new.entries
        ≡ with_branch_changed branch.now
        (λ tree. with_version_by tree number made) (values_of branches.old.entries)) }
    ensures err { OnErr result (branches.new.entries ≡ branches.old.entries) }
    ensures keyed { AreKeyed branches.new.entries }
{
    match branches.get_mut(branch) {
        Some(tree) => tree.put_version(number, made),
        None => Ok(()),
    }
}

/// Puts one operation more after those that gave the mastership of a branch away, where that is there. An `Err` changes nothing.
fn push_master(
    branches: &mut BranchMap,
    branch: &Identity,
    operation: Shared,
) -> Result<(), NoMemory>
    requires { AreKept branches.old.entries }
    ensures ok { OnOk result
        (values_of branches.new.entries
        ≡ with_branch_changed branch.now
        (λ tree. with_master tree operation) (values_of branches.old.entries)) }
    ensures err { OnErr result (branches.new.entries ≡ branches.old.entries) }
    ensures keyed { AreKeyed branches.new.entries }
{
    match branches.get_mut(branch) {
        Some(tree) => tree.push_master(operation),
        None => Ok(()),
    }
}

/// The element of a branch.
fn element_of_branch(
    alloc: Global,
    branches: &BranchMap,
    branch: &Identity,
) -> Result<Identity, NoMemory>
    requires { AreKeyed branches.now.entries }
    ensures { IfOk result
        (λ element. element ≡ element_of_branch (values_of branches.now.entries) branch.now) }
{
    match find_in(branches, branch) {
        Some(tree) => tree.element().copy(alloc),
        None => branch.copy(alloc),
    }
}

/// Takes one operation more in. An `Err` changes nothing.
fn take_operation(
    alloc: Global,
    branches: &mut BranchMap,
    names: &mut Option<BranchNames>,
    operation: &Shared,
) -> Result<(), NoMemory>
    requires kept { AreKept branches.old.entries }
    requires names { IfSome names.old
        (λ names. AreNamesOf names (values_of branches.old.entries)) }
    ensures ok { OnOk result
        (values_of branches.new.entries
        ≡ after_operation (values_of branches.old.entries) operation.now) }
    ensures err { OnErr result (branches.new.entries ≡ branches.old.entries) }
    ensures keyed { AreKeyed branches.new.entries }
    ensures names { IfSome names.new
        (λ names. AreNamesOf names (values_of branches.new.entries)) }
{
    let made = operation.copy()?;
    match &operation.operation().deed {
        SiteDeed::Element => {
            let element = operation.operation().identity.copy(alloc)?;
            put_branch(alloc, branches, names, Branch::new(alloc, made, element))
        }
        SiteDeed::Branch(branch, _, _) => {
            let element = element_of_branch(alloc, branches, branch)?;
            put_branch(alloc, branches, names, Branch::new(alloc, made, element))
        }
        SiteDeed::Version(branch, number, _) => put_version(branches, branch, *number, made),
        SiteDeed::Master(branch, _) => push_master(branches, branch, made),
    }
}

/// Whether a branch is that of an element that has a name.
fn is_branch_named(tree: &Branch, element: &Identity, name: &Name) -> bool
    ensures { result ≡ is_named element.now name.now tree.now }
{
    is_same_identity(tree.element(), element) && tree.name() == name.as_bytes()
}

/// The branch of an element that has a name. Takes time linear in the branches.
fn branch_named<'a>(branches: &'a BranchMap, element: &Identity, name: &Name) -> Option<&'a Branch>
    ensures { option_copied result
        ≡ named_tree (values_of branches.now.entries) element.now name.now }
{
    for tree in branches.values() {
        if is_branch_named(tree, element, name) {
            return Some(tree);
        }
    }
    None
}

/// The branch of an element that has a name, by the names of the branches. Takes time logarithmic in them.
fn branch_by_name<'a>(
    alloc: Global,
    branches: &'a BranchMap,
    names: &BranchNames,
    element: &Identity,
    name: &Name,
) -> Result<Option<&'a Branch>, NoMemory>
    requires kept { AreKept branches.now.entries }
    requires names { AreNamesOf names.now (values_of branches.now.entries) }
    ensures { IfOk result
        (λ branch. option_copied branch
        ≡ named_tree (values_of branches.now.entries) element.now name.now) }
{
    match branch_told(alloc, names, element, name.as_bytes())? {
        Some(branch) => Ok(find_in(branches, branch)),
        None => Ok(None),
    }
}

impl Branches {
    /// No branches. Takes no memory.
    pub fn new(alloc: Global) -> Branches
        ensures { result ≡ [] }
    {
        Branches {
            branches: BTreeMap::new(alloc),
            names: Some(BTreeMap::new(alloc)),
        }
    }

    /// The branches, by identity.
    pub fn values(&self) -> Values<'_, Identity, Branch>
        ensures { result ≡ self.now }
    {
        self.branches.values()
    }

    /// The branch of an identity. Takes time logarithmic in the branches.
    pub fn find(&self, identity: &Identity) -> Option<&Branch>
        ensures { option_copied result ≡ tree_at self.now identity.now }
    {
        find_in(&self.branches, identity)
    }

    /// The branch of an element that has a name. Takes time logarithmic in the branches at all sites of a world, else linear in
    /// them.
    pub fn named(
        &self,
        alloc: Global,
        element: &Identity,
        name: &Name,
    ) -> Result<Option<&Branch>, NoMemory>
        ensures { IfOk result
            (λ branch. option_copied branch ≡ named_tree self.now element.now name.now) }
    {
        match &self.names {
            Some(names) => branch_by_name(alloc, &self.branches, names, element, name),
            None => Ok(branch_named(&self.branches, element, name)),
        }
    }

    /// Takes one operation more in. Takes time logarithmic in the branches. An `Err` changes nothing.
    pub(crate) fn take_operation(
        &mut self,
        alloc: Global,
        operation: &Shared,
    ) -> Result<(), NoMemory>
        ensures ok { OnOk result (self.new ≡ after_operation self.old operation.now) }
        ensures err { OnErr result (self.new ≡ self.old) }
    {
        take_operation(alloc, &mut self.branches, &mut self.names, operation)
    }
}
