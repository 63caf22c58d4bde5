//! Why a site may not make a change, and what the change does.

ghost use Rattle.std.specs.Prelude.{◌≡◌, IfOk};
ghost use Rattle.vob_replica.specs.Needs.{own_before, IsSharedBy};
ghost use Rattle.vob_replica.specs.Replicas.{branch_fault, master_fault, branch_name_fault, change_fault, site_deed_of, operation_of};
ghost use Rattle.vob_replica.specs.Trees.{next_number, tree_at};
ghost use Rattle.std.specs.Option.{option_map_or};
ghost use Rattle.vob_replica.specs.declared.operations.Change.TheVariants as changes;

use crate::branch::Branch;
use crate::branches::Branches;
use crate::events::Identity;
use crate::logs::Log;
use crate::needs::Needs;
use crate::operations::{Change, Operation, SiteDeed, SiteFault};
use crate::shared::Shared;
use crate::tables::Table;
use cc_names::memory::NoMemory;
use cc_names::names::Name;
use std::alloc::Global;
use std::rc::Rc;

/// V5: another site has the mastership of a branch.
fn master_fault(alloc: Global, site: &Name, tree: &Branch) -> Result<Option<SiteFault>, NoMemory>
    ensures { IfOk result (λ fault. fault ≡ master_fault site.now tree.now) }
{
    let master = tree.master();
    if *master == *site {
        return Ok(None);
    }
    Ok(Some(SiteFault::NotMaster(master.copy(alloc)?)))
}

/// V7: a branch of an element has a name.
fn name_fault(
    alloc: Global,
    branches: &Branches,
    element: &Identity,
    name: &Name,
) -> Result<Option<SiteFault>, NoMemory>
    ensures { IfOk result (λ fault. fault ≡ branch_name_fault branches.now element.now name.now) }
{
    match branches.named(alloc, element, name)? {
        None => Ok(None),
        Some(tree) => Ok(Some(SiteFault::BranchExists(tree.identity().copy(alloc)?))),
    }
}

/// V4 and V5 of a branch.
fn branch_fault(
    alloc: Global,
    site: &Name,
    branches: &Branches,
    branch: &Identity,
) -> Result<Option<SiteFault>, NoMemory>
    ensures { IfOk result
        (λ fault. fault ≡ branch_fault branches.now branch.now (master_fault site.now)) }
{
    match branches.find(branch) {
        None => Ok(Some(SiteFault::NoBranch(branch.copy(alloc)?))),
        Some(tree) => master_fault(alloc, site, tree),
    }
}

/// Why a site may not make a branch of this name that leaves another at its version of a number.
fn new_branch_fault(
    alloc: Global,
    site: &Name,
    branches: &Branches,
    branch: &Identity,
    number: u64,
    name: &Name,
) -> Result<Option<SiteFault>, NoMemory>
    ensures { IfOk result
        (λ fault. fault
        ≡ change_fault site.now branches.now (changes.Branch branch.now number name.now)) }
{
    let Some(tree) = branches.find(branch) else {
        return Ok(Some(SiteFault::NoBranch(branch.copy(alloc)?)));
    };
    if let Some(fault) = branch_fault(alloc, site, branches, tree.element())? {
        return Ok(Some(fault));
    }
    if !tree.has_version(number) {
        return Ok(Some(SiteFault::NoVersion(number)));
    }
    name_fault(alloc, branches, tree.element(), name)
}

/// Why a site may not make a change, where it may not. Takes time logarithmic in the branches that it knows, and for a new branch
/// also in the versions of the one that it leaves.
pub(crate) fn change_fault(
    alloc: Global,
    site: &Name,
    branches: &Branches,
    change: &Change,
) -> Result<Option<SiteFault>, NoMemory>
    ensures { IfOk result (λ fault. fault ≡ change_fault site.now branches.now change.now) }
{
    match change {
        Change::Element => Ok(None),
        Change::Branch(branch, number, name) => {
            new_branch_fault(alloc, site, branches, branch, *number, name)
        }
        Change::Version(branch, _) => branch_fault(alloc, site, branches, branch),
        Change::Master(branch, _) => branch_fault(alloc, site, branches, branch),
    }
}

/// The number of the next version of a branch; 0 where that is not known.
fn next_number(branches: &Branches, branch: &Identity) -> u64
    ensures { result ≡ option_map_or next_number (tree_at branches.now branch.now) 0 }
{
    match branches.find(branch) {
        None => 0,
        Some(tree) => tree.next_number(),
    }
}

/// What a change does.
fn deed_of(alloc: Global, branches: &Branches, change: &Change) -> Result<SiteDeed, NoMemory>
    ensures { IfOk result (λ deed. deed ≡ site_deed_of branches.now change.now) }
{
    match change {
        Change::Element => Ok(SiteDeed::Element),
        Change::Branch(branch, number, name) => {
            let branch = branch.copy(alloc)?;
            Ok(SiteDeed::Branch(branch, *number, name.copy(alloc)?))
        }
        Change::Version(branch, word) => {
            let number = next_number(branches, branch);
            let branch = branch.copy(alloc)?;
            Ok(SiteDeed::Version(branch, number, word.copy(alloc)?))
        }
        Change::Master(branch, to) => {
            let branch = branch.copy(alloc)?;
            Ok(SiteDeed::Master(branch, to.copy(alloc)?))
        }
    }
}

/// The last of so many operations of a site, if any.
fn own_before(alloc: Global, site: &Name, number: u64) -> Result<Option<Identity>, NoMemory>
    ensures { IfOk result (λ own. own ≡ own_before site.now number) }
{
    if number > 0 {
        let site = site.copy(alloc)?;
        return Ok(Some(Identity { site, number }));
    }
    Ok(None)
}

/// The operation by which the site of a name, which knows these operations and branches, makes a change. Its needs are shared,
/// but for its own operations. Takes time logarithmic in the sites that it knows of.
pub(crate) fn operation_of(
    alloc: Global,
    name: &Name,
    log: &Log,
    shared: Rc<Table>,
    branches: &Branches,
    change: &Change,
) -> Result<Shared, NoMemory>
    requires { IsSharedBy name.now log.now shared.value }
    ensures { IfOk result
        (λ operation. operation ≡ operation_of name.now log.now branches.now change.now) }
{
    let site = name.copy(alloc)?;
    let number = log.next_number(name);
    let own = own_before(alloc, name, log.table().number(name))?;
    let needs = Needs::new(shared, own);
    let deed = deed_of(alloc, branches, change)?;
    let identity = Identity { site, number };
    Shared::new(
        alloc,
        Operation {
            identity,
            needs,
            deed,
        },
    )
}
