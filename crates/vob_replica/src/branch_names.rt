//! Which branch of an element has a name.

ghost use Rattle.std.specs.Prelude.{◌≡◌, option_copied, IfOk, OnOk, OnErr};
ghost use Rattle.vob_replica.specs.BranchNames.{told, IsPut, TellSame};

use crate::branch::Branch;
use crate::events::Identity;
use crate::shared::Shared;
use cc_names::memory::NoMemory;
use cc_names::texts::Text;
use std::alloc::Global;
use std::collections::BTreeMap;

/// An element, and the name of a branch of it.
#[derive(PartialEq, Eq, PartialOrd, Ord, Drop)]
pub struct BranchName {
    element: Identity,
    name: Text,
}

impl BranchName {
    /// A copy of an element and a name.
    fn copy_of(alloc: Global, element: &Identity, name: &[u8]) -> Result<BranchName, NoMemory>
        ensures { IfOk result (λ it. it ≡ record { element = element.now; name = name.now }) }
    {
        let element = element.copy(alloc)?;
        let name = Text::from_bytes(alloc, name)?;
        Ok(BranchName { element, name })
    }
}

/// The operations that made branches, by the names of these.
pub(crate) type BranchNames = BTreeMap<BranchName, Shared>;

/// The identity of the branch of an element that has a name. Takes time logarithmic in the names.
pub(crate) fn branch_told<'a>(
    alloc: Global,
    names: &'a BranchNames,
    element: &Identity,
    name: &[u8],
) -> Result<Option<&'a Identity>, NoMemory>
    ensures { IfOk result
        (λ branch. option_copied branch ≡ told names.now element.now name.now) }
{
    let key = BranchName::copy_of(alloc, element, name)?;
    match names.get(&key) {
        Some(made) => Ok(Some(&made.operation().identity)),
        None => Ok(None),
    }
}

/// Puts the name of a branch among others, where names are kept. None are kept on where it is there already. Takes time
/// logarithmic in the names.
pub(crate) fn put_name(
    alloc: Global,
    names: &mut Option<BranchNames>,
    tree: &Branch,
) -> Result<(), NoMemory>
    ensures ok { OnOk result (IsPut tree.now names.old names.new) }
    ensures err { OnErr result (TellSame names.old names.new) }
{
    let Some(kept) = names else {
        return Ok(());
    };
    let name = BranchName::copy_of(alloc, tree.element(), tree.name())?;
    if kept.contains_key(&name) {
        *names = None;
        return Ok(());
    }
    let made = tree.made()?;
    kept.insert(name, made)?;
    Ok(())
}
