//! Copies of plain data, each equal to what it was made of.

ghost use Rattle.std.specs.Prelude.{◌≡◌, ◌++◌, IfOk, OnOk};

use crate::commands::{Macro, VersionName};
use crate::lists::List;
use crate::memory::NoMemory;
use crate::names::Name;
use crate::paths::Path;
use crate::refusals::{ScriptFault, UnitFault};
use crate::rows::ReadOf;
use crate::steps::UnitEnd;
use crate::texts::Text;
use crate::units::{Unit, UnitScript};
use std::alloc::Global;

/// Data of which copies can be made, where there is memory for them.
pub trait Copied: Drop {
    /// A copy, in time linear in its size.
    fn copy(&self, alloc: Global) -> Result<Self, NoMemory>
        ensures { IfOk result (λ copy. copy ≡ self.now) };
}

/// Puts copies of items after others, in time linear in their size.
pub fn push_copies<X: Copied>(alloc: Global, onto: &mut Vec<X>, items: &[X]) -> Result<(), NoMemory>
    ensures { OnOk result (onto.new.items ≡ onto.old.items ++ items.now) }
{
    for item in items {
        onto.push(item.copy(alloc)?)?;
    }
    Ok(())
}

impl Copied for u64 {
    fn copy(&self, _alloc: Global) -> Result<u64, NoMemory> {
        Ok(*self)
    }
}

impl Copied for Text {
    fn copy(&self, alloc: Global) -> Result<Text, NoMemory> {
        Text::from_bytes(alloc, self.as_bytes())
    }
}

impl Copied for Name {
    fn copy(&self, alloc: Global) -> Result<Name, NoMemory> {
        Name::of(alloc, self.as_bytes())
    }
}

impl Copied for Path {
    fn copy(&self, alloc: Global) -> Result<Path, NoMemory> {
        Path::copy(self, alloc)
    }
}

impl<X: Copied> Copied for List<X> {
    fn copy(&self, alloc: Global) -> Result<List<X>, NoMemory> {
        let mut items = Vec::new(alloc);
        push_copies(alloc, &mut items, self.as_slice())?;
        Ok(List::of(items))
    }
}

impl Copied for ReadOf {
    fn copy(&self, alloc: Global) -> Result<ReadOf, NoMemory> {
        Ok(ReadOf {
            path: self.path.copy(alloc)?,
            row: self.row,
        })
    }
}

impl Copied for UnitScript {
    fn copy(&self, alloc: Global) -> Result<UnitScript, NoMemory> {
        match self {
            UnitScript::Bare => Ok(UnitScript::Bare),
            UnitScript::TooLong => Ok(UnitScript::TooLong),
            UnitScript::Lines(text) => Ok(UnitScript::Lines(text.copy(alloc)?)),
        }
    }
}

impl Copied for Unit {
    fn copy(&self, alloc: Global) -> Result<Unit, NoMemory> {
        Ok(Unit {
            targets: self.targets.copy(alloc)?,
            prerequisites: self.prerequisites.copy(alloc)?,
            script: self.script.copy(alloc)?,
        })
    }
}

impl Copied for ScriptFault {
    fn copy(&self, alloc: Global) -> Result<ScriptFault, NoMemory> {
        match self {
            ScriptFault::Absent(path) => Ok(ScriptFault::Absent(path.copy(alloc)?)),
            ScriptFault::BadLine(line) => Ok(ScriptFault::BadLine(*line)),
            ScriptFault::TooBig(path) => Ok(ScriptFault::TooBig(path.copy(alloc)?)),
            ScriptFault::IncludeDepth(path) => Ok(ScriptFault::IncludeDepth(path.copy(alloc)?)),
            ScriptFault::Failed(line) => Ok(ScriptFault::Failed(*line)),
            ScriptFault::StrayWrite(path) => Ok(ScriptFault::StrayWrite(path.copy(alloc)?)),
            ScriptFault::NotWritten(path) => Ok(ScriptFault::NotWritten(path.copy(alloc)?)),
        }
    }
}

impl Copied for UnitFault {
    fn copy(&self, alloc: Global) -> Result<UnitFault, NoMemory> {
        match self {
            UnitFault::NoRule(path) => Ok(UnitFault::NoRule(path.copy(alloc)?)),
            UnitFault::NoDirectory(path) => Ok(UnitFault::NoDirectory(path.copy(alloc)?)),
            UnitFault::ScriptTooLong(path) => Ok(UnitFault::ScriptTooLong(path.copy(alloc)?)),
            UnitFault::Script(fault) => Ok(UnitFault::Script(fault.copy(alloc)?)),
        }
    }
}

impl Copied for UnitEnd {
    fn copy(&self, alloc: Global) -> Result<UnitEnd, NoMemory> {
        match self {
            UnitEnd::Kept(row) => Ok(UnitEnd::Kept(*row)),
            UnitEnd::Failed(fault) => Ok(UnitEnd::Failed(fault.copy(alloc)?)),
            UnitEnd::Blocked(path) => Ok(UnitEnd::Blocked(path.copy(alloc)?)),
            UnitEnd::Bare => Ok(UnitEnd::Bare),
        }
    }
}

impl Copied for Macro {
    fn copy(&self, alloc: Global) -> Result<Macro, NoMemory> {
        Ok(Macro {
            name: self.name.copy(alloc)?,
            value: self.value.copy(alloc)?,
        })
    }
}

impl Copied for VersionName {
    fn copy(&self, alloc: Global) -> Result<VersionName, NoMemory> {
        Ok(VersionName {
            branches: self.branches.copy(alloc)?,
            number: self.number,
        })
    }
}
