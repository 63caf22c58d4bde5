//! Copies of refusals.

use crate::copies::Copied;
use crate::memory::NoMemory;
use crate::refusals::Refusal;
use std::alloc::Global;

impl Copied for Refusal {
    fn copy(&self, alloc: Global) -> Result<Refusal, NoMemory> {
        match self {
            Refusal::NoView => Ok(Refusal::NoView),
            Refusal::ViewExists => Ok(Refusal::ViewExists),
            Refusal::NoPath(path) => Ok(Refusal::NoPath(path.copy(alloc)?)),
            Refusal::NotDirectory(path) => Ok(Refusal::NotDirectory(path.copy(alloc)?)),
            Refusal::NameTaken(path) => Ok(Refusal::NameTaken(path.copy(alloc)?)),
            Refusal::NotElement(path) => Ok(Refusal::NotElement(path.copy(alloc)?)),
            Refusal::NotCheckedOut(path) => Ok(Refusal::NotCheckedOut(path.copy(alloc)?)),
            Refusal::AlreadyOut(number) => Ok(Refusal::AlreadyOut(*number)),
            Refusal::Reserved(name) => Ok(Refusal::Reserved(name.copy(alloc)?)),
            Refusal::NotLatest(number) => Ok(Refusal::NotLatest(*number)),
            Refusal::Identical(number) => Ok(Refusal::Identical(*number)),
            Refusal::ParentNotOut(path) => Ok(Refusal::ParentNotOut(path.copy(alloc)?)),
            Refusal::NoType(name) => Ok(Refusal::NoType(name.copy(alloc)?)),
            Refusal::TypeExists(name) => Ok(Refusal::TypeExists(name.copy(alloc)?)),
            Refusal::BranchExists(number) => Ok(Refusal::BranchExists(*number)),
            Refusal::LabelElsewhere(number) => Ok(Refusal::LabelElsewhere(*number)),
            Refusal::NoCheckoutRule(line) => Ok(Refusal::NoCheckoutRule(*line)),
            Refusal::Building(tag) => Ok(Refusal::Building(*tag)),
            Refusal::IsDerived(path) => Ok(Refusal::IsDerived(path.copy(alloc)?)),
            Refusal::NoObject(path) => Ok(Refusal::NoObject(path.copy(alloc)?)),
            Refusal::HasCheckouts(number) => Ok(Refusal::HasCheckouts(*number)),
            Refusal::BadSpec(line, cause) => Ok(Refusal::BadSpec(*line, *cause)),
            Refusal::Full(number) => Ok(Refusal::Full(*number)),
            Refusal::NoLabel(path) => Ok(Refusal::NoLabel(path.copy(alloc)?)),
            Refusal::IsDirectory(path) => Ok(Refusal::IsDirectory(path.copy(alloc)?)),
            Refusal::NotVersion(path) => Ok(Refusal::NotVersion(path.copy(alloc)?)),
            Refusal::NoVersion(path) => Ok(Refusal::NoVersion(path.copy(alloc)?)),
            Refusal::ArrowExists(number) => Ok(Refusal::ArrowExists(*number)),
            Refusal::SameVersion(number) => Ok(Refusal::SameVersion(*number)),
            Refusal::NoMakefile(path) => Ok(Refusal::NoMakefile(path.copy(alloc)?)),
            Refusal::MakeError(path, line, cause) => Ok(Refusal::MakeError(
                path.copy(alloc)?,
                *line,
                *cause,
            )),
            Refusal::NoGoal(path) => Ok(Refusal::NoGoal(path.copy(alloc)?)),
            Refusal::Cycle(path) => Ok(Refusal::Cycle(path.copy(alloc)?)),
            Refusal::TargetIsSource(path) => Ok(Refusal::TargetIsSource(path.copy(alloc)?)),
        }
    }
}
