//! An operation that sites and packets share.

ghost use Rattle.std.specs.Prelude.{◌≡◌, IfOk};
ghost use Rattle.vob_replica.specs.Logs.{HasNextNumber};

use crate::operations::Operation;
use cc_names::memory::NoMemory;
use std::alloc::Global;
use std::marker::Model;
use std::rc::Rc;

/// An operation, shared by the sites that know it and the packets that carry it. It has the number after those of its maker that
/// it needs. Contracts see the operation.
#[derive(Drop)]
pub struct Shared {
    operation: Rc<Operation>,
}

impl Model for Shared {
    ghost use Rattle.vob_replica.specs.declared.operations.Operation.{Operation};
    ghost use Rattle.vob_replica.specs.Logs.{HasNextNumber};

    ghost Value = { Operation };

    ghost view = { λ shared. shared.operation.value };

    ghost invariant = { λ shared. HasNextNumber shared.operation.value };
}

impl Shared {
    /// Shares an operation.
    pub(crate) fn new(alloc: Global, operation: Operation) -> Result<Shared, NoMemory>
        requires { HasNextNumber operation }
        ensures { IfOk result (λ shared. shared ≡ operation) }
    {
        let operation = Rc::new(alloc, operation)?;
        Ok(Shared { operation })
    }

    /// The same operation once more, in constant time.
    pub fn copy(&self) -> Result<Shared, NoMemory>
        ensures { IfOk result (λ shared. shared ≡ self.now) }
    {
        let operation = self.operation.clone()?;
        Ok(Shared { operation })
    }

    /// The operation.
    pub fn operation(&self) -> &Operation
        ensures same { result.now ≡ self.now }
        ensures next { HasNextNumber self.now }
    {
        &self.operation
    }
}
