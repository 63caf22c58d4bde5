//! What one site hands on to another.

ghost use Rattle.std.specs.Prelude.{◌≡◌};
ghost use Rattle.vob_replica.specs.Logs.{IsWhole};

use crate::shared::Shared;
use crate::tables::Table;
use cc_names::names::Name;
use std::marker::Model;

/// A packet: its sender, the operations that it carries, and the sender's epoch table. Contracts see these.
#[derive(Drop)]
pub struct Packet {
    sender: Name,
    operations: Vec<Shared>,
    table: Table,
    /// What the receiver was thought to know. No operation needs one that neither this holds nor those before it are.
    floor: Table,
}

impl Model for Packet {
    ghost use Rattle.vob_replica.specs.Logs.{IsWhole};
    ghost use Rattle.vob_replica.specs.Replicas as replicas;

    ghost Value = { replicas.Packet };

    ghost view = { λ packet. record
        { sender = packet.sender; operations = packet.operations.items; table = packet.table } };

    ghost invariant = { λ packet. IsWhole packet.floor packet.operations.items };
}

impl Packet {
    pub(crate) fn new(sender: Name, operations: Vec<Shared>, table: Table, floor: Table) -> Packet
        requires { IsWhole floor operations.items }
        ensures { result
            ≡ record { sender = sender; operations = operations.items; table = table } }
    {
        Packet {
            sender,
            operations,
            table,
            floor,
        }
    }

    /// The site that made it.
    pub fn sender(&self) -> &Name
        ensures { result.now ≡ self.now.sender }
    {
        &self.sender
    }

    /// The operations, in the order in which the sender came to know them.
    pub fn operations(&self) -> &[Shared]
        ensures { result.now ≡ self.now.operations }
    {
        self.operations.as_slice()
    }

    /// What a site has to know so that it misses no need of the operations.
    pub(crate) fn floor(&self) -> &Table
        ensures { IsWhole result.now self.now.operations }
    {
        &self.floor
    }

    /// The sender's epoch table.
    pub fn table(&self) -> &Table
        ensures { result.now ≡ self.now.table }
    {
        &self.table
    }
}
