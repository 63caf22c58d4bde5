//! The bytes of extents.

ghost use Rattle.std.specs.Prelude.{◌≡◌, ◌≤◌, length, take, drop, Contains, IfOk, MatchResult};
ghost use Rattle.disk_model.specs.Devices.{bytes_now, Writes, Tears};
ghost use Rattle.disk_model.specs.DiskStates.{IfModeled, Both, Counted};
ghost use Rattle.container_store.specs.Extents.{place_behind};
ghost use Rattle.container_store.specs.Getting.{Gets};

use crate::store::Store;
use cc_names::memory::Or;
use cc_names::rows::Extent;
use cc_names::texts::Text;
use disk_model::{DiskFault, Objects};
use std::alloc::Global;

impl Store {
    /// Writes the bytes of an extent that is taken, in one device call. After a fault the extent may hold any bytes, and all
    /// others are as they were.
    pub fn put<O: Objects>(
        &self,
        objects: &mut O,
        extent: &Extent,
        bytes: &[u8],
    ) -> Result<(), DiskFault>
        requires taken { Contains self.now.taken extent.now }
        requires long { length bytes.now ≡ extent.now.length }
        requires within { IfModeled (O.ghost_state objects.old).modeled
            (λ d. extent.now.place ≤ length (bytes_now 1 d)) }
        ensures modeled { MatchResult result
            (λ _.
            Both (Writes 1 extent.now.place bytes.now) (O.ghost_state objects.old).modeled
            (O.ghost_state objects.new).modeled)
            (λ _.
            Both (Tears 1 extent.now.place (length bytes.now)) (O.ghost_state objects.old).modeled
            (O.ghost_state objects.new).modeled) }
        ensures counts { Counted result (O.ghost_state objects.old) (O.ghost_state objects.new) }
        ensures keeps { O.keeps objects.old objects.new }
    {
        objects.write_at(extent.place, bytes)
    }

    /// Reads the bytes of an extent that lies in the file, taken or not, in one device call. Takes time linear in them.
    pub fn get<O: Objects>(
        &self,
        alloc: Global,
        objects: &mut O,
        extent: &Extent,
    ) -> Result<Text, Or<DiskFault>>
        requires { IfModeled (O.ghost_state objects.old).modeled
            (λ d. place_behind extent.now ≤ length (bytes_now 1 d)) }
        ensures bytes { IfOk result
            (λ text.
            IfModeled (O.ghost_state objects.old).modeled
            (λ d. text ≡ take extent.now.length (drop extent.now.place (bytes_now 1 d)))) }
        ensures long { IfOk result (λ text. length text ≡ extent.now.length) }
        ensures modeled { Gets extent.now result (O.ghost_state objects.old)
            (O.ghost_state objects.new) }
        ensures keeps { O.keeps objects.old objects.new }
    {
        let mut bytes = Vec::new(alloc);
        let Ok(()) = bytes.resize(extent.length as usize, 0) else {
            return Err(Or::NoMemory);
        };
        match objects.read_at(extent.place, bytes.as_mut_slice()) {
            Ok(()) => Ok(Text::of(bytes)),
            Err(fault) => Err(Or::Is(fault)),
        }
    }
}
