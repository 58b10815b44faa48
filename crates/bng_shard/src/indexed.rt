//! The store of the gateway: slots, with an index of the addresses.
ghost use Rattle.std.specs.Prelude.{◌≡◌, ◌≤◌, IfOk};
ghost use Rattle.std.specs.FinMap.{empty};

use bng_base::{Ip4, SessionNo};
use bng_slots::{SlotError, Slots};
use bng_steps::{Session, Store};
use std::alloc::Global;

/// The sessions of a shard by number, found by their addresses too. No two of them have one address.
#[derive(Drop)]
pub(crate) struct Indexed {
    slots: Slots<Session>,
}

impl Indexed {
    /// No session of the shard with this number.
    pub(crate) fn open(alloc: Global, shard: u16) -> Result<Indexed, SlotError>
        requires { shard ≤ 63 }
        ensures shard { IfOk result (λ s. s.slots.shard ≡ shard) }
        ensures vacant { IfOk result (λ s. s.slots.by_number ≡ empty) }
    {
        Ok(Indexed {
            slots: Slots::open(alloc, shard)?,
        })
    }
}

impl Store for Indexed {
    ghost use Rattle.std.specs.Prelude.{true};

    ghost sessions = { λ s. s.slots };

    ghost unique = { true };

    fn shard(&self) -> u16 {
        self.slots.shard()
    }

    fn count(&self) -> u32 {
        self.slots.count()
    }

    fn get(&self, number: SessionNo) -> Option<&Session> {
        self.slots.get(number)
    }

    fn vacant(&self) -> Option<SessionNo> {
        self.slots.vacant()
    }

    fn holder(&self, address: Ip4) -> Option<&Session> {
        let number = self.slots.by_address(address)?;
        self.slots.get(number)
    }

    fn earliest(&self) -> Option<(u64, SessionNo)> {
        self.slots.earliest()
    }

    fn put(&mut self, number: SessionNo, session: Session) {
        self.slots.put(number, session);
    }

    fn remove(&mut self, number: SessionNo) -> Option<Session> {
        self.slots.remove(number)
    }
}
