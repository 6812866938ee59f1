//! A store that one caller has, as a server asks it.

use crate::store::ServedStore;
use at_edge::Disk;
use lone_store::LoneStore;
use plain_types::NoMemory;
use record_model::{Caller, Chains, Record};
use store_core::{ReadFail, TakeFail};

/// The number of the pass by which all its calls are made.
const LONE_PASS: u32 = 1;

impl<D: Disk> ServedStore for LoneStore<D> {
    ghost use Rattle.lone_store.specs.Lone.{lone_seen};

    ghost store = { λ s. lone_seen s.store };

    fn status(&mut self, owner: u32) -> Result<Chains, NoMemory> {
        self.store.status(self.alloc, owner)
    }

    fn page(
        &mut self,
        owner: u32,
        host: u128,
        tag: &[u8],
        start: u64,
        count: u32,
    ) -> Result<Vec<Record>, ReadFail> {
        self.store.page(self.alloc, owner, host, tag, start, count)
    }

    fn take_page(&mut self, number: u64, owner: u32, page: &[Record]) -> Result<u32, TakeFail> {
        let caller = Caller {
            number: LONE_PASS,
            call: number,
            settled_for: 0,
        };
        self.store.take_page(self.alloc, caller, owner, page)
    }
}
