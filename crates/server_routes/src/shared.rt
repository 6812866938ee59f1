//! A store that callers share, as a server asks it by a pass.

use crate::store::ServedStore;
use at_edge::Disk;
use plain_types::NoMemory;
use record_model::{Chains, Record};
use shared_store::SharedCaller;
use std::sync::Wait;
use store_core::{ReadFail, TakeFail};

impl<'a, R: Wait, D: Disk> ServedStore for SharedCaller<'a, R, D> {
    ghost use Rattle.shared_store.specs.Callers.{shared_seen};

    ghost store = { λ s. shared_seen s.pass.pass };

    fn status(&mut self, owner: u32) -> Result<Chains, NoMemory> {
        self.store
            .status(self.rt, self.alloc, &mut self.pass, owner)
    }

    fn page(
        &mut self,
        owner: u32,
        host: u128,
        tag: &[u8],
        start: u64,
        count: u32,
    ) -> Result<Vec<Record>, ReadFail> {
        self.store.page(
            self.rt,
            self.alloc,
            &mut self.pass,
            owner,
            host,
            tag,
            start,
            count,
        )
    }

    fn take_page(&mut self, number: u64, owner: u32, page: &[Record]) -> Result<u32, TakeFail> {
        self.store
            .take_page(self.rt, self.alloc, &mut self.pass, number, owner, page)
    }
}
