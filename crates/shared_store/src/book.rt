//! The store as the book of a lock.

ghost use Rattle.std.specs.Prelude.{◌≡◌, length};
ghost use Rattle.record_model.specs.Seen.{caller_seen, records_seen};
ghost use Rattle.store_core.specs.Pages.{page_answer_seen};
ghost use Rattle.told_store.specs.Asked.{PageTold};
ghost use Rattle.shared_store.specs.Books.{TellsHostAndKey};

use at_edge::Disk;
use book_lock::Booked;
use record_model::{Caller, Record};
use std::alloc::Global;
use store_core::TakeFail;
use told_store::ToldStore;

/// A store that is lent by turns. As a book it has the entries and faults that are noted of it; its fixed part says its
/// host, and its key if it has one.
#[derive(Drop)]
pub struct SharedBook<D: Disk> {
    pub(crate) told: ToldStore<D>,
}

impl<D: Disk> Booked for SharedBook<D> {
    ghost use Rattle.shared_store.specs.Books.{book_of};

    ghost book = { λ b. book_of b.told };

    fn entry_count(&self) -> u64 {
        self.told.entry_count()
    }
}

impl<D: Disk> SharedBook<D> {
    /// What the store answers to the page, and how many entries there are then.
    pub(crate) fn take_page(
        &mut self,
        alloc: Global,
        caller: Caller,
        owner: u32,
        page: &[Record],
    ) -> (Result<u32, TakeFail>, u64)
        ensures told { PageTold self.old.told.store self.old.told.note self.new.told.store self.new.told.note (caller_seen caller) owner (records_seen page.now) (page_answer_seen result.0) }
        ensures host { self.new.told.store.log.host ≡ self.old.told.store.log.host }
        ensures key { self.new.told.store.key ≡ self.old.told.store.key }
        ensures counted { result.1 ≡ length self.new.told.note.state.entries }
    {
        let answer = self.told.take_page(alloc, caller, owner, page);
        (answer, self.told.entry_count())
    }
}

/// Stores that differ in their host, or in their key of 32 bytes, have different fixed parts.
pub fn the_fixed_part_tells_host_and_key()
    ensures { TellsHostAndKey }
{}
