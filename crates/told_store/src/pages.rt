//! Pages of records, in and out, and what an owner has.

ghost use Rattle.std.specs.Prelude.{◌≡◌, ◌≤◌, Err, IfOk, length};
ghost use Rattle.definitions.specs.Counts.{Rose};
ghost use Rattle.definitions.specs.Limits.{most_page_records, most_page_weight};
ghost use Rattle.record_rules.specs.Records.{page_weight};
ghost use Rattle.step_rules.specs.ReadTurns.{status_read, page_read};
ghost use Rattle.record_model.specs.Seen.{caller_seen, records_seen};
ghost use Rattle.at_edge.specs.Storing.{Tells};
ghost use Rattle.store_core.specs.Pages.{page_answer_seen};
ghost use Rattle.told_store.specs.Told.{HasRested};
ghost use Rattle.told_store.specs.Asked.{PageTold, HasRead, AnswersRead, status_answer_seen, read_answer_seen};

use crate::choices::{PageTaken, Rested, WasRead};
use crate::told::ToldStore;
use at_edge::Disk;
use plain_types::NoMemory;
use record_model::{Caller, Chains, Record};
use state_notes::{Noted, NotedStore};
use std::alloc::Global;
use store_core::{ReadFail, TakeFail};

impl<D: Disk> ToldStore<D> {
    /// Takes a page of records in for the owner, in the caller's call, in one turn from the state that is noted to the one
    /// that is noted then. How many records were added, 0 to 100. Each refusal, and what stands after it, is as the words
    /// for turns say; a fault of the disk is told only where its count rose.
    pub fn take_page(
        &mut self,
        alloc: Global,
        caller: Caller,
        owner: u32,
        page: &[Record],
    ) -> Result<u32, TakeFail>
        ensures told { PageTold self.old.store self.old.note self.new.store self.new.note (caller_seen caller) owner (records_seen page.now) (page_answer_seen result) }
        ensures host { self.new.store.log.host ≡ self.old.store.log.host }
        ensures key { self.new.store.key ≡ self.old.store.key }
    {
        let store_was = Noted::of(&self.store);
        let answer = self.store.take_page(alloc, caller, owner, page);
        let noted = NotedStore::chosen(&PageTaken {
            before: &self.noted,
            store_was: &store_was,
            store: &self.store,
            caller,
            owner,
            page,
            answer: &answer,
        });
        self.noted = noted;
        answer
    }

    /// The records of the owner's chain of this host and tag, from the idx `start` on: at most `count` and at most 100, as
    /// many as weigh at most 4,194,304 bytes together. In one turn, which leaves the journal and what is in doubt. What they
    /// say is known where the disk tells what it holds.
    ///
    /// # Errors
    ///
    /// [`ReadFail::DiskFault`], where the disk's count rose; [`ReadFail::NoMemory`].
    pub fn page(
        &mut self,
        alloc: Global,
        owner: u32,
        host: u128,
        tag: &[u8],
        start: u64,
        count: u32,
    ) -> Result<Vec<Record>, ReadFail>
        ensures read { HasRead self.old.note self.new.store self.new.note }
        ensures answers { Tells self.old.store.log.disk (λ _. AnswersRead self.old.note self.new.note (page_read owner host tag.now start count) (read_answer_seen result)) }
        ensures failed { result ≡ Err ReadFail.DiskFault → Rose self.old.note.state.faults self.new.note.state.faults }
        ensures short { IfOk result (λ records. length records.items ≤ most_page_records) }
        ensures light { IfOk result (λ records. page_weight (records_seen records.items) ≤ most_page_weight) }
        ensures host { self.new.store.log.host ≡ self.old.store.log.host }
        ensures key { self.new.store.key ≡ self.old.store.key }
        ensures disk { self.new.store.log.disk.history ≡ self.old.store.log.disk.history }
    {
        let records = self.store.page(alloc, owner, host, tag, start, count);
        let noted = NotedStore::chosen(&WasRead {
            before: &self.noted,
            store: &self.store,
        });
        self.noted = noted;
        records
    }

    /// The owner's status: host, tag and length of each of its chains that has records, in order of host, then of the tag's
    /// bytes. In one turn, which leaves everything.
    ///
    /// # Errors
    ///
    /// [`NoMemory`].
    pub fn status(&mut self, alloc: Global, owner: u32) -> Result<Chains, NoMemory>
        ensures rests { HasRested self.old.note self.new.note }
        ensures answers { AnswersRead self.old.note self.new.note (status_read owner) (status_answer_seen result) }
        ensures store { self.new.store ≡ self.old.store }
    {
        let noted = NotedStore::chosen(&Rested {
            before: &self.noted,
        });
        self.noted = noted;
        self.store.status(alloc, owner)
    }
}
