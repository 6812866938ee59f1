//! Pages of records: one that comes in for an owner, and one that is read back.

ghost use Rattle.std.specs.Prelude.{◌≡◌, ◌≤◌, ◌+◌, ◌++◌, ◌∷◌, List, [], None, Err, cond, length, map, IfOk, OnOk};
ghost use Rattle.definitions.specs.Counts.{Rose};
ghost use Rattle.definitions.specs.Limits.{most_page_records, most_page_weight};
ghost use Rattle.record_rules.specs.Records.{Entry, Taken, page_weight};
ghost use Rattle.record_model.specs.Seen.{caller_seen, events_seen, record_seen, records_seen};
ghost use Rattle.page_growth.specs.Checking.{chosen};
ghost use Rattle.page_reading.specs.Reading.{LogRests};
ghost use Rattle.record_log.specs.Reading.{ReadCause};
ghost use Rattle.store_core.specs.Store.{IsStoreOf};
ghost use Rattle.store_core.specs.Calls.{TakesPage};
ghost use Rattle.store_core.specs.declared.pages.TakeFail.TheVariants.{DiskFault as disk_fault};
ghost use Rattle.store_core.specs.Pages.{page_answer_seen, Grows, TellsPage};

use crate::store::Store;
use at_edge::{Disk, DiskFault};
use page_growth::{PageFail, PageRefusal, check_page};
use page_reading::read_page;
use plain_types::NoMemory;
use record_log::ReadFail;
use record_model::{Caller, Event, Record};
use std::alloc::Global;

/// Why a page wasn't taken.
#[derive(Clone, Copy, Debug, PartialEq, Eq)]
pub enum TakeFail {
    /// It is refused as a whole.
    Refused(PageRefusal),
    DiskFault,
    NoMemory,
}

impl From<PageFail> for TakeFail {
    ghost use Rattle.std.specs.Prelude.{◌≡◌};
    ghost use Rattle.store_core.specs.Pages.{take_fail_of};

    ghost from_gives = { λ page_fail fail. fail ≡ take_fail_of page_fail };

    fn from(fail: PageFail) -> TakeFail {
        match fail {
            PageFail::Refused(refusal) => TakeFail::Refused(refusal),
            PageFail::NoMemory => TakeFail::NoMemory,
        }
    }
}

impl From<NoMemory> for TakeFail {
    ghost use Rattle.std.specs.Prelude.{◌≡◌};
    ghost use Rattle.store_core.specs.declared.pages.TakeFail.TheVariants.{NoMemory as no_memory};

    ghost from_gives = { λ _ fail. fail ≡ no_memory };

    fn from(_error: NoMemory) -> TakeFail {
        TakeFail::NoMemory
    }
}

/// Adds the record's being taken in for the owner to the events, where it is marked.
fn push_marked(
    events: &mut Vec<Event>,
    alloc: Global,
    owner: u32,
    mark: bool,
    rec: &Record,
) -> Result<(), NoMemory>
    ensures pushed { OnOk result (events_seen events.new.items ≡ events_seen events.old.items ++ cond mark (Taken owner (record_seen rec.now) ∷ []) []) }
    ensures few { OnOk result (length events.new.items ≤ length events.old.items + 1) }
{
    if mark {
        let rec = rec.copy(alloc)?;
        events.push(Event::Taken { owner, rec })?;
    }
    Ok(())
}

/// The marked records, each as an event of its being taken in for the owner.
fn taken_events(
    alloc: Global,
    owner: u32,
    page: &[Record],
    marks: &[bool],
) -> Result<Vec<Event>, NoMemory>
    requires { length marks.now ≡ length page.now }
    ensures events { IfOk result (λ events. events_seen events.items ≡ map (Taken owner) (chosen marks.now (records_seen page.now))) }
    ensures few { IfOk result (λ events. length events.items ≤ length page.now) }
{
    let mut events = Vec::new(alloc);
    for at in 0..page.len() {
        push_marked(&mut events, alloc, owner, marks[at], &page[at])?;
    }
    Ok(events)
}

impl<D: Disk> Store<D> {
    /// What the page adds for the owner, where nothing is in doubt.
    ///
    /// # Errors
    ///
    /// [`PageFail::Refused`], [`PageFail::NoMemory`].
    fn fresh_events(
        &self,
        alloc: Global,
        owner: u32,
        page: &[Record],
    ) -> Result<Vec<Event>, PageFail>
        ensures grows { (journal : List Entry) → IsStoreOf self.now journal [] → Grows result journal owner (records_seen page.now) }
        ensures few { IfOk result (λ events. length events.items ≤ 100) }
    {
        let marks = check_page(alloc, self.tables.entries.index(), owner, page)?;
        Ok(taken_events(alloc, owner, page, marks.as_slice())?)
    }

    /// Takes the page where nothing is in doubt.
    fn take_settled(
        &mut self,
        alloc: Global,
        caller: Caller,
        owner: u32,
        page: &[Record],
    ) -> Result<u32, TakeFail>
        requires means { (journal : List Entry) × IsStoreOf self.old journal [] }
        requires settled { self.old.doubt ≡ None }
        ensures takes { TakesPage self.old self.new (caller_seen caller) owner (records_seen page.now) (page_answer_seen result) }
        ensures counted { result ≡ Err disk_fault → Rose self.old.log.disk.faults self.new.log.disk.faults }
        ensures kept { self.old.log.disk.faults ≤ self.new.log.disk.faults }
        ensures host { self.new.log.host ≡ self.old.log.host }
        ensures key { self.new.key ≡ self.old.key }
    {
        let events = self.fresh_events(alloc, owner, page)?;
        if events.is_empty() {
            return Ok(0);
        }
        let added = events.len() as u32;
        let (batch, bytes) = self.ready(alloc, caller, events)?;
        match self.commit(batch, bytes) {
            Ok(()) => Ok(added),
            Err(DiskFault) => Err(TakeFail::DiskFault),
        }
    }

    /// Takes a page of records in for the owner, in the caller's call: settles what is in doubt, and adds the records that
    /// are fresh as one batch. The number of those, 0 to 100; where it is 0 no batch is written.
    ///
    /// # Errors
    ///
    /// [`TakeFail::Refused`], once all is settled: nothing of the page is taken. [`TakeFail::DiskFault`], where the disk's
    /// count rose: what was in doubt still is, or the batch is lost, or it is in doubt. [`TakeFail::NoMemory`]: nothing of
    /// the page is taken.
    pub fn take_page(
        &mut self,
        alloc: Global,
        caller: Caller,
        owner: u32,
        page: &[Record],
    ) -> Result<u32, TakeFail>
        requires { (journal : List Entry) × (doubt : List Entry) × IsStoreOf self.old journal doubt }
        ensures takes { TakesPage self.old self.new (caller_seen caller) owner (records_seen page.now) (page_answer_seen result) }
        ensures counted { result ≡ Err disk_fault → Rose self.old.log.disk.faults self.new.log.disk.faults }
        ensures kept { self.old.log.disk.faults ≤ self.new.log.disk.faults }
        ensures host { self.new.log.host ≡ self.old.log.host }
        ensures key { self.new.key ≡ self.old.key }
    {
        match self.settle() {
            Ok(()) => {}
            Err(DiskFault) => return Err(TakeFail::DiskFault),
        }
        self.take_settled(alloc, caller, owner, page)
    }

    /// The records of the owner's chain of this host and tag, from the idx `start` on: at most `count` and at most 100, as
    /// many as weigh at most 4,194,304 bytes together. A batch in doubt doesn't show, and nothing is settled.
    ///
    /// # Errors
    ///
    /// [`ReadFail::DiskFault`], where the disk's count rose; [`ReadFail::NoMemory`]. The store stays as it was.
    pub fn page(
        &mut self,
        alloc: Global,
        owner: u32,
        host: u128,
        tag: &[u8],
        start: u64,
        count: u32,
    ) -> Result<Vec<Record>, ReadFail>
        requires { (journal : List Entry) × (doubt : List Entry) × IsStoreOf self.old journal doubt }
        ensures page { (journal doubt : List Entry) → IsStoreOf self.old journal doubt → TellsPage self.old.log result journal owner host tag.now start count }
        ensures short { IfOk result (λ records. length records.items ≤ most_page_records) }
        ensures light { IfOk result (λ records. page_weight (records_seen records.items) ≤ most_page_weight) }
        ensures same { (journal doubt : List Entry) → IsStoreOf self.old journal doubt → IsStoreOf self.new journal doubt }
        ensures rests { LogRests self.old.log self.new.log }
        ensures beside { self.new ≡ record self.old { log = self.new.log } }
        ensures cause { ReadCause result self.old.log.disk self.new.log.disk }
    {
        let index = self.tables.entries.index();
        read_page(alloc, &mut self.log, index, owner, host, tag, start, count)
    }
}
