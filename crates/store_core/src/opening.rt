//! The store of a log that stands on a disk already. Its batches are read once more, and what each says is kept.
//!
//! A disk that doesn't tell may give other bytes than those that were checked when the log was opened. So each event is
//! checked again before it is kept, and one that may not come next is answered as a fault of that disk.

ghost use Rattle.std.specs.Prelude.{◌≡◌, ◌<◌, ◌^◌, List, length, None, IfOk, MatchResult};
ghost use Rattle.record_rules.specs.Records as said;
ghost use Rattle.log_rules.specs.Opened.{opened_journal};
ghost use Rattle.record_model.specs.Seen.{events_seen};
ghost use Rattle.at_edge.specs.Storing.{Rests};
ghost use Rattle.chain_index.specs.Meaning.{Filed};
ghost use Rattle.log_check.specs.Checking.{IsChecked};
ghost use Rattle.record_log.specs.Journals.{HasJournal};
ghost use Rattle.record_log.specs.Reading.{ReadCause};
ghost use Rattle.record_log.specs.Opening.{LeavesNoMore, OpenCause};
ghost use Rattle.store_core.specs.Opening.{ChecksAll, KeepsSoFar, KeepsBatch, WalksTo, WalksOn, GoesOnwards, KeepsLog, OpensStore};

use crate::store::Store;
use at_edge::Disk;
use journal_check::JournalCheck;
use plain_types::NoMemory;
use record_log::{OpenFail, ReadFail, RecordLog, Spot};
use record_model::{Caller, Event};
use std::alloc::Global;
use store_tables::Tables;

/// The offset of a log's first gate.
const FIRST_GATE: u64 = 32;

/// The caller of each entry of a log that is opened. A log doesn't say whose calls its entries came by.
const NOBODY: Caller = Caller {
    number: 0,
    call: 0,
    settled_for: 0,
};

/// Whether these events may come next, one after the other. Where they may, what is checked is of them too.
///
/// # Errors
///
/// [`NoMemory`]. What was checked is then of no journal.
fn check_all(alloc: Global, check: &mut JournalCheck, events: &[Event]) -> Result<bool, NoMemory>
    ensures checks { (before : List said.Event) → IsChecked check.old before → ChecksAll result check.old.host before (events_seen events.now) check.new }
    ensures host { check.new.host ≡ check.old.host }
{
    for event in events {
        match check.take(alloc, event) {
            Ok(true) => {}
            Ok(false) => return Ok(false),
            Err(fail) => return Err(fail),
        }
    }
    Ok(true)
}

/// Keeps a batch of these events, which stands at this spot, if they may come next.
///
/// # Errors
///
/// [`NoMemory`]. What is kept is then of no use.
fn keep_batch(
    alloc: Global,
    key: &Option<[u8; 32]>,
    tables: &mut Tables,
    check: &mut JournalCheck,
    events: Vec<Event>,
    spot: Spot,
) -> Result<bool, NoMemory>
    requires few { length events.items < 2 ^ 32 }
    requires kept { (before : List said.Event) × (filed : List Filed) × KeepsSoFar key.now tables.old check.old before filed }
    ensures keeps { (before : List said.Event) (filed : List Filed) → KeepsSoFar key.now tables.old check.old before filed → KeepsBatch result key.now tables.new check.old.host check.new before filed (events_seen events.items) spot }
    ensures host { check.new.host ≡ check.old.host }
{
    match check_all(alloc, check, events.as_slice()) {
        Ok(true) => {}
        Ok(false) => return Ok(false),
        Err(fail) => return Err(fail),
    }
    match tables.ready(alloc, key, NOBODY, events) {
        Ok(batch) => {
            tables.add(batch, spot);
            Ok(true)
        }
        Err(fail) => Err(fail),
    }
}

/// Keeps the batch whose gate stands at this offset of the log, and gives the offset of the next gate. `None` comes
/// where the gate is the closed one, and all that the log says is kept.
///
/// # Errors
///
/// [`ReadFail::DiskFault`], where the disk's count rose; [`ReadFail::NoMemory`].
fn keep_next<D: Disk>(
    alloc: Global,
    log: &mut RecordLog<D>,
    key: &Option<[u8; 32]>,
    tables: &mut Tables,
    check: &mut JournalCheck,
    offset: u64,
) -> Result<Option<u64>, ReadFail>
    requires { (events : List said.Event) × WalksTo log.old key.now events offset tables.old check.old }
    ensures walks { (events : List said.Event) → WalksTo log.old key.now events offset tables.old check.old → WalksOn result log.new key.now events tables.new check.new }
    ensures onwards { IfOk result (GoesOnwards log.old.gate offset) }
    ensures rests { Rests log.old.disk log.new.disk }
    ensures cause { ReadCause result log.old.disk log.new.disk }
    ensures host { log.new.host ≡ log.old.host }
    ensures gate { log.new.gate ≡ log.old.gate }
{
    match log.batch_at(alloc, offset) {
        Ok(None) => Ok(None),
        Ok(Some((events, spot, next))) => {
            match keep_batch(alloc, key, tables, check, events, spot) {
                Ok(true) => Ok(Some(next)),
                Ok(false) => {
                    log.disown();
                    Err(ReadFail::DiskFault)
                }
                Err(_) => Err(ReadFail::NoMemory),
            }
        }
        Err(fail) => Err(fail),
    }
}

/// What is to be kept of a log, all by nobody: its batches are read one by one.
///
/// # Errors
///
/// [`ReadFail::DiskFault`], where the disk's count rose; [`ReadFail::NoMemory`].
fn keep_log<D: Disk>(
    alloc: Global,
    log: &mut RecordLog<D>,
    key: &Option<[u8; 32]>,
) -> Result<Tables, ReadFail>
    requires { (events : List said.Event) × HasJournal log.old (opened_journal events) }
    ensures keeps { IfOk result (λ tables. (events : List said.Event) → HasJournal log.old (opened_journal events) → KeepsLog log.new key.now tables events) }
    ensures rests { Rests log.old.disk log.new.disk }
    ensures cause { ReadCause result log.old.disk log.new.disk }
    ensures host { log.new.host ≡ log.old.host }
{
    let mut tables = Tables::new(alloc);
    let mut check = JournalCheck::new(alloc, log.host());
    let mut offset = FIRST_GATE;
    'batches: loop {
        match keep_next(alloc, log, key, &mut tables, &mut check, offset) {
            Ok(None) => return Ok(tables),
            Ok(Some(next)) => offset = next,
            Err(fail) => return Err(fail),
        }
    }
}

impl<D: Disk> Store<D> {
    /// The store of the log that stands on a disk, with this key or none. It is of the journal that the log stands for,
    /// each entry by nobody, and nothing is in doubt. The disk is synced and read, and nothing is written to it.
    ///
    /// # Errors
    ///
    /// The disk comes back. [`OpenFail::NotALog`] exactly where it begins with no log's header; [`OpenFail::OldLog`]
    /// exactly where it begins with that of an older one; [`OpenFail::Damaged`] exactly where the batch at that offset
    /// is the first that is no good one; [`OpenFail::DiskFault`] only where its count of faults rose;
    /// [`OpenFail::NoMemory`].
    pub fn open_on(alloc: Global, disk: D, key: Option<[u8; 32]>) -> Result<Self, (OpenFail, D)>
        ensures opens { MatchResult result (λ store. OpensStore (D.disk disk) store) (λ e. OpenCause e.0 (D.disk disk) (D.disk e.1)) }
        ensures settled { IfOk result (λ store. store.doubt ≡ None) }
        ensures key { IfOk result (λ store. store.key ≡ key) }
        ensures crash { MatchResult result (λ store. LeavesNoMore (D.disk disk).history store.log.disk.history) (λ e. LeavesNoMore (D.disk disk).history (D.disk e.1).history) }
        ensures silent { (D.disk disk).history ≡ None → IfOk result (λ store. store.log.disk.history ≡ None) }
    {
        let mut log = match RecordLog::open_on(alloc, disk) {
            Ok(log) => log,
            Err(fail) => return Err(fail),
        };
        match keep_log(alloc, &mut log, &key) {
            Ok(tables) => Ok(Store {
                log,
                key,
                tables,
                doubt: None,
            }),
            Err(ReadFail::DiskFault) => Err((OpenFail::DiskFault, log.into_disk())),
            Err(ReadFail::NoMemory) => Err((OpenFail::NoMemory, log.into_disk())),
        }
    }
}
