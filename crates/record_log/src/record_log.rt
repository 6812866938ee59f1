//! The log: a disk, the host that its header names, the offset of its closed gate, and whether a batch is in doubt.

ghost use Rattle.std.specs.Prelude.{◌≡◌, ◌≢◌, ◌≤◌, ◌<◌, ◌^◌, [], length, Some, None, IsErr, OnOk, OnErr, IfOk, MatchResult, All};
ghost use Rattle.std.specs.Bool.{OnTrue, OnFalse};
ghost use Rattle.definitions.specs.Counts.{Rose};
ghost use Rattle.record_rules.specs.Journal.{EventFits};
ghost use Rattle.log_rules.specs.Body.{body_bytes, IsBatch};
ghost use Rattle.record_model.specs.Seen.{events_seen};
ghost use Rattle.at_edge.specs.Storing.{Rests};
ghost use Rattle.record_log.specs.Journals.{HasJournal, KeepsBelow, Settles, Appends};
ghost use Rattle.record_log.specs.Creating.{HasCause, WasEmpty};
ghost use Rattle.record_log.specs.Opening.{LeavesNoMore, Opened, OpenCause};

use crate::create::{CreateFail, write_first};
use crate::halves::{open_gate, stage};
use crate::opening::{OpenFail, find_log};
use crate::reading::{ReadFail, read_batch_at, read_one};
use crate::ready::Ready;
use crate::spots::Spot;
use at_edge::{Disk, DiskFault};
use log_check::LogForm;
use log_format::{write_batch, write_header};
use plain_types::NoMemory;
use record_model::Event;
use std::alloc::Global;
use std::marker::Model;

/// The bytes behind a gate beside the batch's body: its length, its digest, and the gate itself.
const FIXED_BYTES: u64 = 21;

/// The offset of the first gate.
const FIRST_GATE: u64 = 32;

/// A log on a disk. Contracts see the disk, the host, the offset of the closed gate, and the length of the body of the batch
/// in doubt, where there is one.
#[derive(Drop)]
pub struct RecordLog<D: Disk> {
    disk: D,
    host: u128,
    gate: u64,
    doubt: Option<u32>,
}

impl<D: Disk> Model for RecordLog<D> {
    ghost use Rattle.record_log.specs.Journals.{LogSeen, IsGated};

    ghost Value = { LogSeen };

    ghost view = { λ l. record { disk = D.disk l.disk; host = l.host; gate = l.gate; doubt = l.doubt } };

    ghost invariant = { λ l. IsGated (D.disk l.disk) l.gate l.doubt };
}

impl<D: Disk> RecordLog<D> {
    /// A new log of this host on an empty disk: a header and a closed gate, in one write, and a sync. It stands for the
    /// empty journal.
    ///
    /// # Errors
    ///
    /// The disk comes back. [`CreateFail::NotEmpty`] exactly where its length isn't 0, and then it is as before;
    /// [`CreateFail::DiskFault`] only where its count of faults rose. It takes no memory.
    pub fn create(disk: D, host: u128) -> Result<Self, (CreateFail, D)>
        ensures made { MatchResult result (λ log. HasJournal log [] × (log.host ≡ host)) (λ e. HasCause e.0 (D.disk disk) (D.disk e.1)) }
        ensures empty { IfOk result (λ _. WasEmpty (D.disk disk)) }
        ensures settled { IfOk result (λ log. log.doubt ≡ None) }
        ensures kept { IfOk result (λ log. (D.disk disk).faults ≤ log.disk.faults) }
        ensures silent { (D.disk disk).history ≡ None → IfOk result (λ log. log.disk.history ≡ None) }
    {
        let mut disk = disk;
        match disk.len() {
            Ok(0) => {}
            Ok(len) => return Err((CreateFail::NotEmpty { len }, disk)),
            Err(_) => return Err((CreateFail::DiskFault, disk)),
        }
        match write_first(&mut disk, &write_header(host)) {
            Ok(()) => {}
            Err(_) => return Err((CreateFail::DiskFault, disk)),
        }
        Ok(RecordLog {
            disk,
            host,
            gate: FIRST_GATE,
            doubt: None,
        })
    }

    /// The log that stands on a disk. It syncs first and writes nothing; bodies are read in pieces of at most 65,536 bytes, and
    /// each event is dropped once it was checked. It is the log of the events that the disk shows, and nothing is in doubt.
    ///
    /// # Errors
    ///
    /// The disk comes back. [`OpenFail::NotALog`] exactly where it begins with no log's header, and [`OpenFail::OldLog`] exactly
    /// where it begins with that of an older one; [`OpenFail::Damaged`] exactly where the batch at that offset is the first that
    /// is no good one; [`OpenFail::DiskFault`] only where its count of faults rose; [`OpenFail::NoMemory`].
    pub fn open_on(alloc: Global, disk: D) -> Result<Self, (OpenFail, D)>
        ensures opens { MatchResult result (λ log. Opened (D.disk disk) log) (λ e. OpenCause e.0 (D.disk disk) (D.disk e.1)) }
        ensures settled { IfOk result (λ log. log.doubt ≡ None) }
        ensures crash { MatchResult result (λ log. LeavesNoMore (D.disk disk).history log.disk.history) (λ e. LeavesNoMore (D.disk disk).history (D.disk e.1).history) }
        ensures silent { (D.disk disk).history ≡ None → IfOk result (λ log. log.disk.history ≡ None) }
    {
        let mut disk = disk;
        match disk.sync() {
            Ok(()) => {}
            Err(_) => return Err((OpenFail::DiskFault, disk)),
        }
        match find_log(alloc, &mut disk) {
            Ok((host, gate)) => Ok(RecordLog {
                disk,
                host,
                gate,
                doubt: None,
            }),
            Err(fail) => Err((fail, disk)),
        }
    }

    /// Whether a batch is in doubt.
    pub fn in_doubt(&self) -> bool
        ensures doubt { OnTrue result (self.now.doubt ≢ None) }
        ensures settled { OnFalse result (self.now.doubt ≡ None) }
    {
        match self.doubt {
            Some(_) => true,
            None => false,
        }
    }

    /// The host that the header names.
    pub fn host(&self) -> u128
        ensures { result ≡ self.now.host }
    {
        self.host
    }

    /// The disk, of which the log is no longer.
    pub fn into_disk(self) -> D
        ensures { D.disk result ≡ self.disk }
    {
        self.disk
    }

    /// Counts a fault of the disk, for a caller that read what no disk that tells can have shown. All else stays.
    pub fn disown(&mut self) -> DiskFault
        requires { self.old.disk.history ≡ None }
        ensures rests { Rests self.old.disk self.new.disk }
        ensures counted { Rose self.old.disk.faults self.new.disk.faults }
        ensures host { self.new.host ≡ self.old.host }
        ensures gate { self.new.gate ≡ self.old.gate }
        ensures doubt { self.new.doubt ≡ self.old.doubt }
    {
        self.disk.disown()
    }
}

impl<D: Disk> RecordLog<D> {
    /// The bytes of a batch of 1 to 100 events, each within its limits, to be appended next.
    ///
    /// # Errors
    ///
    /// [`NoMemory`].
    pub fn ready(&self, alloc: Global, batch: &[Event]) -> Result<Ready, NoMemory>
        requires some { 1 ≤ length batch.now }
        requires few { length batch.now ≤ 100 }
        requires fit { All EventFits (events_seen batch.now) }
        ensures placed { IfOk result (λ ready. ready.offset ≡ self.now.gate) }
        ensures body { IfOk result (λ ready. ready.body ≡ body_bytes (events_seen batch.now)) }
        ensures batch { IfOk result (λ _. IsBatch (events_seen batch.now)) }
    {
        self.ready_short(alloc, batch)
    }

    /// The same of a batch whose body has fewer than 2^32 bytes.
    ///
    /// # Errors
    ///
    /// [`NoMemory`].
    pub(crate) fn ready_short(&self, alloc: Global, batch: &[Event]) -> Result<Ready, NoMemory>
        requires some { 1 ≤ length batch.now }
        requires few { length batch.now ≤ 100 }
        requires short { length (body_bytes (events_seen batch.now)) < 2 ^ 32 }
        ensures placed { IfOk result (λ ready. ready.offset ≡ self.now.gate) }
        ensures body { IfOk result (λ ready. ready.body ≡ body_bytes (events_seen batch.now)) }
        ensures batch { IfOk result (λ _. IsBatch (events_seen batch.now)) }
    {
        let body = write_batch(alloc, batch)?;
        Ready::new(alloc, self.gate, body.as_slice())
    }

    /// Appends a batch that was made ready at this gate, and says where it stands. It takes no memory.
    ///
    /// # Errors
    ///
    /// [`DiskFault`], where the disk's count rose. The batch is then in doubt where the gate's write had begun; else it is
    /// dropped, and the log is as before.
    pub fn append(&mut self, batch: Ready) -> Result<Spot, DiskFault>
        requires settled { self.old.doubt ≡ None }
        requires placed { batch.offset ≡ self.old.gate }
        ensures appends { Appends self.old self.new result batch }
        ensures spot { IfOk result (λ spot. (spot.offset ≡ self.old.gate) × (spot.count ≡ length batch.body)) }
        ensures done { OnOk result (self.new.doubt ≡ None) }
        ensures counted { IsErr result → Rose self.old.disk.faults self.new.disk.faults }
        ensures kept { self.old.disk.faults ≤ self.new.disk.faults }
        ensures below { KeepsBelow self.old.gate self.old.disk.history self.new.disk.history }
        ensures silent { self.old.disk.history ≡ None → self.new.disk.history ≡ None }
        ensures host { self.new.host ≡ self.old.host }
        ensures gate { self.old.gate ≤ self.new.gate }
    {
        match stage(&mut self.disk, self.gate, batch.bytes()) {
            Ok(()) => {}
            Err(fault) => return Err(fault),
        }
        self.doubt = Some(batch.count());
        self.settle()
    }

    /// Opens the gate before the batch in doubt once more, and syncs, and says where the batch stands. It takes no memory.
    ///
    /// # Errors
    ///
    /// [`DiskFault`], where the disk's count rose. The batch is still in doubt then.
    pub fn settle(&mut self) -> Result<Spot, DiskFault>
        requires { self.old.doubt ≢ None }
        ensures settles { Settles self.old self.new result }
        ensures spot { IfOk result (λ spot. (spot.offset ≡ self.old.gate) × (Some spot.count ≡ self.old.doubt)) }
        ensures settled { OnOk result (self.new.doubt ≡ None) }
        ensures doubt { OnErr result (self.new.doubt ≡ self.old.doubt) }
        ensures counted { IsErr result → Rose self.old.disk.faults self.new.disk.faults }
        ensures kept { self.old.disk.faults ≤ self.new.disk.faults }
        ensures below { KeepsBelow self.old.gate self.old.disk.history self.new.disk.history }
        ensures silent { self.old.disk.history ≡ None → self.new.disk.history ≡ None }
        ensures host { self.new.host ≡ self.old.host }
        ensures gate { self.old.gate ≤ self.new.gate }
    {
        let Some(count) = self.doubt else {
            unreachable!()
        };
        match open_gate(&mut self.disk, self.gate) {
            Ok(()) => {}
            Err(fault) => return Err(fault),
        }
        let offset = self.gate;
        let behind = offset.saturating_add(FIXED_BYTES);
        let next = behind.saturating_add(u64::from(count));
        self.gate = next;
        self.doubt = None;
        Ok(Spot { offset, count })
    }
}

impl<D: Disk> RecordLog<D> {
    ghost use Rattle.at_edge.specs.Storing.{Tells};
    ghost use Rattle.record_model.specs.Seen.{event_seen};
    ghost use Rattle.record_log.specs.Reading.{SomeEvent, EventBefore, IsGate, FindsBatch, GivesWhole, ReadCause};

    /// The event at this place in the batch at a spot of this log.
    ///
    /// # Errors
    ///
    /// [`ReadFail::DiskFault`], where the disk's count rose; [`ReadFail::NoMemory`].
    pub fn read_event(&mut self, alloc: Global, spot: Spot, at: u32) -> Result<Event, ReadFail>
        requires { Tells self.old.disk (λ d. SomeEvent self.old.gate d.shows spot at) }
        ensures event { IfOk result (λ event. Tells self.old.disk (λ d. EventBefore self.old.gate d.shows spot at (event_seen event))) }
        ensures rests { Rests self.old.disk self.new.disk }
        ensures cause { ReadCause result self.old.disk self.new.disk }
        ensures host { self.new.host ≡ self.old.host }
        ensures gate { self.new.gate ≡ self.old.gate }
        ensures doubt { self.new.doubt ≡ self.old.doubt }
    {
        read_one(alloc, &mut self.disk, self.gate, spot, at)
    }

    /// The batch whose gate stands at this offset, where it stands, and the offset of the next gate. `None` comes exactly
    /// where the gate there is the closed one.
    ///
    /// # Errors
    ///
    /// [`ReadFail::DiskFault`], where the disk's count rose; [`ReadFail::NoMemory`].
    pub fn batch_at(
        &mut self,
        alloc: Global,
        offset: u64,
    ) -> Result<Option<(Vec<Event>, Spot, u64)>, ReadFail>
        requires settled { self.old.doubt ≡ None }
        requires gate { Tells self.old.disk (λ d. IsGate self.old.gate offset d.shows) }
        ensures batch { IfOk result (λ found. FindsBatch self.old.gate offset self.old.disk found) }
        ensures whole { IfOk result (λ found. GivesWhole self.old.gate offset found) }
        ensures rests { Rests self.old.disk self.new.disk }
        ensures cause { ReadCause result self.old.disk self.new.disk }
        ensures host { self.new.host ≡ self.old.host }
        ensures gate { self.new.gate ≡ self.old.gate }
        ensures doubt { self.new.doubt ≡ None }
    {
        if offset == self.gate {
            return Ok(None);
        }
        match read_batch_at(alloc, &mut self.disk, LogForm::Current, self.gate, offset) {
            Ok((events, spot, next)) => Ok(Some((events, spot, next))),
            Err(fail) => Err(fail),
        }
    }
}
