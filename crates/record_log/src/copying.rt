//! A log in the old form that is copied to a new one.

ghost use Rattle.std.specs.Prelude.{◌≡◌, ◌≤◌, List, [], None, IfOk};
ghost use Rattle.record_rules.specs.Records as kept;
ghost use Rattle.record_model.specs.Seen.{events_seen};
ghost use Rattle.log_rules.specs.Body.{IsBatch};
ghost use Rattle.log_rules.specs.Log.{old_form};
ghost use Rattle.at_edge.specs.Storing.{Tells, Rests};
ghost use Rattle.record_log.specs.Reading.{IsGateIn};
ghost use Rattle.record_log.specs.Journals.{HasJournal};
ghost use Rattle.record_log.specs.OldLogs.{ShowsOld};
ghost use Rattle.record_log.specs.Copying.{CopyCause, SettledBut, TakesBatch, MovesSo, MovesOn, LeavesParts, Copies};

use crate::old_log::OldLog;
use crate::reading::ReadFail;
use crate::record_log::RecordLog;
use at_edge::Disk;
use record_model::Event;
use std::alloc::Global;

/// Why a log wasn't copied to its end.
#[derive(Clone, Copy, Debug, PartialEq, Eq)]
pub enum CopyFail {
    /// The old log's disk failed, or it gave what no disk that tells can have shown.
    OldFault,
    /// The new log's disk failed.
    NewFault,
    /// Memory ran out.
    NoMemory,
}

/// Appends a batch that was read.
fn append_read<E: Disk>(
    alloc: Global,
    into: &mut RecordLog<E>,
    batch: &[Event],
) -> Result<(), CopyFail>
    requires batch { IsBatch (events_seen batch.now) }
    requires settled { into.old.doubt ≡ None }
    ensures takes { TakesBatch into.old into.new result (events_seen batch.now) }
    ensures settled { SettledBut result into.new }
    ensures host { into.new.host ≡ into.old.host }
    ensures kept { into.old.disk.faults ≤ into.new.disk.faults }
    ensures silent { into.old.disk.history ≡ None → into.new.disk.history ≡ None }
{
    let ready = match into.ready_short(alloc, batch) {
        Ok(ready) => ready,
        Err(_) => return Err(CopyFail::NoMemory),
    };
    match into.append(ready) {
        Ok(_) => Ok(()),
        Err(_) => Err(CopyFail::NewFault),
    }
}

/// Appends the batch whose gate stands at this offset of the old log. It gives the number of its events and the offset of the
/// next gate, or `None` where the gate is the closed one.
fn copy_batch<D: Disk, E: Disk>(
    alloc: Global,
    old: &mut OldLog<D>,
    into: &mut RecordLog<E>,
    offset: u64,
) -> Result<Option<(u64, u64)>, CopyFail>
    requires gate { Tells old.old.disk (λ d. IsGateIn old_form old.old.gate offset d.shows) }
    requires settled { into.old.doubt ≡ None }
    ensures moves { MovesSo old.old into.old into.new offset result }
    ensures onward { IfOk result (MovesOn old.old.gate offset) }
    ensures cause { CopyCause result old.old.disk old.new.disk into.old.disk into.new.disk }
    ensures settled { SettledBut result into.new }
    ensures rests { Rests old.old.disk old.new.disk }
    ensures old_host { old.new.host ≡ old.old.host }
    ensures old_gate { old.new.gate ≡ old.old.gate }
    ensures host { into.new.host ≡ into.old.host }
    ensures kept { into.old.disk.faults ≤ into.new.disk.faults }
    ensures silent { into.old.disk.history ≡ None → into.new.disk.history ≡ None }
{
    match old.batch_at(alloc, offset) {
        Ok(Some((events, _, next))) => match append_read(alloc, into, &events) {
            Ok(()) => Ok(Some((events.len() as u64, next))),
            Err(fail) => Err(fail),
        },
        Ok(None) => Ok(None),
        Err(ReadFail::DiskFault) => Err(CopyFail::OldFault),
        Err(ReadFail::NoMemory) => Err(CopyFail::NoMemory),
    }
}

/// Appends each batch of an old log, in order, to a new one of the same host that holds no entry yet, and gives the number of
/// entries. The new log then stands for the journal of the old one, whose disk is only read. One batch is kept at a time.
///
/// # Errors
///
/// The new log has the journal of the first batches then, and a later copy begins anew on another disk: the old log is as it
/// was. [`CopyFail::OldFault`] only where the count of the old log's disk rose; [`CopyFail::NewFault`] only where that of the
/// new one's rose, and only then the new log may be in doubt, about the batch that came next; [`CopyFail::NoMemory`].
pub fn copy_log<D: Disk, E: Disk>(
    alloc: Global,
    old: &mut OldLog<D>,
    into: &mut RecordLog<E>,
) -> Result<u64, CopyFail>
    requires empty { HasJournal into.old [] }
    requires host { into.old.host ≡ old.old.host }
    ensures copies { (events : List kept.Event) → (shown : ShowsOld old.old events) → Copies shown.history.now.shows old.old.gate events into.new result }
    ensures crash { (events : List kept.Event) → (shown : ShowsOld old.old events) → LeavesParts shown.history.now.shows old.old.gate events into.old into.new }
    ensures cause { CopyCause result old.old.disk old.new.disk into.old.disk into.new.disk }
    ensures settled { SettledBut result into.new }
    ensures rests { Rests old.old.disk old.new.disk }
    ensures old_host { old.new.host ≡ old.old.host }
    ensures old_gate { old.new.gate ≡ old.old.gate }
    ensures host { into.new.host ≡ into.old.host }
    ensures kept { into.old.disk.faults ≤ into.new.disk.faults }
    ensures silent { into.old.disk.history ≡ None → into.new.disk.history ≡ None }
{
    let mut offset = old.first_gate();
    let mut entries = 0u64;
    'batches: loop {
        match copy_batch(alloc, old, into, offset) {
            Ok(None) => return Ok(entries),
            Ok(Some((count, next))) => {
                entries = entries.saturating_add(count);
                offset = next;
            }
            Err(fail) => return Err(fail),
        }
    }
}
