//! A log in the old form, which has no digests. It is only read.

ghost use Rattle.std.specs.Prelude.{◌≡◌, None, IfOk, MatchResult};
ghost use Rattle.definitions.specs.Counts.{Rose};
ghost use Rattle.log_rules.specs.Log.{old_form};
ghost use Rattle.at_edge.specs.Storing.{Tells, Rests};
ghost use Rattle.record_log.specs.Reading.{IsGateIn, FindsOldBatch, GivesWhole, ReadCause};
ghost use Rattle.record_log.specs.OldLogs.{IsOldLogTo, FindsOld, OldCause, OldOpened};

use crate::headers::{Header, read_first};
use crate::opening::PIECE_BYTES;
use crate::reading::{ReadFail, read_batch_at, zeros};
use crate::spots::Spot;
use at_edge::{Disk, DiskFault};
use log_check::{LogForm, WalkFail, find_closed_gate};
use record_model::Event;
use std::alloc::Global;
use std::marker::Model;

/// The offset of the first gate.
const FIRST_GATE: u64 = 32;

/// Why no old log was opened.
#[derive(Clone, Copy, Debug, PartialEq, Eq)]
pub enum OldFail {
    /// The disk doesn't begin with the header of an old log.
    NotOld,
    /// The batch at this offset is the first that is no good one.
    Damaged { offset: u64 },
    /// A call of the disk failed.
    DiskFault,
    /// Memory ran out.
    NoMemory,
}

/// The host of the old log that the disk shows, and the offset of its closed gate.
fn find_old<D: Disk>(alloc: Global, disk: &mut D) -> Result<(u128, u64), OldFail>
    ensures finds { FindsOld result (D.disk disk.old) (D.disk disk.new) }
    ensures rests { Rests (D.disk disk.old) (D.disk disk.new) }
{
    let end = match disk.len() {
        Ok(end) => end,
        Err(_) => return Err(OldFail::DiskFault),
    };
    let host = match read_first(disk, end) {
        Ok(Header::Old { host }) => host,
        Ok(Header::Current { .. }) => return Err(OldFail::NotOld),
        Ok(Header::Neither) => return Err(OldFail::NotOld),
        Err(_) => return Err(OldFail::DiskFault),
    };
    let mut piece = match zeros(alloc, PIECE_BYTES) {
        Ok(piece) => piece,
        Err(_) => return Err(OldFail::NoMemory),
    };
    match find_closed_gate(alloc, disk, &mut piece, LogForm::Old, host, end) {
        Ok(gate) => Ok((host, gate)),
        Err(WalkFail::Damaged { offset }) => Err(OldFail::Damaged { offset }),
        Err(WalkFail::DiskFault) => Err(OldFail::DiskFault),
        Err(WalkFail::NoMemory) => Err(OldFail::NoMemory),
    }
}

/// A log in the old form on a disk. Contracts see the disk, the host, and the offset of the closed gate.
#[derive(Drop)]
pub struct OldLog<D: Disk> {
    disk: D,
    host: u128,
    gate: u64,
}

impl<D: Disk> Model for OldLog<D> {
    ghost use Rattle.at_edge.specs.Storing.{Tells};
    ghost use Rattle.record_log.specs.OldLogs.{OldSeen, IsOldLogTo};

    ghost Value = { OldSeen };

    ghost view = { λ l. record { disk = D.disk l.disk; host = l.host; gate = l.gate } };

    ghost invariant = { λ l. Tells (D.disk l.disk) (λ d. IsOldLogTo l.host l.gate d.shows) };
}

impl<D: Disk> OldLog<D> {
    /// The old log that stands on a disk, of which only reads are made. It is the log of the events that the disk shows.
    ///
    /// # Errors
    ///
    /// The disk comes back. [`OldFail::NotOld`] exactly where it doesn't begin with the header of an old log;
    /// [`OldFail::Damaged`] exactly where the batch at that offset is the first that is no good one; [`OldFail::DiskFault`]
    /// only where its count of faults rose; [`OldFail::NoMemory`].
    pub fn open_on(alloc: Global, disk: D) -> Result<Self, (OldFail, D)>
        ensures opens { MatchResult result (λ log. OldOpened (D.disk disk) log) (λ e. OldCause e.0 (D.disk disk) (D.disk e.1) × Rests (D.disk disk) (D.disk e.1)) }
    {
        let mut disk = disk;
        match find_old(alloc, &mut disk) {
            Ok((host, gate)) => Ok(OldLog { disk, host, gate }),
            Err(fail) => Err((fail, disk)),
        }
    }

    /// The host that the header names.
    pub fn host(&self) -> u128
        ensures { result ≡ self.now.host }
    {
        self.host
    }

    /// The offset of the first gate. Every old log is a sound one, where its disk tells.
    pub(crate) fn first_gate(&self) -> u64
        ensures first { result ≡ 32 }
        ensures log { Tells self.now.disk (λ d. IsOldLogTo self.now.host self.now.gate d.shows) }
    {
        let _ = &self.gate;
        FIRST_GATE
    }

    /// The batch whose gate stands at this offset, where it stands, and the offset of the next gate. `None` comes exactly
    /// where the gate there is the closed one.
    ///
    /// # Errors
    ///
    /// [`ReadFail::DiskFault`], where the disk's count rose; [`ReadFail::NoMemory`].
    pub fn batch_at(
        &mut self,
        alloc: Global,
        offset: u64,
    ) -> Result<Option<(Vec<Event>, Spot, u64)>, ReadFail>
        requires { Tells self.old.disk (λ d. IsGateIn old_form self.old.gate offset d.shows) }
        ensures batch { IfOk result (λ found. FindsOldBatch self.old.gate offset self.old.disk found) }
        ensures whole { IfOk result (λ found. GivesWhole self.old.gate offset found) }
        ensures rests { Rests self.old.disk self.new.disk }
        ensures cause { ReadCause result self.old.disk self.new.disk }
        ensures host { self.new.host ≡ self.old.host }
        ensures gate { self.new.gate ≡ self.old.gate }
    {
        if offset == self.gate {
            return Ok(None);
        }
        match read_batch_at(alloc, &mut self.disk, LogForm::Old, self.gate, offset) {
            Ok((events, spot, next)) => Ok(Some((events, spot, next))),
            Err(fail) => Err(fail),
        }
    }

    /// The disk, of which the log is no longer.
    pub fn into_disk(self) -> D
        ensures { D.disk result ≡ self.disk }
    {
        self.disk
    }

    /// Counts a fault of the disk, for a caller that read what no disk that tells can have shown. All else stays.
    pub fn disown(&mut self) -> DiskFault
        requires { self.old.disk.history ≡ None }
        ensures rests { Rests self.old.disk self.new.disk }
        ensures counted { Rose self.old.disk.faults self.new.disk.faults }
        ensures host { self.new.host ≡ self.old.host }
        ensures gate { self.new.gate ≡ self.old.gate }
    {
        self.disk.disown()
    }
}
