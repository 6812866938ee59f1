//! The words for a disk: what it shows, what a crash now may leave, and what a crash since a moment may
//! have left (`Disk`); what a write and a sync do to it, also where they fail or are cut short (`Calls`);
//! the moments that it went through, and what holds of each image since one of them (`History`); how a
//! batch is appended so that one byte decides, and when one is in doubt or none is (`Append`); and the laws
//! that hold of these words alone.
//!
//! A disk is seen as the bytes of its last sync that succeeded, the ranges that were written since, and
//! what reads give. Until the next sync that succeeds, a crash may leave any bytes in those ranges and
//! past the synced end, and leaves all others. A write that failed may have done nothing at all, or any
//! part of what it was to do.
//!
//! Each function has an empty body, and its contract is the law that its name says. The crate stands on
//! no other one.
#![tactic(auto)]

ghost use Rattle.disk_rules.specs.Laws.{ShowsIsLeft, CallsKeepDisk, SyncLeavesShown, FailedSyncLeavesAll, WritesStayInRange, WritesMayBeLost, SinceGrows, SinceEarlier, SinceNow, SinceParts, RestIsSettled, BehindGateIsSettled, StagingStaysSettled, AppendIsAllOrNothing, AppendIsKept, AppendEndsSettled, AppendIsSettledOrInDoubt, StagedIsInDoubt, DoubtStays, SettleIsAllOrNothing, SettleIsKept, SettleEndsSettled, CallsMakeDisk};
ghost use Rattle.disk_rules.specs.Examples.{WorkedDisk, WorkedCalls, WorkedAppend};
ghost use Rattle.disk_rules.specs.Retries.{WorkedRetry};

/// What a disk shows is one of the bytes that a crash now may leave.
pub fn shows_is_left()
    ensures { ShowsIsLeft }
{}

/// Each call keeps what holds of a disk, whether it succeeds, fails, or is under way.
pub fn calls_keep_disk()
    ensures { CallsKeepDisk }
{}

/// After a sync that succeeded only what is shown is left, and the disk shows what it showed before.
pub fn sync_leaves_shown()
    ensures { SyncLeavesShown }
{}

/// A sync that failed changes neither what is shown nor what may be left.
pub fn failed_sync_leaves_all()
    ensures { FailedSyncLeavesAll }
{}

/// A write touches no byte outside its range in any image, whether it succeeds, fails, or is under way:
/// what all images had there before, all have after.
pub fn writes_stay_in_range()
    ensures { WritesStayInRange }
{}

/// What might have been left before a write may be left after it, since it may not have reached the
/// disk.
pub fn writes_may_be_lost()
    ensures { WritesMayBeLost }
{}

/// A history that goes on may have left all that it may have left before.
pub fn since_grows()
    ensures { SinceGrows }
{}

/// What may have been left since a moment may have been left since an earlier one.
pub fn since_earlier()
    ensures { SinceEarlier }
{}

/// Since the newest moment there is exactly what a crash now may leave.
pub fn since_now()
    ensures { SinceNow }
{}

/// What a history of two parts may have left since a moment, the later part may have left, or the earlier
/// one since that moment, where it has that moment. So since the first moment of the later part there is
/// what that part may have left.
pub fn since_parts()
    ensures { SinceParts }
{}

/// A log at rest is settled: what a crash leaves begins with the log up to its closed gate.
pub fn rest_is_settled()
    ensures { RestIsSettled }
{}

/// A log is settled too where that much was synced, and each range that was written since begins behind
/// the gate.
pub fn behind_gate_is_settled()
    ensures { BehindGateIsSettled }
{}

/// A settled log stays settled at each moment of an append until its gate is written. So it is after an
/// append whose first write failed, or whose first sync failed, and the next append may begin there.
pub fn staging_stays_settled()
    ensures { StagingStaysSettled }
{}

/// At each moment of an append to a settled log, also within a call and after one that failed, every
/// image is the old log up to its closed gate, or the log with the batch behind an open gate.
pub fn append_is_all_or_nothing()
    ensures { AppendIsAllOrNothing }
{}

/// After an append whose four calls succeeded, every image is the log with the batch.
pub fn append_is_kept()
    ensures { AppendIsKept }
{}

/// After such an append the disk is at rest, and the log is settled behind a prefix that has the batch.
pub fn append_ends_settled()
    ensures { AppendEndsSettled }
{}

/// At each moment of an append to a settled log, it is settled as before, or the batch is in doubt, or the
/// log is settled with the batch.
pub fn append_is_settled_or_in_doubt()
    ensures { AppendIsSettledOrInDoubt }
{}

/// With its first two calls done an append is in doubt: the batch stands synced behind the closed gate.
pub fn staged_is_in_doubt()
    ensures { StagedIsInDoubt }
{}

/// It stays in doubt where the write of the gate fails, or the sync behind it, however often.
pub fn doubt_stays()
    ensures { DoubtStays }
{}

/// At each moment of settling a batch in doubt every image is the old log up to its closed gate, or the
/// log with the batch behind an open gate.
pub fn settle_is_all_or_nothing()
    ensures { SettleIsAllOrNothing }
{}

/// After a batch in doubt was settled, every image is the log with the batch.
pub fn settle_is_kept()
    ensures { SettleIsKept }
{}

/// After it was settled the disk is at rest, and the log is settled behind a prefix that has the batch.
pub fn settle_ends_settled()
    ensures { SettleEndsSettled }
{}

/// Whatever calls succeeded, a disk that began with bytes that were synced is a disk.
pub fn calls_make_disk()
    ensures { CallsMakeDisk }
{}

/// One byte written over three, worked out: what a crash may leave before the sync and after it, and
/// since which moment; and the disk after an append.
pub fn worked_disk()
    ensures { WorkedDisk }
{}

/// What is a disk and what may be asked of it, worked out: no byte at rest that wasn't synced, and no
/// write past the end.
pub fn worked_calls()
    ensures { WorkedCalls }
{}

/// An append of one byte behind a log of one byte, worked out: its moments, and what it leaves.
pub fn worked_append()
    ensures { WorkedAppend }
{}

/// An append that failed at its first sync and another one that succeeds, worked out: what a crash may
/// leave between the two, within the second one and after it.
pub fn worked_retry()
    ensures { WorkedRetry }
{}
