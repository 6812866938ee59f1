//! A log in the old form that is copied to a new one.

ghost use Rattle.std.specs.Prelude.{◌≡◌, MatchResult};
ghost use Rattle.at_edge.specs.Storing.{Rests};
ghost use Rattle.commands.specs.Migrating.{not_opened, not_made, not_copied, status_of_migrate, MakesCopy, StopsCopy, PrintsCount, Migrates};

use at_edge::{Disk, Sink, WriteFault, write_all};
use plain_types::NoMemory;
use printing::entries_text;
use record_log::{CopyFail, CreateFail, OldFail, OldLog, RecordLog, copy_log};
use statuses::Status;
use std::alloc::Global;

/// Why an old log wasn't copied, or the number of its entries wasn't printed.
#[derive(Clone, Copy, Debug, PartialEq, Eq)]
pub enum MigrateFail {
    /// The first disk doesn't begin with the header of an old log.
    NotOld,
    /// The batch at this offset of the first disk is the first that is no good one.
    Damaged { offset: u64 },
    /// The second disk has this many bytes, at least one.
    NotEmpty { len: u64 },
    /// A call of the first disk failed.
    OldFault,
    /// A call of the second disk failed, before its log was made.
    MakeFault,
    /// A call of the second disk failed, after its log was made.
    CopyFault,
    /// A write to the sink failed.
    SinkFault,
    /// Memory ran out.
    NoMemory,
}

impl MigrateFail {
    /// What the program's status tells of it.
    pub fn status(self) -> Status
        ensures { result ≡ status_of_migrate self }
    {
        match self {
            MigrateFail::NotOld | MigrateFail::NotEmpty { .. } => Status::WrongDisk,
            MigrateFail::Damaged { .. } => Status::DamagedLog,
            MigrateFail::OldFault | MigrateFail::MakeFault | MigrateFail::CopyFault => {
                Status::DiskFault
            }
            MigrateFail::SinkFault => Status::SinkFault,
            MigrateFail::NoMemory => Status::NoMemory,
        }
    }
}

/// How `migrate` ended.
#[derive(Drop)]
pub struct Migrated<D, E> {
    pub result: Result<(), MigrateFail>,
    /// The first disk that was handed in.
    pub disk: D,
    /// The second one.
    pub second: E,
}

fn not_opened(fail: OldFail) -> MigrateFail
    ensures { result ≡ not_opened fail }
{
    match fail {
        OldFail::NotOld => MigrateFail::NotOld,
        OldFail::Damaged { offset } => MigrateFail::Damaged { offset },
        OldFail::DiskFault => MigrateFail::OldFault,
        OldFail::NoMemory => MigrateFail::NoMemory,
    }
}

fn not_made(fail: CreateFail) -> MigrateFail
    ensures { result ≡ not_made fail }
{
    match fail {
        CreateFail::NotEmpty { len } => MigrateFail::NotEmpty { len },
        CreateFail::DiskFault => MigrateFail::MakeFault,
        CreateFail::NoMemory => MigrateFail::NoMemory,
    }
}

fn not_copied(fail: CopyFail) -> MigrateFail
    ensures { result ≡ not_copied fail }
{
    match fail {
        CopyFail::OldFault => MigrateFail::OldFault,
        CopyFail::NewFault => MigrateFail::CopyFault,
        CopyFail::NoMemory => MigrateFail::NoMemory,
    }
}

/// Makes a new log of the old one's host on the second disk, and copies all batches to it. It gives the number of entries,
/// and the second disk.
fn copy_to<D: Disk, E: Disk>(
    alloc: Global,
    old: &mut OldLog<D>,
    second: E,
) -> Result<(u64, E), (MigrateFail, E)>
    ensures rests { Rests old.old.disk old.new.disk }
    ensures copies { MatchResult result (λ made. MakesCopy made.0 old.old (E.disk second) (E.disk made.1)) (λ e. StopsCopy e.0 old.old old.new.disk (E.disk second) (E.disk e.1)) }
{
    let mut new = match RecordLog::create(second, old.host()) {
        Ok(new) => new,
        Err((fail, second)) => return Err((not_made(fail), second)),
    };
    match copy_log(alloc, old, &mut new) {
        Ok(count) => Ok((count, new.into_disk())),
        Err(fail) => Err((not_copied(fail), new.into_disk())),
    }
}

/// Prints how many entries were copied.
fn print_count<K: Sink>(alloc: Global, sink: &mut K, count: u64) -> Result<(), MigrateFail>
    ensures { PrintsCount result (K.sink sink.old) (K.sink sink.new) count }
{
    let text = match entries_text(alloc, count) {
        Ok(text) => text,
        Err(NoMemory) => return Err(MigrateFail::NoMemory),
    };
    match write_all(sink, text.as_slice()) {
        Ok(()) => Ok(()),
        Err(WriteFault) => Err(MigrateFail::SinkFault),
    }
}

/// Copies the log in the old form that the first disk shows to a new one of the same host on the second, which has to be
/// empty, and prints the word `entries`, a space, their number, a LF. The first disk is only read, and no key is needed. The
/// second disk then holds the log of the journal that the first one shows.
///
/// # Errors
///
/// [`MigrateFail::NotOld`] and [`MigrateFail::Damaged`] exactly where the first disk shows no good old log, and
/// [`MigrateFail::NotEmpty`] exactly where it does and the second disk isn't empty: the second is left alone then.
/// [`MigrateFail::OldFault`], [`MigrateFail::MakeFault`], [`MigrateFail::CopyFault`] and [`MigrateFail::SinkFault`] only
/// where the count of that disk or of the sink rose; [`MigrateFail::NoMemory`]. After a fault of the second disk that came
/// before its log was made it may have a part of the log's header. Else it is as it was, or it holds the log of the first
/// batches or of all; only after [`MigrateFail::CopyFault`] one batch more may come to stand.
pub fn migrate<D: Disk, E: Disk, K: Sink>(
    alloc: Global,
    disk: D,
    second: E,
    sink: &mut K,
) -> Migrated<D, E>
    ensures { Migrates result.result (D.disk disk) (D.disk result.disk) (E.disk second) (E.disk result.second) (K.sink sink.old) (K.sink sink.new) }
{
    let mut old = match OldLog::open_on(alloc, disk) {
        Ok(old) => old,
        Err((fail, disk)) => {
            return Migrated {
                result: Err(not_opened(fail)),
                disk,
                second,
            };
        }
    };
    match copy_to(alloc, &mut old, second) {
        Ok((count, second)) => Migrated {
            result: print_count(alloc, sink, count),
            disk: old.into_disk(),
            second,
        },
        Err((fail, second)) => Migrated {
            result: Err(fail),
            disk: old.into_disk(),
            second,
        },
    }
}
