ghost use Rattle.std.specs.Prelude.{◌≡◌, None, length, IfOk, All};
ghost use Rattle.record_rules.specs.Journal.{EventFits};
ghost use Rattle.record_model.specs.Seen.{event_seen, events_seen};
ghost use Rattle.at_edge.specs.DiskViews.{disk_seen};

use super::*;
use at_edge::{FileDisk, MemDisk};
use plain_types::{NoMemory, Text};
use record_model::{Event, Record, Started};
use std::alloc::Global;
use std::fs;
use std::process::Abort;
use std::test::Fail;

/// The 33 bytes of a new log of host 0x018b.., as they were written out.
const NEW_LOG: [u8; 33] = [
    0x41, 0x54, 0x55, 0x4c, 0x4f, 0x47, 0x30, 0x32, 0x01, 0x8b, 0xcf, 0xe5, 0x68, 0x00, 0x70, 0x01,
    0x82, 0x03, 0x04, 0x05, 0x06, 0x07, 0x08, 0x09, 0, 0, 0, 0, 0, 0, 0, 0, 0,
];

const FIRST_ID: u128 = 0x018b_cfe5_6800_7001_8203_0405_0607_0809;

/// The digest of the batch in which `ls` was begun, behind a gate at 32, as Python's `hashlib.blake2b` has it.
const LS_DIGEST: [u8; 16] = [
    0xf7, 0xdf, 0x43, 0x2f, 0x11, 0xae, 0x16, 0x44, 0xa5, 0xc2, 0xb6, 0x25, 0xe7, 0x4d, 0xcf, 0x75,
];

/// The batch in which `ls` is begun in `/`, session `s1`, on `h:u`.
pub(crate) fn ls_begins(alloc: Global) -> Result<Vec<Event>, NoMemory>
    ensures one { IfOk result (λ batch. length batch.items ≡ 1) }
    ensures fit { IfOk result (λ batch. All EventFits (events_seen batch.items)) }
{
    let started = Started {
        id: FIRST_ID,
        timestamp: 1_700_000_000_000_000_000,
        command: Text::copied(alloc, b"ls")?,
        cwd: Text::copied(alloc, b"/")?,
        session: Text::copied(alloc, b"s1")?,
        hostname: Text::copied(alloc, b"h:u")?,
    };
    let mut batch = Vec::new(alloc);
    match batch.push(Event::Started(started)) {
        Ok(()) => Ok(batch),
        Err(_) => Err(NoMemory),
    }
}

/// The batch in which it ended.
pub(crate) fn ls_ends(alloc: Global) -> Result<Vec<Event>, NoMemory>
    ensures one { IfOk result (λ batch. length batch.items ≡ 1) }
    ensures fit { IfOk result (λ batch. All EventFits (events_seen batch.items)) }
{
    let rec = Record {
        id: 0xa1,
        idx: 0,
        host: 1,
        host_name: Text::copied(alloc, b"")?,
        timestamp: 0xa4,
        version: Text::copied(alloc, b"v0")?,
        tag: Text::copied(alloc, b"history")?,
        sealed: Text::copied(alloc, b"s")?,
        wrapped: Text::copied(alloc, b"w")?,
    };
    let mut batch = Vec::new(alloc);
    match batch.push(Event::Local {
        rec,
        closes: Some(FIRST_ID),
    }) {
        Ok(()) => Ok(batch),
        Err(_) => Err(NoMemory),
    }
}

/// A new log of host 1, on a disk whose calls of these numbers fail.
fn new_log<R: Abort>(rt: &R, alloc: Global, failing: Vec<u64>) -> Result<RecordLog<MemDisk>, Fail>
    ensures { IfOk result (λ log. log.doubt ≡ None) }
{
    let disk = MemDisk::new(alloc, Vec::new(alloc), failing)?;
    match RecordLog::create(disk, 1) {
        Ok(log) => Ok(log),
        Err(_) => panic!(rt; "no log was made"),
    }
}

#[test]
fn a_new_log_has_a_header(rt: HostRuntime) -> Result<(), Fail> {
    let alloc = rt.alloc();
    let disk = MemDisk::new(alloc, Vec::new(alloc), Vec::new(alloc))?;
    let Ok(log) = RecordLog::create(disk, FIRST_ID) else {
        assert!(rt; false);
        return Ok(());
    };
    assert!(rt; log.host() == FIRST_ID);
    let disk = log.into_disk();
    assert!(rt; disk.shows() == NEW_LOG.as_slice());
    // Not on a disk that isn't empty.
    let again = RecordLog::create(disk, 1);
    assert!(rt; matches!(&again, Err((CreateFail::NotEmpty { len: 33 }, _))));
    // The write fails, or the sync.
    for number in 1..4 {
        let disk = MemDisk::new(alloc, Vec::new(alloc), vec![in alloc; number; 1]?)?;
        assert!(rt; matches!(&RecordLog::create(disk, 1), Err((CreateFail::DiskFault, _))));
    }
    Ok(())
}

#[test]
fn a_batch_is_appended(rt: HostRuntime) -> Result<(), Fail> {
    let alloc = rt.alloc();
    let mut log = new_log(&rt, alloc, Vec::new(alloc))?;
    let begins = log.ready(alloc, &ls_begins(alloc)?)?;
    assert!(rt;
        log.append(begins)
            == Ok(Spot {
                offset: 32,
                count: 53
            })
    );
    let ends = log.ready(alloc, &ls_ends(alloc)?)?;
    // A body of 4 + 1 + 17 + 79 bytes.
    assert!(rt;
        log.append(ends)
            == Ok(Spot {
                offset: 106,
                count: 101
            })
    );
    let disk = log.into_disk();
    let bytes = disk.shows();
    assert!(rt; bytes.len() == 229);
    assert!(rt; bytes[32] == 1);
    assert!(rt; &bytes[33..37] == [0, 0, 0, 0x35].as_slice());
    assert!(rt; &bytes[90..106] == LS_DIGEST.as_slice());
    assert!(rt; bytes[106] == 1);
    assert!(rt; bytes[228] == 0);
    Ok(())
}

#[test]
fn a_batch_in_doubt_is_settled(rt: HostRuntime) -> Result<(), Fail> {
    let alloc = rt.alloc();
    // Calls 1 to 3 make the log, 4 to 7 are an append. The sync behind the next one's gate fails, and the first settling.
    let mut log = new_log(&rt, alloc, vec![in alloc; 11, 13]?)?;
    let begins = log.ready(alloc, &ls_begins(alloc)?)?;
    assert!(rt; log.append(begins).is_ok());
    assert!(rt; !log.in_doubt());
    let ends = log.ready(alloc, &ls_ends(alloc)?)?;
    assert!(rt; log.append(ends).is_err());
    assert!(rt; log.in_doubt());
    assert!(rt; log.settle().is_err());
    assert!(rt; log.in_doubt());
    assert!(rt;
        log.settle()
            == Ok(Spot {
                offset: 106,
                count: 101
            })
    );
    assert!(rt; !log.in_doubt());
    assert!(rt; log.into_disk().shows().len() == 229);
    Ok(())
}

#[test]
fn an_append_that_fails_early_can_be_made_again(rt: HostRuntime) -> Result<(), Fail> {
    let alloc = rt.alloc();
    // The write of the second batch fails, and the sync of the third try.
    let mut log = new_log(&rt, alloc, vec![in alloc; 8, 10]?)?;
    let begins = log.ready(alloc, &ls_begins(alloc)?)?;
    assert!(rt; log.append(begins).is_ok());
    let ends = log.ready(alloc, &ls_ends(alloc)?)?;
    assert!(rt; log.append(ends).is_err());
    assert!(rt; !log.in_doubt());
    let ends = log.ready(alloc, &ls_ends(alloc)?)?;
    assert!(rt; log.append(ends).is_err());
    assert!(rt; !log.in_doubt());
    let ends = log.ready(alloc, &ls_ends(alloc)?)?;
    assert!(rt;
        log.append(ends)
            == Ok(Spot {
                offset: 106,
                count: 101
            })
    );
    Ok(())
}

/// A new log of host 1 on a disk that doesn't tell.
fn silent_log<R: Abort>(rt: &R, alloc: Global) -> Result<RecordLog<MemDisk>, Fail>
    ensures settled { IfOk result (λ log. log.doubt ≡ None) }
    ensures silent { IfOk result (λ log. log.disk.history ≡ None) }
{
    let disk = MemDisk::new(alloc, Vec::new(alloc), Vec::new(alloc))?.silent();
    match RecordLog::create(disk, 1) {
        Ok(log) => Ok(log),
        Err(_) => panic!(rt; "no log was made"),
    }
}

fn is_ls(event: &Event) -> bool {
    match event {
        Event::Started(started) => started.id == FIRST_ID,
        _ => false,
    }
}

/// Whether the event at this place in the batch there is the one that begins `ls`.
fn reads_ls(alloc: Global, log: &mut RecordLog<MemDisk>, spot: Spot, at: u32) -> bool
    requires { log.old.disk.history ≡ None }
    ensures silent { log.new.disk.history ≡ None }
    ensures doubt { log.new.doubt ≡ log.old.doubt }
{
    match log.read_event(alloc, spot, at) {
        Ok(event) => is_ls(&event),
        Err(_) => false,
    }
}

/// The number of events in the batch whose gate stands there, and the offset of the next gate.
fn batch_there(alloc: Global, log: &mut RecordLog<MemDisk>, offset: u64) -> Option<(usize, u64)>
    requires silent { log.old.disk.history ≡ None }
    requires settled { log.old.doubt ≡ None }
    ensures silent { log.new.disk.history ≡ None }
    ensures settled { log.new.doubt ≡ None }
{
    match log.batch_at(alloc, offset) {
        Ok(Some((events, _, next))) => Some((events.as_slice().len(), next)),
        Ok(None) => Some((0, offset)),
        Err(_) => None,
    }
}

#[test]
fn a_batch_is_read_back(rt: HostRuntime) -> Result<(), Fail> {
    let alloc = rt.alloc();
    let mut log = silent_log(&rt, alloc)?;
    let begins = log.ready(alloc, &ls_begins(alloc)?)?;
    let Ok(spot) = log.append(begins) else {
        assert!(rt; false);
        return Ok(());
    };
    assert!(rt; reads_ls(alloc, &mut log, spot, 0));
    assert!(rt; batch_there(alloc, &mut log, 32) == Some((1, 106)));
    assert!(rt; batch_there(alloc, &mut log, 106) == Some((0, 106)));
    // No event stands behind the batch's only one, and none at another spot.
    assert!(rt; !reads_ls(alloc, &mut log, spot, 1));
    let off = Spot {
        offset: 33,
        count: 53,
    };
    assert!(rt; !reads_ls(alloc, &mut log, off, 0));
    assert!(rt; log.disown() == at_edge::DiskFault);
    Ok(())
}

/// Why no log is opened on a disk of these bytes, or `None` where one is.
fn open_fail(alloc: Global, bytes: &[u8]) -> Result<Option<OpenFail>, Fail> {
    let disk = MemDisk::new(alloc, bytes.to_vec(alloc)?, Vec::new(alloc))?;
    match RecordLog::open_on(alloc, disk) {
        Ok(_) => Ok(None),
        Err((fail, _)) => Ok(Some(fail)),
    }
}

/// The same of the new log with this byte in place of the one at `at`.
fn open_fail_with(alloc: Global, at: usize, byte: u8) -> Result<Option<OpenFail>, Fail> {
    let mut bytes = NEW_LOG;
    if at < 33 {
        bytes[at] = byte;
    }
    open_fail(alloc, &bytes)
}

#[test]
fn a_log_is_opened_by_its_header(rt: HostRuntime) -> Result<(), Fail> {
    let alloc = rt.alloc();
    assert!(rt; open_fail(alloc, &NEW_LOG)? == None);
    assert!(rt; open_fail(alloc, &NEW_LOG[..32])? == Some(OpenFail::NotALog));
    assert!(rt; open_fail(alloc, &[])? == Some(OpenFail::NotALog));
    assert!(rt; open_fail_with(alloc, 6, 0x31)? == Some(OpenFail::NotALog));
    assert!(rt; open_fail_with(alloc, 31, 1)? == Some(OpenFail::NotALog));
    assert!(rt; open_fail_with(alloc, 7, 0x31)? == Some(OpenFail::OldLog));
    // A gate that is open before nothing.
    assert!(rt; open_fail_with(alloc, 32, 1)? == Some(OpenFail::Damaged { offset: 32 }));
    // The sync fails, or the length can't be told.
    for number in 1..3 {
        let disk = MemDisk::new(alloc, NEW_LOG.to_vec(alloc)?, vec![in alloc; number; 1]?)?;
        assert!(rt;
            matches!(
                &RecordLog::open_on(alloc, disk),
                Err((OpenFail::DiskFault, _))
            )
        );
    }
    Ok(())
}

/// The log that stands on that disk, which doesn't tell.
fn opened<R: Abort>(rt: &R, alloc: Global, disk: MemDisk) -> Result<RecordLog<MemDisk>, Fail>
    requires { (disk_seen disk).history ≡ None }
    ensures settled { IfOk result (λ log. log.doubt ≡ None) }
    ensures silent { IfOk result (λ log. log.disk.history ≡ None) }
{
    match RecordLog::open_on(alloc, disk) {
        Ok(log) => Ok(log),
        Err(_) => panic!(rt; "no log was opened"),
    }
}

#[test]
fn a_log_is_opened_with_its_batches(rt: HostRuntime) -> Result<(), Fail> {
    let alloc = rt.alloc();
    let mut log = silent_log(&rt, alloc)?;
    let begins = log.ready(alloc, &ls_begins(alloc)?)?;
    assert!(rt; log.append(begins).is_ok());
    let mut log = opened(&rt, alloc, log.into_disk())?;
    assert!(rt; log.host() == 1);
    assert!(rt; batch_there(alloc, &mut log, 32) == Some((1, 106)));
    let ends = log.ready(alloc, &ls_ends(alloc)?)?;
    assert!(rt; log.append(ends).is_ok());
    let mut log = opened(&rt, alloc, log.into_disk())?;
    assert!(rt; batch_there(alloc, &mut log, 106) == Some((1, 228)));
    assert!(rt; batch_there(alloc, &mut log, 228) == Some((0, 228)));
    Ok(())
}

/// How many events the second batch has of a log that is opened after a crash, which left this image of the append of that
/// batch, whose call of that number failed.
fn left_by_crash<R: Abort>(
    rt: &R,
    alloc: Global,
    number: u64,
    pick: u64,
) -> Result<Option<usize>, Fail> {
    let mut log = new_log(rt, alloc, vec![in alloc; number; 1]?)?;
    let begins = log.ready(alloc, &ls_begins(alloc)?)?;
    if log.append(begins).is_err() {
        return Ok(None);
    }
    let ends = log.ready(alloc, &ls_ends(alloc)?)?;
    if log.append(ends).is_ok() {
        return Ok(None);
    }
    let image = log.into_disk().crash(alloc, pick)?.silent();
    let mut log = opened(rt, alloc, image)?;
    match batch_there(alloc, &mut log, 106) {
        Some((count, _)) => Ok(Some(count)),
        None => Ok(None),
    }
}

#[test]
fn a_crash_leaves_a_batch_whole_or_not_at_all(rt: HostRuntime) -> Result<(), Fail> {
    let alloc = rt.alloc();
    // The write of the batch, its sync, and the write of the gate.
    for number in 8..11 {
        for pick in 0..3 {
            assert!(rt; left_by_crash(&rt, alloc, number, pick)? == Some(0));
        }
    }
    // The sync of the gate: it is closed in the first image, open in the second, and torn open in the third.
    assert!(rt; left_by_crash(&rt, alloc, 11, 0)? == Some(0));
    assert!(rt; left_by_crash(&rt, alloc, 11, 1)? == Some(1));
    assert!(rt; left_by_crash(&rt, alloc, 11, 2)? == Some(1));
    Ok(())
}

/// A file that a test makes and removes.
const PATH: &str = "record_log_of_a_test";

#[test]
fn a_file_is_opened_again(rt: HostRuntime) -> Result<(), Fail> {
    let alloc = rt.alloc();
    // A run that stopped in the middle may have left it.
    let _ = fs::remove_file(&rt, PATH);
    let Ok(mut log) = RecordLog::create(FileDisk::new(&rt, PATH), 1) else {
        assert!(rt; false);
        return Ok(());
    };
    let begins = log.ready(alloc, &ls_begins(alloc)?)?;
    assert!(rt; log.append(begins).is_ok());
    drop(log);
    let Ok(mut again) = RecordLog::open_on(alloc, FileDisk::new(&rt, PATH)) else {
        assert!(rt; false);
        return Ok(());
    };
    let ends = again.ready(alloc, &ls_ends(alloc)?)?;
    assert!(rt;
        again.append(ends)
            == Ok(Spot {
                offset: 106,
                count: 101
            })
    );
    drop(again);
    // A device that takes no byte.
    assert!(rt;
        matches!(
            &RecordLog::open_on(alloc, FileDisk::new(&rt, "/dev/full")),
            Err((OpenFail::DiskFault, _))
        )
    );
    fs::remove_file(&rt, PATH)?;
    Ok(())
}

/// Why no old log is opened on a disk of the bytes of a new one with this digit of the form and this gate.
fn open_old_fail(alloc: Global, digit: u8, gate: u8) -> Result<Option<OldFail>, Fail> {
    let mut bytes = NEW_LOG;
    bytes[7] = digit;
    bytes[32] = gate;
    let disk = MemDisk::new(alloc, bytes.to_vec(alloc)?, Vec::new(alloc))?;
    match OldLog::open_on(alloc, disk) {
        Ok(log) => {
            if log.host() == FIRST_ID {
                return Ok(None);
            }
            Ok(Some(OldFail::NoMemory))
        }
        Err((fail, _)) => Ok(Some(fail)),
    }
}

#[test]
fn an_old_log_is_opened_by_its_header(rt: HostRuntime) -> Result<(), Fail> {
    let alloc = rt.alloc();
    assert!(rt; open_old_fail(alloc, 0x31, 0)? == None);
    assert!(rt; open_old_fail(alloc, 0x32, 0)? == Some(OldFail::NotOld));
    assert!(rt; open_old_fail(alloc, 0x30, 0)? == Some(OldFail::NotOld));
    assert!(rt; open_old_fail(alloc, 0x31, 1)? == Some(OldFail::Damaged { offset: 32 }));
    Ok(())
}
