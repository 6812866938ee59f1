use super::*;
use at_edge::{FixedClock, ListEntropy, MemDisk, MemSink};
use statuses::Status;
use std::alloc::Global;
use std::test::*;

/// The first reading of the clocks here.
const NOW: u64 = 1_700_000_000_000_000_000;

/// The log of the host whose id is made of that reading and of the bytes 0 to 9.
const NEW_LOG: [u8; 33] = [
    0x41, 0x54, 0x55, 0x4c, 0x4f, 0x47, 0x30, 0x32, 1, 0x8b, 0xcf, 0xe5, 0x68, 0, 0x70, 1, 0x82, 3,
    4, 5, 6, 7, 8, 9, 0, 0, 0, 0, 0, 0, 0, 0, 0,
];

/// A log of host 1 in the old form, whose one batch begins `ls` in `/`, session `s1`, on `h:u`.
const OLD_LOG: [u8; 91] = [
    0x41, 0x54, 0x55, 0x4c, 0x4f, 0x47, 0x30, 0x31, 0, 0, 0, 0, 0, 0, 0, 0, 0, 0, 0, 0, 0, 0, 0, 1,
    0, 0, 0, 0, 0, 0, 0, 0, 1, 0, 0, 0, 0x35, 0, 0, 0, 1, 1, 1, 0x8b, 0xcf, 0xe5, 0x68, 0, 0x70, 1,
    0x82, 3, 4, 5, 6, 7, 8, 9, 0x17, 0x97, 0x9c, 0xfe, 0x36, 0x2a, 0, 0, 0, 0, 0, 2, 0x6c, 0x73, 0,
    0, 0, 1, 0x2f, 0, 0, 0, 2, 0x73, 0x31, 0, 0, 0, 3, 0x68, 0x3a, 0x75, 0,
];

/// The same log in the form that is written. The digest is that of Python's `hashlib.blake2b`.
const LOG: [u8; 107] = [
    0x41, 0x54, 0x55, 0x4c, 0x4f, 0x47, 0x30, 0x32, 0, 0, 0, 0, 0, 0, 0, 0, 0, 0, 0, 0, 0, 0, 0, 1,
    0, 0, 0, 0, 0, 0, 0, 0, 1, 0, 0, 0, 0x35, 0, 0, 0, 1, 1, 1, 0x8b, 0xcf, 0xe5, 0x68, 0, 0x70, 1,
    0x82, 3, 4, 5, 6, 7, 8, 9, 0x17, 0x97, 0x9c, 0xfe, 0x36, 0x2a, 0, 0, 0, 0, 0, 2, 0x6c, 0x73, 0,
    0, 0, 1, 0x2f, 0, 0, 0, 2, 0x73, 0x31, 0, 0, 0, 3, 0x68, 0x3a, 0x75, 0xf7, 0xdf, 0x43, 0x2f,
    0x11, 0xae, 0x16, 0x44, 0xa5, 0xc2, 0xb6, 0x25, 0xe7, 0x4d, 0xcf, 0x75, 0,
];

/// A disk of these bytes, whose call of that number fails, where it isn't 0.
fn disk_of(alloc: Global, bytes: &[u8], failing: u64) -> Result<MemDisk, Fail> {
    Ok(MemDisk::new(alloc, bytes.to_vec(alloc)?, vec![in alloc; failing; 1]?)?)
}

/// `init` on that disk, by random bytes that count up from 0, where the draw doesn't fail.
fn init_on(alloc: Global, disk: MemDisk, failing: Vec<u64>) -> Result<Initialized<MemDisk>, Fail> {
    let bytes = vec![in alloc; 0, 1, 2, 3, 4, 5, 6, 7, 8, 9, 10]?;
    let mut rand = ListEntropy::new(bytes, failing);
    let mut clock = FixedClock { now: NOW, step: 1 };
    Ok(init(disk, &mut rand, &mut clock))
}

#[test]
fn a_new_log_is_made_on_an_empty_disk_alone(rt: HostRuntime) -> Result<(), Fail> {
    let alloc = rt.alloc();
    let made = init_on(alloc, disk_of(alloc, b"", 0)?, Vec::new(alloc))?;
    assert!(rt; made.status == Status::Done);
    assert!(rt; made.disk.shows() == NEW_LOG.as_slice());
    let again = init_on(alloc, made.disk, Vec::new(alloc))?;
    assert!(rt; again.status == Status::WrongDisk);
    assert!(rt; again.disk.shows() == NEW_LOG.as_slice());
    Ok(())
}

#[test]
fn no_log_is_made_where_a_draw_or_the_disk_fails(rt: HostRuntime) -> Result<(), Fail> {
    let alloc = rt.alloc();
    let unmade = init_on(alloc, disk_of(alloc, b"", 0)?, vec![in alloc; 1]?)?;
    assert!(rt; unmade.status == Status::RandFault);
    assert!(rt; unmade.disk.shows() == b"".as_slice());
    let failed = init_on(alloc, disk_of(alloc, b"", 3)?, Vec::new(alloc))?;
    assert!(rt; failed.status == Status::DiskFault);
    Ok(())
}

#[test]
fn an_old_log_is_moved_over(rt: HostRuntime) -> Result<(), Fail> {
    let alloc = rt.alloc();
    let mut sink = MemSink::new(alloc, Vec::new(alloc));
    let old = disk_of(alloc, &OLD_LOG, 0)?;
    let moved = migrate(alloc, old, disk_of(alloc, b"", 0)?, &mut sink);
    assert!(rt; moved.result == Ok(()));
    assert!(rt; moved.disk.shows() == OLD_LOG.as_slice());
    assert!(rt; moved.second.shows() == LOG.as_slice());
    assert!(rt; sink.written() == b"entries 1\n".as_slice());
    Ok(())
}

/// That old log with one batch more, which ends `ls`. Its seal has the lengths of one, and is none: no log opens it.
fn two_old_batches(alloc: Global) -> Result<Vec<u8>, Fail> {
    let mut bytes = OLD_LOG[..90].to_vec(alloc)?;
    bytes.extend_from_slice(&[1, 0, 0, 2, 0x22, 0, 0, 0, 1, 2, 1])?;
    bytes.extend_from_slice(&OLD_LOG[42..58])?;
    bytes.extend_from_slice(&[9; 16])?;
    bytes.extend_from_slice(&[0; 8])?;
    bytes.extend_from_slice(&OLD_LOG[8..24])?;
    bytes.extend_from_slice(&[0; 12])?;
    bytes.extend_from_slice(b"\0\0\0\x02v0\0\0\0\x07history\0\0\0\xe7")?;
    bytes.extend_from_slice(&[b's'; 231])?;
    bytes.extend_from_slice(b"\0\0\0\xd8")?;
    bytes.extend_from_slice(&[b'w'; 216])?;
    bytes.push(0)?;
    Ok(bytes)
}

#[test]
fn each_batch_gets_a_digest(rt: HostRuntime) -> Result<(), Fail> {
    let alloc = rt.alloc();
    let mut sink = MemSink::new(alloc, Vec::new(alloc));
    let bytes = two_old_batches(alloc)?;
    assert!(rt; bytes.len() == 642);
    let old = disk_of(alloc, &bytes, 0)?;
    let moved = migrate(alloc, old, disk_of(alloc, b"", 0)?, &mut sink);
    assert!(rt; moved.result == Ok(()));
    assert!(rt; moved.second.shows().len() == 674);
    assert!(rt; sink.written() == b"entries 2\n".as_slice());
    Ok(())
}

#[test]
fn what_cannot_be_moved_over_is_left(rt: HostRuntime) -> Result<(), Fail> {
    let alloc = rt.alloc();
    let mut sink = MemSink::new(alloc, Vec::new(alloc));
    let new = disk_of(alloc, &LOG, 0)?;
    let not_old = migrate(alloc, new, disk_of(alloc, b"", 0)?, &mut sink);
    assert!(rt; not_old.result == Err(MigrateFail::NotOld));
    let full = migrate(alloc, disk_of(alloc, &OLD_LOG, 0)?, not_old.disk, &mut sink);
    assert!(rt; full.result == Err(MigrateFail::NotEmpty { len: 107 }));
    assert!(rt; full.second.shows() == LOG.as_slice());
    assert!(rt; sink.written() == b"".as_slice());
    // The new log is made by three calls of the second disk, and the fourth is the first write of its batch.
    let stopped = migrate(alloc, full.disk, disk_of(alloc, b"", 4)?, &mut sink);
    assert!(rt; stopped.result == Err(MigrateFail::CopyFault));
    assert!(rt; stopped.second.shows().len() == 33);
    Ok(())
}
