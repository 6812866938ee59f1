ghost use Rattle.std.specs.Prelude.{◌≡◌, [], IfOk};
ghost use Rattle.record_log.specs.Journals.{HasJournal};

use super::*;
use crate::tests::{ls_begins, ls_ends};
use at_edge::MemDisk;
use std::alloc::Global;
use std::process::Abort;
use std::test::Fail;

/// A log of host 1 in the old form, whose one batch begins `ls` in `/`, session `s1`, on `h:u`.
const OLD_LOG: [u8; 91] = [
    0x41, 0x54, 0x55, 0x4c, 0x4f, 0x47, 0x30, 0x31, 0, 0, 0, 0, 0, 0, 0, 0, 0, 0, 0, 0, 0, 0, 0, 1,
    0, 0, 0, 0, 0, 0, 0, 0, 1, 0, 0, 0, 0x35, 0, 0, 0, 1, 1, 1, 0x8b, 0xcf, 0xe5, 0x68, 0, 0x70, 1,
    0x82, 3, 4, 5, 6, 7, 8, 9, 0x17, 0x97, 0x9c, 0xfe, 0x36, 0x2a, 0, 0, 0, 0, 0, 2, 0x6c, 0x73, 0,
    0, 0, 1, 0x2f, 0, 0, 0, 2, 0x73, 0x31, 0, 0, 0, 3, 0x68, 0x3a, 0x75, 0,
];

/// The same log in the form that is written. The digest is that of Python's `hashlib.blake2b`.
const LOG: [u8; 107] = [
    0x41, 0x54, 0x55, 0x4c, 0x4f, 0x47, 0x30, 0x32, 0, 0, 0, 0, 0, 0, 0, 0, 0, 0, 0, 0, 0, 0, 0, 1,
    0, 0, 0, 0, 0, 0, 0, 0, 1, 0, 0, 0, 0x35, 0, 0, 0, 1, 1, 1, 0x8b, 0xcf, 0xe5, 0x68, 0, 0x70, 1,
    0x82, 3, 4, 5, 6, 7, 8, 9, 0x17, 0x97, 0x9c, 0xfe, 0x36, 0x2a, 0, 0, 0, 0, 0, 2, 0x6c, 0x73, 0,
    0, 0, 1, 0x2f, 0, 0, 0, 2, 0x73, 0x31, 0, 0, 0, 3, 0x68, 0x3a, 0x75, 0xf7, 0xdf, 0x43, 0x2f,
    0x11, 0xae, 0x16, 0x44, 0xa5, 0xc2, 0xb6, 0x25, 0xe7, 0x4d, 0xcf, 0x75, 0,
];

/// The old log on a disk of these bytes, whose call of that number fails, where it isn't 0.
fn old_log<R: Abort>(
    rt: &R,
    alloc: Global,
    bytes: &[u8],
    failing: u64,
) -> Result<OldLog<MemDisk>, Fail> {
    let disk = MemDisk::new(alloc, bytes.to_vec(alloc)?, vec![in alloc; failing; 1]?)?;
    match OldLog::open_on(alloc, disk) {
        Ok(log) => Ok(log),
        Err(_) => panic!(rt; "no old log was opened"),
    }
}

/// A new log of this host, on a disk whose call of that number fails, where it isn't 0.
fn log_of<R: Abort>(
    rt: &R,
    alloc: Global,
    host: u128,
    failing: u64,
) -> Result<RecordLog<MemDisk>, Fail>
    ensures new { IfOk result (λ log. HasJournal log []) }
    ensures host { IfOk result (λ log. log.host ≡ host) }
{
    let disk = MemDisk::new(alloc, Vec::new(alloc), vec![in alloc; failing; 1]?)?;
    match RecordLog::create(disk, host) {
        Ok(log) => Ok(log),
        Err(_) => panic!(rt; "no log was made"),
    }
}

#[test]
fn an_old_log_is_copied(rt: HostRuntime) -> Result<(), Fail> {
    let alloc = rt.alloc();
    let mut old = old_log(&rt, alloc, &OLD_LOG, 0)?;
    let mut into = log_of(&rt, alloc, old.host(), 0)?;
    assert!(rt; copy_log(alloc, &mut old, &mut into) == Ok(1));
    assert!(rt; into.into_disk().shows() == LOG.as_slice());
    assert!(rt; old.into_disk().shows() == OLD_LOG.as_slice());
    Ok(())
}

#[test]
fn a_copy_stops_where_a_disk_fails(rt: HostRuntime) -> Result<(), Fail> {
    let alloc = rt.alloc();
    // Opening makes six calls of the old disk, and the first read of the copy is the seventh.
    let mut old = old_log(&rt, alloc, &OLD_LOG, 7)?;
    let mut into = log_of(&rt, alloc, old.host(), 0)?;
    assert!(rt; copy_log(alloc, &mut old, &mut into) == Err(CopyFail::OldFault));
    assert!(rt; !into.in_doubt());
    assert!(rt; into.into_disk().shows().len() == 33);
    // The new log is made by three calls, and the batch is appended by four.
    for number in 4..8 {
        let mut into = log_of(&rt, alloc, old.host(), number)?;
        assert!(rt; copy_log(alloc, &mut old, &mut into) == Err(CopyFail::NewFault));
        assert!(rt; into.in_doubt() == (number > 5));
    }
    Ok(())
}

/// A log of two batches of 53 and 101 bytes without their digests, as its old form is.
fn without_digests(alloc: Global, bytes: &[u8]) -> Result<Vec<u8>, Fail> {
    let mut old = Vec::new(alloc);
    if bytes.len() == 229 {
        old.extend_from_slice(&bytes[..7])?;
        old.push(0x31)?;
        old.extend_from_slice(&bytes[8..90])?;
        old.extend_from_slice(&bytes[106..212])?;
        old.push(0)?;
    }
    Ok(old)
}

#[test]
fn each_batch_of_an_old_log_is_copied(rt: HostRuntime) -> Result<(), Fail> {
    let alloc = rt.alloc();
    let mut log = log_of(&rt, alloc, 1, 0)?;
    let begins = log.ready(alloc, &ls_begins(alloc)?)?;
    assert!(rt; log.append(begins).is_ok());
    let ends = log.ready(alloc, &ls_ends(alloc)?)?;
    assert!(rt; log.append(ends).is_ok());
    let disk = log.into_disk();
    let bytes = without_digests(alloc, disk.shows())?;
    assert!(rt; bytes.len() == 197);
    let mut old = old_log(&rt, alloc, &bytes, 0)?;
    let mut into = log_of(&rt, alloc, old.host(), 0)?;
    assert!(rt; copy_log(alloc, &mut old, &mut into) == Ok(2));
    assert!(rt; into.into_disk().shows() == disk.shows());
    Ok(())
}
