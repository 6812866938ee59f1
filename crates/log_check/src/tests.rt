ghost use Rattle.std.specs.Prelude.{◌≤◌, length};

use super::*;
use at_edge::MemDisk;
use std::alloc::Global;
use std::test::Fail;

/// A log of host 1, whose one batch begins `ls` in `/`, session `s1`, on `h:u`. The digest is that of Python's `hashlib.blake2b`.
const LOG: [u8; 107] = [
    0x41, 0x54, 0x55, 0x4c, 0x4f, 0x47, 0x30, 0x32, 0, 0, 0, 0, 0, 0, 0, 0, 0, 0, 0, 0, 0, 0, 0, 1,
    0, 0, 0, 0, 0, 0, 0, 0, 1, 0, 0, 0, 0x35, 0, 0, 0, 1, 1, 1, 0x8b, 0xcf, 0xe5, 0x68, 0, 0x70, 1,
    0x82, 3, 4, 5, 6, 7, 8, 9, 0x17, 0x97, 0x9c, 0xfe, 0x36, 0x2a, 0, 0, 0, 0, 0, 2, 0x6c, 0x73, 0,
    0, 0, 1, 0x2f, 0, 0, 0, 2, 0x73, 0x31, 0, 0, 0, 3, 0x68, 0x3a, 0x75, 0xf7, 0xdf, 0x43, 0x2f,
    0x11, 0xae, 0x16, 0x44, 0xa5, 0xc2, 0xb6, 0x25, 0xe7, 0x4d, 0xcf, 0x75, 0,
];

/// The same in the old form.
const OLD_LOG: [u8; 91] = [
    0x41, 0x54, 0x55, 0x4c, 0x4f, 0x47, 0x30, 0x31, 0, 0, 0, 0, 0, 0, 0, 0, 0, 0, 0, 0, 0, 0, 0, 1,
    0, 0, 0, 0, 0, 0, 0, 0, 1, 0, 0, 0, 0x35, 0, 0, 0, 1, 1, 1, 0x8b, 0xcf, 0xe5, 0x68, 0, 0x70, 1,
    0x82, 3, 4, 5, 6, 7, 8, 9, 0x17, 0x97, 0x9c, 0xfe, 0x36, 0x2a, 0, 0, 0, 0, 0, 2, 0x6c, 0x73, 0,
    0, 0, 1, 0x2f, 0, 0, 0, 2, 0x73, 0x31, 0, 0, 0, 3, 0x68, 0x3a, 0x75, 0,
];

/// What the walk over these bytes answers, in pieces of seven, where the calls of these numbers fail.
fn walk(
    alloc: Global,
    bytes: &[u8],
    form: LogForm,
    failing: Vec<u64>,
) -> Result<Result<u64, WalkFail>, Fail>
    requires { 33 ≤ length bytes.now }
{
    let mut disk = MemDisk::new(alloc, bytes.to_vec(alloc)?, failing)?.silent();
    Ok(find_closed_gate(alloc, &mut disk, &mut [0; 7], form, 1, bytes.len() as u64))
}

/// The same with this byte in place of the one at `at`.
fn walk_with(alloc: Global, at: usize, byte: u8) -> Result<Result<u64, WalkFail>, Fail> {
    let mut bytes = LOG;
    if at < 107 {
        bytes[at] = byte;
    }
    walk(alloc, &bytes, LogForm::Current, Vec::new(alloc))
}

#[test]
fn a_log_is_walked_to_its_closed_gate(rt: HostRuntime) -> Result<(), Fail> {
    let alloc = rt.alloc();
    assert!(rt; walk(alloc, &LOG, LogForm::Current, Vec::new(alloc))? == Ok(106));
    assert!(rt; walk(alloc, &OLD_LOG, LogForm::Old, Vec::new(alloc))? == Ok(90));
    // Any byte but 0 is an open gate, and behind a closed one nothing counts.
    assert!(rt; walk_with(alloc, 32, 7)? == Ok(106));
    assert!(rt; walk_with(alloc, 32, 0)? == Ok(32));
    // A read of the second gate fails.
    let failing = vec![in alloc; 12; 1]?;
    assert!(rt; walk(alloc, &LOG, LogForm::Current, failing)? == Err(WalkFail::DiskFault));
    Ok(())
}

#[test]
fn a_changed_batch_is_damaged(rt: HostRuntime) -> Result<(), Fail> {
    let alloc = rt.alloc();
    let damaged = Err(WalkFail::Damaged { offset: 32 });
    // Its length, a count of 0, a text, its digest.
    for (at, byte) in [(36, 0x36), (40, 0), (70, 0x6d), (90, 0)] {
        assert!(rt; walk_with(alloc, at, byte)? == damaged);
    }
    // The file ends before the second gate.
    assert!(rt; walk(alloc, &LOG[..106], LogForm::Current, Vec::new(alloc))? == damaged);
    assert!(rt; walk(alloc, &OLD_LOG[..36], LogForm::Old, Vec::new(alloc))? == damaged);
    Ok(())
}
