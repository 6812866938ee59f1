//! Sessions of more calls, and over disks that fail or are damaged, with their exact bytes.

use super::*;
use crate::tests::{
    BEGUN, END, HOST, KEY, START, STARTED, STARTED_DIGEST, STORED, check, disk_of, joined, ran,
};
use at_edge::MemDisk;
use std::alloc::{AllocError, Global};
use std::process::Abort;
use std::test::*;
use std::thread::Threads;

/// Sees that `pipe` gives this output and status over a new log whose disk fails at the call of that number. Calls 1 to 4 open
/// it, 5 to 8 append the first batch, and 9 to 12 the second: its write, a sync, the write of its gate, and a sync.
fn check_with_fault<R: AllocGlobal + Abort + Threads + Sync>(
    rt: &R,
    number: u64,
    input: &[&[u8]],
    output: &[&[u8]],
) -> Result<(), Fail> {
    let alloc = rt.alloc();
    let bytes = joined(alloc, &[b"ATULOG02", HOST, b"\0"])?;
    let disk = MemDisk::new(alloc, bytes, vec![in alloc; number; 1]?)?;
    let piped = ran(rt, &["pipe"], KEY, input, disk)?;
    let wanted = joined(alloc, output)?;
    assert_eq!(rt; piped.written.as_slice(), wanted.as_slice());
    assert_eq!(rt; piped.status, 0);
    Ok(())
}

#[test]
fn a_batch_in_doubt_is_settled_by_the_next_start(rt: HostRuntime) -> Result<(), Fail> {
    let faulted = b"\0\0\0\x03\x92\x07\x01".as_slice();
    let status = b"\0\0\0\x02\x91\x0b".as_slice();
    let no_chain = b"\0\0\0\x04\x93\0\x01\x90".as_slice();
    let begun = b"\0\0\0\x25\x93\0\x03\xd9\x20018bcfe56fd07475b67778797a7b7c7d".as_slice();
    let one_chain =
        b"\0\0\0\x34\x93\0\x03\x91\x93\xd9\x2400000000-0000-0000-0000-000000000001\xa7history\x01".as_slice();
    check_with_fault(
        &rt,
        12,
        &[START, END, status, START, status],
        &[BEGUN, faulted, no_chain, begun, one_chain],
    )
}

#[test]
fn a_batch_that_was_not_written_can_be_written_again(rt: HostRuntime) -> Result<(), Fail> {
    let faulted = b"\0\0\0\x03\x92\x07\x01".as_slice();
    check_with_fault(&rt, 9, &[START, END, END], &[BEGUN, faulted, STORED])
}

/// The status of `pipe` with the end of `ls` over a disk of these bytes behind the host.
fn status_over<R: AllocGlobal + Threads + Sync>(rt: &R, batch: &[&[u8]]) -> Result<u8, Fail> {
    let alloc = rt.alloc();
    let bytes = joined(alloc, batch)?;
    let disk = disk_of(
        alloc,
        &[b"ATULOG02", HOST, bytes.as_slice(), STARTED_DIGEST, b"\0"],
    )?;
    Ok(ran(rt, &["pipe"], KEY, &[END], disk)?.status)
}

#[test]
fn a_damaged_log_is_not_opened(rt: HostRuntime) -> Result<(), Fail> {
    // an open gate may be any byte but 0
    assert_eq!(rt; status_over(&rt, &[b"\x07", &STARTED[1..]])?, 0);
    // a length of one byte more, and a body of another byte
    assert_eq!(rt; status_over(&rt, &[b"\x01\0\0\0\x36", &STARTED[5..]])?, 8);
    assert_eq!(rt;
        status_over(&rt, &[&STARTED[..8], b"\xff", &STARTED[9..]])?,
        8
    );
    Ok(())
}

/// The frame that begins so and goes on with a command of so many bytes.
fn start_of(alloc: Global, head: &[u8], count: usize) -> Result<Vec<u8>, AllocError> {
    let mut frame = Vec::from_slice(alloc, head)?;
    let command = vec![in alloc; b'x'; count]?;
    frame.extend_from_slice(command.as_slice())?;
    frame.extend_from_slice(b"\xa1/\xa2s1\xa3h:u")?;
    Ok(frame)
}

#[test]
fn a_command_has_at_most_262144_bytes(rt: HostRuntime) -> Result<(), Fail> {
    let alloc = rt.alloc();
    let longest = start_of(alloc, b"\0\x04\0\x10\x95\x01\xdb\0\x04\0\0", 262_144)?;
    check(&rt, &[longest.as_slice()], &[BEGUN], 0)?;
    let longer = start_of(alloc, b"\0\x04\0\x11\x95\x01\xdb\0\x04\0\x01", 262_145)?;
    let refused = b"\0\0\0\x09\x94\x01\0\x01\xce\0\x04\0\x01".as_slice();
    check(&rt, &[longer.as_slice()], &[refused], 0)?;
    Ok(())
}

#[test]
fn what_spells_no_call_is_refused_at_its_place(rt: HostRuntime) -> Result<(), Fail> {
    check(
        &rt,
        &[
            b"\0\0\0\0",
            b"\0\0\0\x02\x95\0",
            b"\0\0\0\x0f\x95\x01\xa2ls\xa1/\xa2s1\xa3h:u\0",
        ],
        &[
            b"\0\0\0\x04\x93\x09\0\0",
            b"\0\0\0\x04\x93\x09\0\x01",
            b"\0\0\0\x04\x93\x09\0\x0e",
        ],
        0,
    )?;
    Ok(())
}

#[test]
fn a_search_is_folded_only_without_capitals(rt: HostRuntime) -> Result<(), Fail> {
    let none = b"\0\0\0\x04\x93\0\x02\x90".as_slice();
    let found =
        b"\0\0\0\x48\x93\0\x02\x91\x98\xd9\x20018bcfe5680070018203040506070809\xcf\x17\x97\x9c\xfe\x36\x2a\0\0\xcd\x03\xe8\0\xaagit status\xa1/\xa2s1\xa3h:u".as_slice();
    check(
        &rt,
        &[
            b"\0\0\0\x16\x95\x01\xaagit status\xa1/\xa2s1\xa3h:u",
            END,
            b"\0\0\0\x0c\x98\x04\0\0\xa0\xa3GIT\0\0\x0a",
            b"\0\0\0\x0c\x98\x04\0\0\xa0\xa3git\0\0\x0a",
            b"\0\0\0\x0d\x98\x04\x01\0\xa0\xa4STAT\0\0\x0a",
            // in another session
            b"\0\0\0\x0b\x98\x04\0\x02\xa2s2\xa0\0\0\x0a",
        ],
        &[BEGUN, STORED, none, found, none, none],
        0,
    )?;
    Ok(())
}

#[test]
fn equal_commands_are_one_hit_where_asked(rt: HostRuntime) -> Result<(), Fail> {
    let last =
        b"\x98\xd9\x20018bcfe577a070008000000000000000\xcf\x17\x97\x9c\xff\x24\x95\x28\0\xcd\x03\xe8\0\xa1a\xa1/\xa2s1\xa3h:u".as_slice();
    let between =
        b"\x98\xd9\x20018bcfe56fd07475b67778797a7b7c7d\xcf\x17\x97\x9c\xfe\xad\x5f\x94\0\xcd\x03\xe8\0\xa1b\xa1/\xa2s1\xa3h:u".as_slice();
    let start_of_a = b"\0\0\0\x0d\x95\x01\xa1a\xa1/\xa2s1\xa3h:u".as_slice();
    check(
        &rt,
        &[
            start_of_a,
            END,
            b"\0\0\0\x0d\x95\x01\xa1b\xa1/\xa2s1\xa3h:u",
            b"\0\0\0\x28\x94\x02\xd9\x20018bcfe56fd07475b67778797a7b7c7d\xcd\x03\xe8\0",
            start_of_a,
            b"\0\0\0\x28\x94\x02\xd9\x20018bcfe577a070008000000000000000\xcd\x03\xe8\0",
            // all, one, and those behind five
            b"\0\0\0\x09\x98\x04\0\0\xa0\xa0\x01\0\x0a",
            b"\0\0\0\x09\x98\x04\0\0\xa0\xa0\x01\0\x01",
            b"\0\0\0\x09\x98\x04\0\0\xa0\xa0\x01\x05\x0a",
        ],
        &[
            BEGUN,
            STORED,
            b"\0\0\0\x25\x93\0\x03\xd9\x20018bcfe56fd07475b67778797a7b7c7d",
            b"\0\0\0\x04\x93\0\x04\x01",
            b"\0\0\0\x25\x93\0\x05\xd9\x20018bcfe577a070008000000000000000",
            b"\0\0\0\x04\x93\0\x06\x02",
            b"\0\0\0\x7a\x93\0\x06\x92",
            last,
            between,
            b"\0\0\0\x3f\x93\0\x06\x91",
            last,
            b"\0\0\0\x04\x93\0\x06\x90",
        ],
        0,
    )?;
    Ok(())
}
