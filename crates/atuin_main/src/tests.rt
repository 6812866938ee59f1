//! Whole commands over the forms in memory, with their exact bytes. The clock begins at 1,700,000,000 seconds and rises by one
//! second at each reading, the random bytes count up from 00, and the key is the bytes 70 to 8f. The sealed texts were computed
//! apart from this repository's crates.

use super::*;
use at_edge::{FixedClock, ListEntropy, MemDisk, MemSink, MemSource};
use std::alloc::{AllocError, Global};
use std::process::Abort;
use std::test::*;
use std::thread::Threads;

pub(crate) const KEY: &[u8] = b"707172737475767778797a7b7c7d7e7f808182838485868788898a8b8c8d8e8f\n";

/// Behind the eight bytes that tell a log's form: host 1, eight zero bytes, an open gate, and the length of the first body.
pub(crate) const HOST: &[u8] = b"\0\0\0\0\0\0\0\0\0\0\0\0\0\0\0\x01\0\0\0\0\0\0\0\0";

/// An open gate and a body: `ls` begins in `/`, in session `s1`, on `h:u`.
pub(crate) const STARTED: &[u8] =
    b"\x01\0\0\0\x35\0\0\0\x01\x01\x01\x8b\xcf\xe5\x68\x00\x70\x01\x82\x03\x04\x05\x06\x07\x08\x09\x17\x97\x9c\xfe\x36\x2a\0\0\0\0\0\x02ls\0\0\0\x01/\0\0\0\x02s1\0\0\0\x03h:u";

pub(crate) const STARTED_DIGEST: &[u8] =
    b"\xf7\xdf\x43\x2f\x11\xae\x16\x44\xa5\xc2\xb6\x25\xe7\x4d\xcf\x75";

/// An open gate and a body up to its sealed texts: it ends.
const ENDED: &[u8] =
    b"\x01\0\0\x02\x22\0\0\0\x01\x02\x01\x01\x8b\xcf\xe5\x68\x00\x70\x01\x82\x03\x04\x05\x06\x07\x08\x09\x01\x8b\xcf\xe5\x6b\xe8\x7a\x0b\x8c\x0d\x0e\x0f\x10\x11\x12\x13\0\0\0\0\0\0\0\0\0\0\0\0\0\0\0\0\0\0\0\0\0\0\0\x01\0\0\0\0\x17\x97\x9c\xfe\x71\xc4\xca\0\0\0\0\x02v0\0\0\0\x07history";

const SEALED: &[u8] =
    b"\0\0\0\xe7v4.local.NDU2Nzg5Ojs8PT4_QEFCQ0RFRkdISUpLTE1OT1BRUlPtLTA6kw66Oul-K5cPFM1ehejIlyJrhKmoHLji5urahVSI0HJiKEK1jXxYMBwQX6nLRz7DYrZFcApClb3JZUWKxWH4rVWLpGsJvmh0PXrxJVLWn33CB5LbNlLf-WbWJ9sWt_GkzJEO5vksUkuNuRiyDZibD5-7CV0TqhDFX8ICf8bREW3vIg";

const WRAPPED: &[u8] =
    b"\0\0\0\xd8{\"wpk\":\"k4.local-wrap.pie.wm7QBbJ9CVMYAsRqtyVxox39IvNJYAXyXriXL3w2dYZUVVZXWFlaW1xdXl9gYWJjZGVmZ2hpamtsbW5vcHFycxMS6IkNcf_BonO_4_lTWhGmS5xmhda9Vp1A_bdvhAQD\",\"kid\":\"k4.lid.iVtYQDjr5gEijCSjJC3fQaJm7nCeQSeaty0Jixy8dbsk\"}";

const ENDED_DIGEST: &[u8] = b"\xeb\x9e\xc5\xe1\xe2\x23\xe3\x58\x55\x00\xa4\x44\xba\x88\xef\x9e";

pub(crate) const START: &[u8] = b"\0\0\0\x0e\x95\x01\xa2ls\xa1/\xa2s1\xa3h:u";

pub(crate) const END: &[u8] =
    b"\0\0\0\x28\x94\x02\xd9\x20018bcfe5680070018203040506070809\xcd\x03\xe8\0";

const SEARCH: &[u8] = b"\0\0\0\x09\x98\x04\0\0\xa0\xa0\0\0\x0a";

pub(crate) const BEGUN: &[u8] = b"\0\0\0\x25\x93\0\x01\xd9\x20018bcfe5680070018203040506070809";

pub(crate) const STORED: &[u8] = b"\0\0\0\x04\x93\0\x02\0";

const FOUND: &[u8] =
    b"\0\0\0\x40\x93\0\x02\x91\x98\xd9\x20018bcfe5680070018203040506070809\xcf\x17\x97\x9c\xfe\x36\x2a\0\0\xcd\x03\xe8\0\xa2ls\xa1/\xa2s1\xa3h:u";

pub(crate) fn joined(alloc: Global, parts: &[&[u8]]) -> Result<Vec<u8>, AllocError> {
    let mut all = Vec::new(alloc);
    for part in parts {
        all.extend_from_slice(part)?;
    }
    Ok(all)
}

/// A disk of these bytes.
pub(crate) fn disk_of(alloc: Global, parts: &[&[u8]]) -> Result<MemDisk, Fail> {
    Ok(MemDisk::new(alloc, joined(alloc, parts)?, Vec::new(alloc))?)
}

/// A new log of host 1.
fn new_log(alloc: Global) -> Result<MemDisk, Fail> {
    disk_of(alloc, &[b"ATULOG02", HOST, b"\0"])
}

/// The log of `ls`, which began and ended.
fn whole_log(alloc: Global) -> Result<Vec<u8>, AllocError> {
    joined(
        alloc,
        &[
            b"ATULOG02",
            HOST,
            STARTED,
            STARTED_DIGEST,
            ENDED,
            SEALED,
            WRAPPED,
            ENDED_DIGEST,
            b"\0",
        ],
    )
}

/// The same in the old form.
fn old_log(alloc: Global) -> Result<MemDisk, Fail> {
    disk_of(
        alloc,
        &[b"ATULOG01", HOST, STARTED, ENDED, SEALED, WRAPPED, b"\0"],
    )
}

/// What a command left.
#[derive(Drop)]
pub(crate) struct Outcome {
    pub(crate) status: u8,
    pub(crate) written: Vec<u8>,
    pub(crate) disk: MemDisk,
    pub(crate) second: MemDisk,
}

/// Runs `FOLDER` and these words over an input and a disk, where the second disk is empty.
pub(crate) fn ran<R: AllocGlobal + Threads + Sync>(
    rt: &R,
    words: &[&str],
    key_text: &[u8],
    input: &[&[u8]],
    disk: MemDisk,
) -> Result<Outcome, Fail> {
    let alloc = rt.alloc();
    let mut all = vec![in alloc; String::from_str(alloc, "folder")?]?;
    for word in words {
        all.push(String::from_str(alloc, word)?)?;
    }
    let mut source = MemSource::new(joined(alloc, input)?, Vec::new(alloc));
    let mut sink = MemSink::new(alloc, Vec::new(alloc));
    let mut random = Vec::new(alloc);
    for byte in 0..128u8 {
        random.push(byte)?;
    }
    let mut rand = ListEntropy::new(random, Vec::new(alloc));
    let mut clock = FixedClock {
        now: 1_700_000_000_000_000_000,
        step: 1_000_000_000,
    };
    let mut link = AbsentLink::new();
    let ended = run_once(
        rt,
        alloc,
        &all,
        key_text,
        b"another one",
        &mut source,
        &mut sink,
        disk,
        disk_of(alloc, &[])?,
        &mut rand,
        &mut clock,
        &mut link,
    );
    Ok(Outcome {
        status: ended.status,
        written: Vec::from_slice(alloc, sink.written())?,
        disk: ended.disk,
        second: ended.second,
    })
}

/// Sees that `pipe` over a new log gives this output and status.
pub(crate) fn check<R: AllocGlobal + Abort + Threads + Sync>(
    rt: &R,
    input: &[&[u8]],
    output: &[&[u8]],
    status: u8,
) -> Result<MemDisk, Fail> {
    let alloc = rt.alloc();
    let piped = ran(rt, &["pipe"], KEY, input, new_log(alloc)?)?;
    let wanted = joined(alloc, output)?;
    assert_eq!(rt; piped.written.as_slice(), wanted.as_slice());
    assert_eq!(rt; piped.status, status);
    Ok(piped.disk)
}

#[test]
fn a_log_is_made_once(rt: HostRuntime) -> Result<(), Fail> {
    let alloc = rt.alloc();
    let made = ran(&rt, &["init"], b"", &[], disk_of(alloc, &[])?)?;
    assert_eq!(rt; made.status, 0);
    assert_eq!(rt;
        made.disk.shows(),
        b"ATULOG02\x01\x8b\xcf\xe5\x68\x00\x70\x01\x82\x03\x04\x05\x06\x07\x08\x09\0\0\0\0\0\0\0\0\0".as_slice()
    );
    let again = ran(&rt, &["init"], b"", &[], made.disk)?;
    assert_eq!(rt; again.status, 9);
    let empty = ran(&rt, &["pipe"], KEY, &[START], again.second)?;
    assert_eq!(rt; empty.status, 9);
    Ok(())
}

#[test]
fn a_command_is_kept_found_and_told(rt: HostRuntime) -> Result<(), Fail> {
    let alloc = rt.alloc();
    let disk = check(&rt, &[START, END, SEARCH], &[BEGUN, STORED, FOUND], 0)?;
    assert_eq!(rt; disk.shows(), whole_log(alloc)?.as_slice());
    let found = ran(&rt, &["search", "--mode", "prefix", "ls"], KEY, &[], disk)?;
    assert_eq!(rt; found.status, 0);
    assert_eq!(rt;
        found.written.as_slice(),
        b"2023-11-14T22:13:20Z\t0\tls\n".as_slice()
    );
    let told = ran(&rt, &["status"], b"", &[], found.disk)?;
    assert_eq!(rt; told.status, 0);
    assert_eq!(rt;
        told.written.as_slice(),
        b"00000000-0000-0000-0000-000000000001 history 1\n".as_slice()
    );
    Ok(())
}

#[test]
fn an_old_log_is_moved_over(rt: HostRuntime) -> Result<(), Fail> {
    let alloc = rt.alloc();
    let moved = ran(&rt, &["migrate"], b"", &[], old_log(alloc)?)?;
    assert_eq!(rt; moved.status, 0);
    assert_eq!(rt; moved.written.as_slice(), b"entries 2\n".as_slice());
    assert_eq!(rt; moved.second.shows(), whole_log(alloc)?.as_slice());
    let unread = ran(&rt, &["pipe"], KEY, &[START], moved.disk)?;
    assert_eq!(rt; unread.status, 19);
    Ok(())
}

#[test]
fn an_input_that_ends_badly_keeps_its_replies(rt: HostRuntime) -> Result<(), Fail> {
    check(&rt, &[], &[], 0)?;
    check(&rt, &[START, END, &SEARCH[..7]], &[BEGUN, STORED], 13)?;
    check(&rt, &[b"\x00\x10\x00\x01", START], &[], 13)?;
    Ok(())
}

#[test]
fn pairs_and_aliases_are_kept(rt: HostRuntime) -> Result<(), Fail> {
    check(
        &rt,
        &[b"\0\0\0\x05\x92\x09\xa2zz"],
        &[b"\0\0\0\x06\x93\x03\0\xa2zz"],
        0,
    )?;
    check(
        &rt,
        &[
            b"\0\0\0\x08\x94\x05\xa1n\xa1k\xa1v",
            b"\0\0\0\x06\x93\x06\xa1n\xa1k",
            b"\0\0\0\x06\x93\x06\xa1n\xa1j",
        ],
        &[
            b"\0\0\0\x04\x93\0\x01\0",
            b"\0\0\0\x05\x93\0\x01\xa1v",
            b"\0\0\0\x04\x93\0\x01\xc0",
        ],
        0,
    )?;
    Ok(())
}

#[test]
fn faulty_words_and_keys_change_nothing(rt: HostRuntime) -> Result<(), Fail> {
    let alloc = rt.alloc();
    let fuzzy = ran(
        &rt,
        &["search", "--mode", "fuzzy", "x"],
        KEY,
        &[],
        new_log(alloc)?,
    )?;
    assert_eq!(rt; fuzzy.status, 2);
    let keyless = ran(&rt, &["pipe"], &KEY[1..], &[START], fuzzy.disk)?;
    assert_eq!(rt; keyless.status, 3);
    assert_eq!(rt; keyless.written.len(), 0);
    Ok(())
}

#[test]
fn refusals_have_their_own_replies(rt: HostRuntime) -> Result<(), Fail> {
    let unknown = b"\0\0\0\x25\x93\x02\0\xd9\x20ffffffffffffffffffffffffffffffff".as_slice();
    let ended_already =
        b"\0\0\0\x25\x93\x02\x02\xd9\x20018bcfe5680070018203040506070809".as_slice();
    let end_of_another =
        b"\0\0\0\x28\x94\x02\xd9\x20ffffffffffffffffffffffffffffffff\xcd\x03\xe8\0".as_slice();
    let no_call = b"\0\0\0\x02\x91\x63".as_slice();
    let at_1 = b"\0\0\0\x04\x93\x09\0\x01".as_slice();
    check(&rt, &[end_of_another, no_call], &[unknown, at_1], 0)?;
    check(&rt, &[START, END, END], &[BEGUN, STORED, ended_already], 0)?;
    Ok(())
}
