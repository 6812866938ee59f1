ghost use Rattle.std.specs.Prelude.{IfOk};
ghost use Rattle.model_words.specs.Seen.{query_seen};
ghost use Rattle.step_rules.specs.Calls.{CallFits, search_call};

use super::*;
use at_edge::{MemDisk, MemSink};
use commands::migrate;
use plain_types::Text;
use record_model::{Filter, Mode, Query};
use std::alloc::Global;
use std::test::*;
use store_core::OpenFail;

/// A log of host 1 in the old form, whose one batch begins `ls` in `/`, session `s1`, on `h:u`.
const OLD_LOG: [u8; 91] = [
    0x41, 0x54, 0x55, 0x4c, 0x4f, 0x47, 0x30, 0x31, 0, 0, 0, 0, 0, 0, 0, 0, 0, 0, 0, 0, 0, 0, 0, 1,
    0, 0, 0, 0, 0, 0, 0, 0, 1, 0, 0, 0, 0x35, 0, 0, 0, 1, 1, 1, 0x8b, 0xcf, 0xe5, 0x68, 0, 0x70, 1,
    0x82, 3, 4, 5, 6, 7, 8, 9, 0x17, 0x97, 0x9c, 0xfe, 0x36, 0x2a, 0, 0, 0, 0, 0, 2, 0x6c, 0x73, 0,
    0, 0, 1, 0x2f, 0, 0, 0, 2, 0x73, 0x31, 0, 0, 0, 3, 0x68, 0x3a, 0x75, 0,
];

/// A disk of these bytes, whose call of that number fails, where it isn't 0.
fn disk_of(alloc: Global, bytes: &[u8], failing: u64) -> Result<MemDisk, Fail> {
    Ok(MemDisk::new(alloc, bytes.to_vec(alloc)?, vec![in alloc; failing; 1]?)?)
}

/// The disk of that log in the form that is written, with one batch more, which ends `ls`. Its seal has the lengths of one, and is none: no log opens it.
fn new_log(alloc: Global) -> Result<MemDisk, Fail> {
    let mut bytes = OLD_LOG[..90].to_vec(alloc)?;
    bytes.extend_from_slice(&[1, 0, 0, 2, 0x22, 0, 0, 0, 1, 2, 1])?;
    bytes.extend_from_slice(&OLD_LOG[42..58])?;
    bytes.extend_from_slice(&[9; 16])?;
    bytes.extend_from_slice(&[0; 8])?;
    bytes.extend_from_slice(&OLD_LOG[8..24])?;
    bytes.extend_from_slice(&[0; 12])?;
    bytes.extend_from_slice(b"\0\0\0\x02v0\0\0\0\x07history\0\0\0\xe7")?;
    bytes.extend_from_slice(&[b's'; 231])?;
    bytes.extend_from_slice(b"\0\0\0\xd8")?;
    bytes.extend_from_slice(&[b'w'; 216])?;
    bytes.push(0)?;
    let mut sink = MemSink::new(alloc, Vec::new(alloc));
    let old = disk_of(alloc, &bytes, 0)?;
    Ok(migrate(alloc, old, disk_of(alloc, b"", 0)?, &mut sink).second)
}

/// A search for all commands.
fn all(alloc: Global) -> Result<Query, Fail>
    ensures { IfOk result (λ query. CallFits (search_call (query_seen query))) }
{
    Ok(Query {
        mode: Mode::Prefix,
        filter: Filter::Global,
        text: Text::copied(alloc, b"")?,
        unique: false,
        offset: 0,
        limit: 10,
    })
}

#[test]
fn each_chain_is_told(rt: HostRuntime) -> Result<(), Fail> {
    let alloc = rt.alloc();
    let mut sink = MemSink::new(alloc, Vec::new(alloc));
    let told = status(alloc, new_log(alloc)?, &mut sink);
    assert!(rt; told.result == Ok(()));
    assert!(rt; told.disk.shows().len() == 674);
    assert!(rt; sink.written() == b"00000000-0000-0000-0000-000000000001 history 1\n".as_slice());
    let mut failing = MemSink::new(alloc, vec![in alloc; 1]?);
    let stopped = status(alloc, told.disk, &mut failing);
    assert!(rt; stopped.result == Err(CommandFail::SinkFault));
    Ok(())
}

#[test]
fn what_is_no_log_is_not_opened(rt: HostRuntime) -> Result<(), Fail> {
    let alloc = rt.alloc();
    let mut sink = MemSink::new(alloc, Vec::new(alloc));
    let empty = status(alloc, disk_of(alloc, b"", 0)?, &mut sink);
    assert!(rt; empty.result == Err(CommandFail::Unopened(OpenFail::NotALog)));
    let old = status(alloc, disk_of(alloc, &OLD_LOG, 0)?, &mut sink);
    assert!(rt; old.result == Err(CommandFail::Unopened(OpenFail::OldLog)));
    assert!(rt; CommandFail::Unopened(OpenFail::OldLog).status().number() == 19);
    assert!(rt; sink.written() == b"".as_slice());
    Ok(())
}

#[test]
fn a_search_needs_the_text_of_a_key(rt: HostRuntime) -> Result<(), Fail> {
    let alloc = rt.alloc();
    let mut sink = MemSink::new(alloc, Vec::new(alloc));
    let disk = new_log(alloc)?;
    let faulty = search(alloc, b"70", all(alloc)?, disk, &mut sink);
    assert!(rt; faulty.result == Err(CommandFail::FaultyKeyText));
    // No record of this log opens, under whatever key.
    let found = search(alloc, &[b'7'; 64], all(alloc)?, faulty.disk, &mut sink);
    assert!(rt; found.result == Ok(()));
    assert!(rt; sink.written() == b"".as_slice());
    Ok(())
}
