use super::*;
use at_edge::{FixedClock, ListEntropy, MemDisk, MemSink, MemSource};
use std::alloc::Global;
use std::test::*;

/// The log of host 1 without an entry.
const NEW_LOG: [u8; 33] = [
    0x41, 0x54, 0x55, 0x4c, 0x4f, 0x47, 0x30, 0x32, 0, 0, 0, 0, 0, 0, 0, 0, 0, 0, 0, 0, 0, 0, 0, 1,
    0, 0, 0, 0, 0, 0, 0, 0, 0,
];

/// `ls` is begun in `/`, session `s1`, on `h:u`; it ends after 1,000 nanoseconds with status 0; and all commands are asked.
const ASKED: [u8; 75] =
    *b"\0\0\0\x0e\x95\x01\xa2ls\xa1/\xa2s1\xa3h:u\0\0\0\x28\x94\x02\xd9\x20018bcfe5680070018203040506070809\xcd\x03\xe8\0\0\0\0\x09\x98\x04\0\0\xa0\xa0\0\0\x0a";

/// The id; the end's place; and the one command.
const ANSWERED: [u8; 117] =
    *b"\0\0\0\x25\x93\0\x01\xd9\x20018bcfe5680070018203040506070809\0\0\0\x04\x93\0\x02\0\0\0\0\x40\x93\0\x02\x91\x98\xd9\x20018bcfe5680070018203040506070809\xcf\x17\x97\x9c\xfe\x36\x2a\0\0\xcd\x03\xe8\0\xa2ls\xa1/\xa2s1\xa3h:u";

/// Random bytes that count up from 0.
fn counting(alloc: Global) -> Result<ListEntropy, Fail> {
    let mut bytes = Vec::new(alloc);
    for byte in 0u8..128 {
        bytes.push(byte)?;
    }
    Ok(ListEntropy::new(bytes, Vec::new(alloc)))
}

/// How `pipe` ends over that log with this text of the key, and the sink.
fn piped_by(alloc: Global, key_text: &[u8]) -> Result<(Piped<MemDisk>, MemSink), Fail> {
    let disk = MemDisk::new(alloc, NEW_LOG.to_vec(alloc)?, Vec::new(alloc))?;
    let mut source = MemSource::new(ASKED.to_vec(alloc)?, Vec::new(alloc));
    let mut sink = MemSink::new(alloc, Vec::new(alloc));
    let mut rand = counting(alloc)?;
    let mut clock = FixedClock {
        now: 1_700_000_000_000_000_000,
        step: 1_000_000_000,
    };
    let piped = pipe(
        alloc,
        key_text,
        disk,
        &mut source,
        &mut sink,
        &mut rand,
        &mut clock,
    );
    Ok((piped, sink))
}

#[test]
fn a_session_is_answered_and_kept(rt: HostRuntime) -> Result<(), Fail> {
    let (piped, sink) = piped_by(rt.alloc(), &[b'7'; 64])?;
    assert!(rt; piped.result == Ok(()));
    assert!(rt; sink.written() == ANSWERED.as_slice());
    assert!(rt; piped.disk.shows().len() == 674);
    Ok(())
}

#[test]
fn a_faulty_key_text_leaves_all(rt: HostRuntime) -> Result<(), Fail> {
    let (piped, sink) = piped_by(rt.alloc(), &[b'7'; 63])?;
    assert!(rt; piped.result == Err(PipeFail::FaultyKeyText));
    assert!(rt; PipeFail::FaultyKeyText.status().number() == 3);
    assert!(rt; sink.written() == b"".as_slice());
    assert!(rt; piped.disk.shows() == NEW_LOG.as_slice());
    Ok(())
}
