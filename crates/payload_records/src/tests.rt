use super::*;
use payload_forms::{Payload, payload_len};
use plain_types::{NoMemory, Text};
use record_model::{History, Record};
use std::test::*;

// The key, and the 96 bytes that serve a seal, count up; the texts are those that the tests of record_seal have.
const KEY: [u8; 32] = [
    0x70, 0x71, 0x72, 0x73, 0x74, 0x75, 0x76, 0x77, 0x78, 0x79, 0x7a, 0x7b, 0x7c, 0x7d, 0x7e, 0x7f,
    0x80, 0x81, 0x82, 0x83, 0x84, 0x85, 0x86, 0x87, 0x88, 0x89, 0x8a, 0x8b, 0x8c, 0x8d, 0x8e, 0x8f,
];

const SEALED: &str =
    "v4.local.ICEiIyQlJicoKSorLC0uLzAxMjM0NTY3ODk6Ozw9Pj-7OI1oeFWwCikZ-6kGlKU8IZH6qGeEF79nPn_5pZ60JwJAUO6fhVAkfZ1w97ma_yqxhcNcYZ6O0hoUDgHx97FIo3rbz43oA76-UsJbUBV_-zdJmfRAKiTU8A8WEUiW9_33tu8KdAN6JBeVnQoK96pMVAt_bDc6UEXwZZJLQyqZSk89-CEsXQ";

const STAMP: Stamp = Stamp {
    id: 1,
    idx: 0,
    host: 1,
    timestamp: 7,
};

/// The bytes 00, 01, ..
fn counted<const N: usize>() -> [u8; N] {
    let mut bytes = [0u8; N];
    for i in 0..N {
        bytes[i] = (i % 256) as u8;
    }
    bytes
}

/// `ls` in `/`, session `s1`, on `h:u`, that ended after 1,000 ns with status 0.
fn ls<R: AllocGlobal>(rt: &R) -> Result<Payload, NoMemory> {
    Ok(Payload::HistoryCreate(History {
        id: 0x018bcfe5_6800_7001_8203_040506070809,
        timestamp: 1_700_000_000_000_000_000,
        duration: 1_000,
        exit: 0,
        command: Text::copied(rt.alloc(), b"ls")?,
        cwd: Text::copied(rt.alloc(), b"/")?,
        session: Text::copied(rt.alloc(), b"s1")?,
        hostname: Text::copied(rt.alloc(), b"h:u")?,
        deleted_at: None,
        author: None,
    }))
}

/// The weight that is told of a payload of at most 1,000 bytes, and its record.
fn weighed_and_sealed<R: AllocGlobal>(
    rt: &R,
    payload: &Payload,
) -> Result<(u64, Record), NoMemory> {
    if payload_len(payload) > 1000 {
        return Err(NoMemory);
    }
    let rec = seal_payload(rt.alloc(), &KEY, STAMP, payload, &counted())?;
    Ok((weight(rt.alloc(), payload), rec))
}

#[test]
fn a_command_is_sealed_in_v0(rt: HostRuntime) -> Result<(), Fail> {
    let (told, rec) = weighed_and_sealed(&rt, &ls(&rt)?)?;
    assert_eq!(rt; (rec.id, rec.idx, rec.host, rec.timestamp), (1, 0, 1, 7));
    assert_eq!(rt; rec.tag.as_bytes(), b"history".as_slice());
    assert_eq!(rt; rec.version.as_bytes(), b"v0".as_slice());
    assert_eq!(rt; rec.sealed.as_bytes(), SEALED.as_bytes());
    assert_eq!(rt; (rec.host_name.len(), rec.wrapped.len()), (0, 216));
    assert_eq!(rt; (told, rec.weight()), (584, 584));
    Ok(())
}

#[test]
fn a_pair_is_deleted_in_v1(rt: HostRuntime) -> Result<(), Fail> {
    let payload = Payload::KvDelete {
        namespace: Text::copied(rt.alloc(), b"n")?,
        key: Text::copied(rt.alloc(), b"k")?,
    };
    let (told, rec) = weighed_and_sealed(&rt, &payload)?;
    assert_eq!(rt; rec.tag.as_bytes(), b"kv".as_slice());
    assert_eq!(rt; rec.version.as_bytes(), b"v1".as_slice());
    assert_eq!(rt; told, rec.weight());
    Ok(())
}
