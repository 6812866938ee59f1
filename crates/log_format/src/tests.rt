use super::*;
use plain_types::{NoMemory, Text};
use record_model::{Event, Record, Started};
use std::alloc::Global;
use std::process::Abort;
use std::test::*;

/// The body of a batch in which `ls` was started in `/`, session `s1`, on `h:u`.
const LS: [u8; 53] = [
    0, 0, 0, 1, 1, 0x01, 0x8b, 0xcf, 0xe5, 0x68, 0x00, 0x70, 0x01, 0x82, 0x03, 0x04, 0x05, 0x06,
    0x07, 0x08, 0x09, 0x17, 0x97, 0x9c, 0xfe, 0x36, 0x2a, 0x00, 0x00, 0, 0, 0, 2, 0x6c, 0x73, 0, 0,
    0, 1, 0x2f, 0, 0, 0, 2, 0x73, 0x31, 0, 0, 0, 3, 0x68, 0x3a, 0x75,
];

/// Its digest behind a gate at 32, as Python's `hashlib.blake2b(.., digest_size=16)` has it.
const LS_DIGEST: [u8; 16] = [
    0xf7, 0xdf, 0x43, 0x2f, 0x11, 0xae, 0x16, 0x44, 0xa5, 0xc2, 0xb6, 0x25, 0xe7, 0x4d, 0xcf, 0x75,
];

/// The id of that command, and a host.
const FIRST_ID: u128 = 0x018b_cfe5_6800_7001_8203_0405_0607_0809;

fn is_ls<R: Abort>(rt: &R, event: &Event) {
    let Event::Started(started) = event else {
        assert!(rt; false);
        return;
    };
    assert_eq!(rt;
        (started.id, started.timestamp),
        (FIRST_ID, 1_700_000_000_000_000_000)
    );
    assert_eq!(rt; started.command.as_bytes(), b"ls".as_slice());
    assert_eq!(rt; started.hostname.as_bytes(), b"h:u".as_slice());
}

#[test]
fn a_body_is_read_and_written(rt: HostRuntime) -> Result<(), Fail> {
    let alloc = rt.alloc();
    let Ok(events) = read_batch(alloc, &LS) else {
        assert!(rt; false);
        return Ok(());
    };
    assert_eq!(rt; events.as_slice().len(), 1);
    is_ls(&rt, &events[0]);
    let started = Started {
        id: FIRST_ID,
        timestamp: 1_700_000_000_000_000_000,
        command: Text::copied(alloc, b"ls")?,
        cwd: Text::copied(alloc, b"/")?,
        session: Text::copied(alloc, b"s1")?,
        hostname: Text::copied(alloc, b"h:u")?,
    };
    let batch = vec![in alloc; Event::Started(started)]?;
    let body = write_batch(alloc, batch.as_slice())?;
    assert_eq!(rt; body.as_slice(), LS.as_slice());
    assert_eq!(rt; batch_digest(32, &LS), LS_DIGEST);
    Ok(())
}

/// The place at which the body of `ls` with this byte in place of the one at `at` can't be read.
fn place_with(rt: &HostRuntime, at: usize, byte: u8) -> u64 {
    let mut body = LS;
    if at < 53 {
        body[at] = byte;
    }
    match read_batch(rt.alloc(), &body) {
        Err(FormatFail::Wrong { place }) => place,
        _ => 1000,
    }
}

#[test]
fn a_body_is_wrong_at_its_first_field(rt: HostRuntime) -> Result<(), Fail> {
    // No events, 101 of them, two, a kind 9, a text past the end, one that isn't UTF-8.
    for (at, byte, place) in [
        (3, 0, 0),
        (3, 101, 0),
        (3, 2, 53),
        (4, 9, 4),
        (29, 0xff, 29),
        (33, 0xff, 29),
    ] {
        assert_eq!(rt; place_with(&rt, at, byte), place);
    }
    // The last text passes the end of the body less one byte; a body of 40 bytes ends within the third text.
    for (count, place) in [(52, 46), (40, 40), (21, 21), (3, 0), (0, 0)] {
        let read = read_batch(rt.alloc(), &LS[..count]);
        assert!(rt; matches!(&read, Err(FormatFail::Wrong { place: at }) if *at == place));
    }
    Ok(())
}

#[test]
fn records_are_read_back(rt: HostRuntime) -> Result<(), Fail> {
    let alloc = rt.alloc();
    let rec = Record {
        id: 0xa1,
        idx: 0xa2,
        host: 0xa3,
        host_name: Text::copied(alloc, b"a")?,
        timestamp: 0xa4,
        version: Text::copied(alloc, b"b")?,
        tag: Text::copied(alloc, b"c")?,
        sealed: Text::copied(alloc, b"d")?,
        wrapped: Text::copied(alloc, b"e")?,
    };
    let taken = rec.copy(alloc)?;
    let batch = vec![in alloc;
        Event::Local {
            rec,
            closes: Some(7)
        },
        Event::Taken {
            owner: 5,
            rec: taken
        },
    ]?;
    let body = write_batch(alloc, batch.as_slice())?;
    // Two events of 1 + 17 + 73 and 1 + 4 + 73 bytes.
    assert_eq!(rt; body.len(), 173);
    let Ok(events) = read_batch(alloc, body.as_slice()) else {
        assert!(rt; false);
        return Ok(());
    };
    assert_eq!(rt; events.as_slice().len(), 2);
    assert!(rt; matches!(&events[0], Event::Local { rec, closes: Some(7) } if rec.idx == 0xa2));
    assert!(rt; matches!(&events[1], Event::Taken { owner: 5, rec } if rec.timestamp == 0xa4));
    Ok(())
}

/// Reads the body of `ls` in two pieces, of which the first has `count` bytes.
fn in_two_pieces<R: Abort>(rt: &R, alloc: Global, count: usize) -> Result<(), Fail> {
    let (first, second) = LS.split_at(count.min(53));
    let mut reader = BodyReader::new(alloc, 53);
    reader.push(first)?;
    let Ok(None) = reader.next(alloc) else {
        assert!(rt; false);
        return Ok(());
    };
    reader.push(second)?;
    let Ok(Some(event)) = reader.next(alloc) else {
        assert!(rt; false);
        return Ok(());
    };
    is_ls(rt, &event);
    assert!(rt; matches!(reader.next(alloc), Ok(None)));
    assert!(rt; reader.finish().is_ok());
    Ok(())
}

#[test]
fn a_body_comes_in_pieces(rt: HostRuntime) -> Result<(), Fail> {
    let alloc = rt.alloc();
    for count in 0..53 {
        in_two_pieces(&rt, alloc, count)?;
    }
    // The first 40 bytes alone end too early; a kind 9 is wrong at once.
    let mut cut = BodyReader::new(alloc, 53);
    cut.push(&LS[..40])?;
    assert!(rt; matches!(cut.next(alloc), Ok(None)));
    assert!(rt; matches!(cut.finish(), Err(FormatFail::Wrong { place: 40 })));
    let mut wrong = BodyReader::new(alloc, 53);
    wrong.push(&[0, 0, 0, 1, 9])?;
    assert!(rt; matches!(wrong.next(alloc), Err(FormatFail::Wrong { place: 4 })));
    Ok(())
}

#[test]
fn a_header_names_its_host(rt: HostRuntime) -> Result<(), Fail> {
    let header = write_header(FIRST_ID);
    assert_eq!(rt; &header[..8], b"ATULOG02".as_slice());
    assert_eq!(rt; header[8], 0x01);
    assert_eq!(rt; &header[23..], [0x09, 0, 0, 0, 0, 0, 0, 0, 0, 0].as_slice());
    assert!(rt; matches!(read_header(&header), Ok(FIRST_ID)));
    assert!(rt;
        matches!(
            read_old_header(&header),
            Err(FormatFail::Wrong { place: 0 })
        )
    );
    for (count, place) in [
        (0, 0),
        (7, 0),
        (8, 8),
        (23, 8),
        (24, 24),
        (31, 24),
        (32, 32),
    ] {
        let read = read_header(&header[..count]);
        assert!(rt; matches!(read, Err(FormatFail::Wrong { place: at }) if at == place));
    }
    let mut other = header;
    other[31] = 1;
    assert!(rt; matches!(read_header(&other), Err(FormatFail::Wrong { place: 24 })));
    other[31] = 0;
    other[7] = b'1';
    assert!(rt; matches!(read_old_header(&other), Ok(FIRST_ID)));
    Ok(())
}
