use super::*;
use std::test::*;

/// `ls` in `/`, session `s1`, on `h:u`, that ended after 1,000 ns with status 0, in the 68 bytes of its creation.
const CREATION: &[u8] =
    b"\xcc\x00\xc4\x40\xcd\x00\x00\x99\xd9\x20018bcfe5680070018203040506070809\xcf\x17\x97\x9c\xfe\x36\x2a\x00\x00\xcd\x03\xe8\x00\xa2ls\xa1/\xa2s1\xa3h:u\xc0";

/// The same, run by `me`, in 71 bytes.
const AUTHORED: &[u8] =
    b"\xcc\x00\xc4\x43\xcd\x00\x01\x9a\xd9\x20018bcfe5680070018203040506070809\xcf\x17\x97\x9c\xfe\x36\x2a\x00\x00\xcd\x03\xe8\x00\xa2ls\xa1/\xa2s1\xa3h:u\xc0\xa2me";

const DELETION: &[u8] = b"\xcc\x01\xd9\x20018bcfe5680070018203040506070809";

const VALUE: &[u8] = b"\x93\xa1n\xa1k\xa1v";

const LATER_VALUE: &[u8] = b"\xcc\x00\x93\xa1n\xa1k\xa1v";

const NO_VALUE: &[u8] = b"\xcc\x01\x92\xa1n\xa1k";

const ALIAS: &[u8] = b"\xcc\x00\x92\xa1g\xa3git";

const NO_ALIAS: &[u8] = b"\xcc\x01\x91\xa1g";

const HISTORY: &[u8] = b"history";

const KEYS: &[u8] = b"kv";

const ALIASES: &[u8] = b"dotfiles-shell-alias";

#[test]
fn what_spells_no_payload_is_unread(rt: HostRuntime) {
    let refused: [(&[u8], &[u8], &[u8]); 21] = [
        // other versions and tags
        (HISTORY, b"v9", CREATION),
        (HISTORY, b"v1", CREATION),
        (HISTORY, b"v0", AUTHORED),
        (HISTORY, b"", CREATION),
        (KEYS, b"v0", CREATION),
        (b"histor", b"v0", CREATION),
        (KEYS, b"v1", VALUE),
        (KEYS, b"v0", LATER_VALUE),
        (KEYS, b"v0", NO_VALUE),
        (ALIASES, b"v1", ALIAS),
        (KEYS, b"v0", ALIAS),
        // a text that is no UTF-8, and lengths that promise more than there is
        (KEYS, b"v0", b"\x93\xa1n\xa1k\xa1\xff"),
        (KEYS, b"v0", b"\x93\xa1n\xa1k\xdb\xff\xff\xff\xffv"),
        (KEYS, b"v0", b"\xdd\xff\xff\xff\xff\xa1n\xa1k\xa1v"),
        (HISTORY, b"v0", b"\xcc\x00\xc6\xff\xff\xff\xff\x00"),
        // a time below 0, a duration of 2^63 and a deletion below 0
        (
            HISTORY,
            b"v0",
            b"\xcc\x00\xc4\x38\xcd\x00\x00\x99\xd9\x20018bcfe5680070018203040506070809\xff\xcd\x03\xe8\x00\xa2ls\xa1/\xa2s1\xa3h:u\xc0",
        ),
        (
            HISTORY,
            b"v0",
            b"\xcc\x00\xc4\x46\xcd\x00\x00\x99\xd9\x20018bcfe5680070018203040506070809\xcf\x17\x97\x9c\xfe\x36\x2a\x00\x00\xcf\x80\x00\x00\x00\x00\x00\x00\x00\x00\xa2ls\xa1/\xa2s1\xa3h:u\xc0",
        ),
        (
            HISTORY,
            b"v0",
            b"\xcc\x00\xc4\x40\xcd\x00\x00\x99\xd9\x20018bcfe5680070018203040506070809\xcf\x17\x97\x9c\xfe\x36\x2a\x00\x00\xcd\x03\xe8\x00\xa2ls\xa1/\xa2s1\xa3h:u\xff",
        ),
        // another number, an id of other digits, and nothing
        (
            HISTORY,
            b"v0",
            b"\xcc\x02\xd9\x20018bcfe5680070018203040506070809",
        ),
        (
            HISTORY,
            b"v0",
            b"\xcc\x01\xd9\x20018BCFE5680070018203040506070809",
        ),
        (HISTORY, b"v0", b""),
    ];
    for (tag, version, bytes) in refused {
        assert!(rt; is_unread(&rt, tag, version, bytes));
    }
}

fn is_unread(rt: &impl AllocGlobal, tag: &[u8], version: &[u8], bytes: &[u8]) -> bool {
    matches!(
        read_payload(rt.alloc(), tag, version, bytes),
        Err(PayloadFail::Unread)
    )
}

#[test]
fn a_payload_that_is_cut_or_goes_on_is_unread(rt: HostRuntime) -> Result<(), Fail> {
    let alloc = rt.alloc();
    let table: [(&[u8], &[u8], &[u8]); 8] = [
        (HISTORY, b"v0", CREATION),
        (HISTORY, b"v1", AUTHORED),
        (HISTORY, b"v0", DELETION),
        (KEYS, b"v0", VALUE),
        (KEYS, b"v1", LATER_VALUE),
        (KEYS, b"v1", NO_VALUE),
        (ALIASES, b"v0", ALIAS),
        (ALIASES, b"v0", NO_ALIAS),
    ];
    for (tag, version, bytes) in table {
        for len in 0..bytes.len() {
            assert!(rt; is_unread(&rt, tag, version, &bytes[..len]));
        }
        let mut longer = Vec::from_slice(alloc, bytes)?;
        longer.push(0)?;
        assert!(rt; is_unread(&rt, tag, version, longer.as_slice()));
    }
    Ok(())
}

#[test]
fn what_is_read_is_written_again(rt: HostRuntime) -> Result<(), Fail> {
    let alloc = rt.alloc();
    let table: [(&[u8], &[u8], &[u8], u8); 7] = [
        (HISTORY, b"v0", CREATION, 0),
        (HISTORY, b"v1", AUTHORED, 1),
        (HISTORY, b"v0", DELETION, 0),
        (KEYS, b"v0", VALUE, 0),
        (KEYS, b"v1", NO_VALUE, 1),
        (ALIASES, b"v0", ALIAS, 0),
        (ALIASES, b"v0", NO_ALIAS, 0),
    ];
    for (tag, version, bytes, number) in table {
        let bytes = &bytes[..bytes.len().min(100)];
        let payload = read_payload(alloc, tag, version, bytes)?;
        assert_eq!(rt; payload_version(&payload), number);
        assert_eq!(rt; payload_len(&payload), bytes.len() as u64);
        let written = write_payload(alloc, &payload)?;
        assert_eq!(rt; written.as_slice(), bytes);
    }
    Ok(())
}

#[test]
fn every_spelling_is_read_and_the_shortest_written(rt: HostRuntime) -> Result<(), Fail> {
    let alloc = rt.alloc();
    // exit -1, and a duration of 49,206,000 ns in eight bytes
    let wide =
        b"\xcc\x00\xc5\x00\x41\x00\xdc\x00\x09\xd9\x20018bcfe5680070018203040506070809\x05\xd3\x00\x00\x00\x00\x02\xee\xd2\xf0\xff\xda\x00\x02ls\xa1/\xd9\x02s1\xa3h:u\x07";
    let written =
        b"\xcc\x00\xc4\x4a\xcd\x00\x00\x99\xd9\x20018bcfe5680070018203040506070809\xcf\x00\x00\x00\x00\x00\x00\x00\x05\xce\x02\xee\xd2\xf0\xff\xa2ls\xa1/\xa2s1\xa3h:u\xcf\x00\x00\x00\x00\x00\x00\x00\x07";
    let payload = read_payload(alloc, HISTORY, b"v0", wide)?;
    match &payload {
        Payload::HistoryCreate(history) => {
            assert_eq!(rt;
                (
                    history.timestamp,
                    history.duration,
                    history.exit,
                    history.deleted_at
                ),
                (5, 49_206_000, -1, Some(7))
            );
            assert_eq!(rt; history.command.as_bytes(), b"ls".as_slice());
        }
        _ => panic!(rt; "another payload"),
    }
    assert_eq!(rt;
        write_payload(alloc, &payload)?.as_slice(),
        written.as_slice()
    );
    let later = read_payload(alloc, KEYS, b"v1", LATER_VALUE)?;
    assert_eq!(rt; write_payload(alloc, &later)?.as_slice(), VALUE);
    Ok(())
}
