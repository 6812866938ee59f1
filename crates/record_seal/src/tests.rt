use super::*;
use plain_types::{NoMemory, Text};
use record_model::Record;
use std::process::Abort;
use std::test::*;

// The key, and the 96 bytes that serve a seal, count up; bench/sealed_records.py computes the texts from them.
const KEY: [u8; 32] = [
    0x70, 0x71, 0x72, 0x73, 0x74, 0x75, 0x76, 0x77, 0x78, 0x79, 0x7a, 0x7b, 0x7c, 0x7d, 0x7e, 0x7f,
    0x80, 0x81, 0x82, 0x83, 0x84, 0x85, 0x86, 0x87, 0x88, 0x89, 0x8a, 0x8b, 0x8c, 0x8d, 0x8e, 0x8f,
];

// A command that ended, as `v0` writes it.
const PAYLOAD: &[u8; 68] =
    b"\xcc\x00\xc4@\xcd\x00\x00\x99\xd9 018bcfe5680070018203040506070809\xcf\x17\x97\x9c\xfe6*\x00\x00\xcd\x03\xe8\x00\xa2ls\xa1/\xa2s1\xa3h:u\xc0";

const SEALED: &str =
    "v4.local.ICEiIyQlJicoKSorLC0uLzAxMjM0NTY3ODk6Ozw9Pj-7OI1oeFWwCikZ-6kGlKU8IZH6qGeEF79nPn_5pZ60JwJAUO6fhVAkfZ1w97ma_yqxhcNcYZ6O0hoUDgHx97FIo3rbz43oA76-UsJbUBV_-zdJmfRAKiTU8A8WEUiW9_33tu8KdAN6JBeVnQoK96pMVAt_bDc6UEXwZZJLQyqZSk89-CEsXQ";

const WRAPPED: &str =
    "{\"wpk\":\"k4.local-wrap.pie.Zrzbcp4YVDRzatXilqWJizh-B-BhU30GYSlkNuhxRYxAQUJDREVGR0hJSktMTU5PUFFSU1RVVldYWVpbXF1eX3dfALdzRD-_IzYjMQtc34F8F8HW9hfzCwoy4rUruGOS\",\"kid\":\"k4.lid.iVtYQDjr5gEijCSjJC3fQaJm7nCeQSeaty0Jixy8dbsk\"}";

const WRAP: &str =
    "k4.local-wrap.pie.Zrzbcp4YVDRzatXilqWJizh-B-BhU30GYSlkNuhxRYxAQUJDREVGR0hJSktMTU5PUFFSU1RVVldYWVpbXF1eX3dfALdzRD-_IzYjMQtc34F8F8HW9hfzCwoy4rUruGOS";

const KEY_ID: &str = "k4.lid.iVtYQDjr5gEijCSjJC3fQaJm7nCeQSeaty0Jixy8dbsk";

const OTHER_ID: &str = "k4.lid.T2kuGH0-g0hZfW2VScg2r1VRxuDinkmPwMOH2kG0gF5b";

/// The bytes 00, 01, ..
fn counted<const N: usize>() -> [u8; N] {
    let mut bytes = [0u8; N];
    for i in 0..N {
        bytes[i] = (i % 256) as u8;
    }
    bytes
}

/// The pieces one after another.
fn joined<R: AllocGlobal + Abort>(rt: &R, pieces: &[&str]) -> Result<Text, NoMemory> {
    let mut text = String::new(rt.alloc());
    for piece in pieces {
        text.push_str(piece)?;
    }
    assert!(rt; text.len() < 1000);
    Ok(Text::from_string(text))
}

/// The text with another character at a place.
fn changed<R: AllocGlobal + Abort>(rt: &R, text: &str, at: usize) -> Result<Text, NoMemory> {
    let mut bytes = Vec::from_slice(rt.alloc(), text.as_bytes())?;
    assert!(rt; at < bytes.len() && bytes.len() < 1000);
    bytes[at] = if bytes[at] == b'A' { b'B' } else { b'A' };
    match String::from_utf8(bytes) {
        Ok(text) => {
            assert!(rt; text.len() < 1000);
            Ok(Text::from_string(text))
        }
        Err(_) => panic!(rt; "not UTF-8"),
    }
}

/// The record with index 0 in the chain of host 1, of these texts.
fn record<R: AllocGlobal + Abort>(rt: &R, sealed: Text, wrapped: Text) -> Result<Record, NoMemory> {
    Ok(Record {
        id: 1,
        idx: 0,
        host: 1,
        host_name: Text::new(rt.alloc()),
        timestamp: 7,
        version: Text::copied(rt.alloc(), b"v0")?,
        tag: Text::copied(rt.alloc(), b"history")?,
        sealed,
        wrapped,
    })
}

fn worked<R: AllocGlobal + Abort>(rt: &R) -> Result<Record, NoMemory> {
    record(rt, joined(rt, &[SEALED])?, joined(rt, &[WRAPPED])?)
}

/// What opening a record answers.
enum Wanted {
    Payload,
    WrongKey(&'static str),
    BadSeal,
}

fn assert_unseals<R: AllocGlobal + Abort>(rt: &R, key: &[u8; 32], rec: &Record, wanted: &Wanted) {
    match (unseal(rt.alloc(), key, rec), wanted) {
        (Ok(payload), Wanted::Payload) => {
            assert_eq!(rt; payload.as_slice(), PAYLOAD.as_slice());
        }
        (Err(SealFail::WrongKey { kid }), Wanted::WrongKey(id)) => {
            assert_eq!(rt; kid.as_bytes(), id.as_bytes());
        }
        (Err(SealFail::BadSeal), Wanted::BadSeal) => (),
        _ => panic!(rt; "another answer"),
    }
}

#[test]
fn a_payload_is_sealed_and_opened(rt: HostRuntime) -> Result<(), Fail> {
    let rec = worked(&rt)?;
    let head = Head {
        id: rec.id,
        idx: rec.idx,
        version: rec.version.copy(rt.alloc())?,
        tag: rec.tag.copy(rt.alloc())?,
        host: rec.host,
    };
    let made = seal(rt.alloc(), &KEY, &head, PAYLOAD, &counted())?;
    assert_eq!(rt; made.sealed.as_bytes(), SEALED.as_bytes());
    assert_eq!(rt; made.wrapped.as_bytes(), WRAPPED.as_bytes());
    assert_eq!(rt; (made.sealed.len(), made.wrapped.len()), (231, 216));
    assert_eq!(rt; sealed_weight(&head, 68), 584);
    assert_eq!(rt; rec.weight(), 584);
    assert_unseals(&rt, &KEY, &rec, &Wanted::Payload);
    assert_unseals(&rt, &counted(), &rec, &Wanted::WrongKey(KEY_ID));
    Ok(())
}

#[test]
fn what_a_record_says_is_bound(rt: HostRuntime) -> Result<(), Fail> {
    let mut rec = worked(&rt)?;
    rec.id = 2;
    assert_unseals(&rt, &KEY, &rec, &Wanted::BadSeal);
    rec.id = 1;
    rec.idx = 1;
    assert_unseals(&rt, &KEY, &rec, &Wanted::BadSeal);
    rec.idx = 0;
    rec.host = 2;
    assert_unseals(&rt, &KEY, &rec, &Wanted::BadSeal);
    rec.host = 1;
    rec.tag = Text::copied(rt.alloc(), b"kv")?;
    assert_unseals(&rt, &KEY, &rec, &Wanted::BadSeal);
    rec.tag = Text::copied(rt.alloc(), b"history")?;
    rec.version = Text::copied(rt.alloc(), b"v1")?;
    assert_unseals(&rt, &KEY, &rec, &Wanted::BadSeal);
    rec.version = Text::copied(rt.alloc(), b"v0")?;
    rec.timestamp = 8;
    assert_unseals(&rt, &KEY, &rec, &Wanted::Payload);
    Ok(())
}

#[test]
fn no_character_can_be_another(rt: HostRuntime) -> Result<(), Fail> {
    for at in 0..SEALED.len() {
        let rec = record(&rt, changed(&rt, SEALED, at)?, joined(&rt, &[WRAPPED])?)?;
        assert_unseals(&rt, &KEY, &rec, &Wanted::BadSeal);
    }
    for at in 0..WRAPPED.len() {
        let rec = record(&rt, joined(&rt, &[SEALED])?, changed(&rt, WRAPPED, at)?)?;
        let answer = unseal(rt.alloc(), &KEY, &rec);
        assert_eq!(rt;
            matches!(answer, Err(SealFail::WrongKey { .. })),
            (163..214).contains(&at)
        );
        assert!(rt; answer.is_err());
    }
    Ok(())
}

// Key texts, in pieces, and what a record with the text opens to.
const KEY_TEXTS: [(&[&str], Wanted); 12] = [
    // the members in another order, spaces, and further members
    (
        &["{\"kid\":\"", KEY_ID, "\",\"wpk\":\"", WRAP, "\"}"],
        Wanted::Payload,
    ),
    (
        &[
            " {\"wpk\" : \"",
            WRAP,
            "\" ,\n\"more\":[1e3,{}],\"kid\":\"",
            KEY_ID,
            "\"}",
        ],
        Wanted::Payload,
    ),
    // a member that comes twice
    (
        &[
            "{\"wpk\":\"",
            WRAP,
            "\",\"kid\":\"",
            OTHER_ID,
            "\",\"kid\":\"",
            KEY_ID,
            "\"}",
        ],
        Wanted::Payload,
    ),
    (
        &[
            "{\"wpk\":\"",
            WRAP,
            "\",\"kid\":\"",
            KEY_ID,
            "\",\"kid\":\"",
            OTHER_ID,
            "\"}",
        ],
        Wanted::WrongKey(OTHER_ID),
    ),
    // another key's, whatever is wrapped
    (&["{\"wpk\":\"\",\"kid\":\"\"}"], Wanted::WrongKey("")),
    // no key text, or none of this key
    (&[""], Wanted::BadSeal),
    (&["[\"", WRAP, "\",\"", KEY_ID, "\"]"], Wanted::BadSeal),
    (&["{\"wpk\":\"", WRAP, "\"}"], Wanted::BadSeal),
    (&["{\"kid\":\"", OTHER_ID, "\"}"], Wanted::BadSeal),
    (&["{\"wpk\":1,\"kid\":\"", OTHER_ID, "\"}"], Wanted::BadSeal),
    (
        &["{\"wpk\":\"", WRAP, "\",\"kid\":\"", KEY_ID, "\"},"],
        Wanted::BadSeal,
    ),
    (
        &["{\"wpk\":\"", WRAP, "A\",\"kid\":\"", KEY_ID, "\"}"],
        Wanted::BadSeal,
    ),
];

#[test]
fn key_texts_are_read_as_json(rt: HostRuntime) -> Result<(), Fail> {
    for (pieces, wanted) in &KEY_TEXTS {
        let rec = record(&rt, joined(&rt, &[SEALED])?, joined(&rt, pieces)?)?;
        assert_unseals(&rt, &KEY, &rec, wanted);
    }
    Ok(())
}

#[test]
fn refusals_stand_among_what_opened(rt: HostRuntime) -> Result<(), Fail> {
    let mut recs = Vec::new(rt.alloc());
    recs.push(worked(&rt)?)?;
    let other = joined(
        &rt,
        &["{\"wpk\":\"", WRAP, "\",\"kid\":\"", OTHER_ID, "\"}"],
    )?;
    recs.push(record(&rt, joined(&rt, &[SEALED])?, other)?)?;
    recs.push(record(&rt, changed(&rt, SEALED, 100)?, joined(&rt, &[WRAPPED])?)?)?;
    let all = unseal_all(&rt, rt.alloc(), &KEY, &recs)?;
    match all.as_slice() {
        [
            Opened::Payload(payload),
            Opened::WrongKey { kid },
            Opened::BadSeal,
        ] => {
            assert_eq!(rt; payload.as_slice(), PAYLOAD.as_slice());
            assert_eq!(rt; kid.as_bytes(), OTHER_ID.as_bytes());
        }
        _ => panic!(rt; "other answers"),
    }
    Ok(())
}
