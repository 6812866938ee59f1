ghost use Rattle.model_words.specs.Seen.{result_seen};
ghost use Rattle.daemon_wire.specs.Writing.{IsCounted};

use super::*;
use plain_types::{Bytes, NoMemory};
use record_model::{
    Answer, Call, Chain, Chains, Histories, History, NamedText, NamedTexts, Refusal, Reply, Text,
    Texts,
};
use std::alloc::Global;
use std::test::*;

/// The call of a payload of at most 256 bytes.
fn read(alloc: Global, payload: &[u8]) -> Result<Call, CallFail> {
    read_call(alloc, &payload[..payload.len().min(256)])
}

#[test]
fn each_call_is_read(rt: HostRuntime) -> Result<(), Fail> {
    for (payload, shown) in CALLS {
        let call = read(rt.alloc(), payload)?;
        assert_eq!(rt; format!(in rt.alloc(); "{call:?}")?.as_str(), shown);
    }
    Ok(())
}

#[test]
fn what_is_no_call_has_a_place(rt: HostRuntime) {
    for (payload, place) in WRONG {
        match read(rt.alloc(), payload) {
            Err(fail) => assert_eq!(rt; fail, CallFail::BadRequest { place }),
            Ok(_) => panic!(rt; "a call was read"),
        }
    }
}

/// The bytes of a reply, put behind one that stands already.
fn written(alloc: Global, front: u64, answered: Result<Answer, Refusal>) -> Result<Bytes, NoMemory>
    requires { IsCounted (result_seen answered) }
{
    let mut into = Bytes::copied(alloc, b"=")?;
    let reply = Reply {
        front,
        result: answered,
    };
    write_reply(alloc, &reply, &mut into)?;
    Ok(into)
}

#[test]
fn each_refusal_is_written(rt: HostRuntime) -> Result<(), Fail> {
    let alloc = rt.alloc();
    let name = Text::copied(alloc, b"zz")?;
    let table: [(Refusal, u64, &[u8]); 9] = [
        (
            Refusal::TooLong {
                field: 1,
                length: 262_145,
            },
            0,
            b"=\x94\x01\x00\x01\xce\x00\x04\x00\x01",
        ),
        (
            Refusal::TooLong {
                field: 4,
                length: 4097,
            },
            1,
            b"=\x94\x01\x01\x04\xcd\x10\x01",
        ),
        (
            Refusal::UnknownId { id: u128::MAX },
            0,
            b"=\x93\x02\x00\xd9\x20ffffffffffffffffffffffffffffffff",
        ),
        (Refusal::UnknownName { name }, 0, b"=\x93\x03\x00\xa2zz"),
        (
            Refusal::Full {
                what: 3,
                held: 4096,
            },
            1,
            b"=\x94\x04\x01\x03\xcd\x10\x00",
        ),
        (Refusal::RandFault, 1, b"=\x92\x05\x01"),
        (
            Refusal::IdTaken { id: 10 },
            1,
            b"=\x93\x06\x01\xd9\x200000000000000000000000000000000a",
        ),
        (Refusal::DiskFault, 1, b"=\x92\x07\x01"),
        (Refusal::NoMemory, 300, b"=\x92\x08\xcd\x01\x2c"),
    ];
    for (refusal, front, bytes) in table {
        assert_eq!(rt; written(alloc, front, Err(refusal))?.as_slice(), bytes);
    }
    Ok(())
}

/// `ls` in `/`, session `s1`, on `h:u`, that began at 1,000, took 7 ns and ended with -1.
fn hit(alloc: Global, author: Option<Text>) -> Result<History, NoMemory> {
    Ok(History {
        id: 10,
        timestamp: 1000,
        duration: 7,
        exit: -1,
        command: Text::copied(alloc, b"ls")?,
        cwd: Text::copied(alloc, b"/")?,
        session: Text::copied(alloc, b"s1")?,
        hostname: Text::copied(alloc, b"h:u")?,
        deleted_at: None,
        author,
    })
}

#[test]
fn hits_are_written(rt: HostRuntime) -> Result<(), Fail> {
    let alloc = rt.alloc();
    let none = Histories::from_vec(Vec::new(alloc));
    let found = written(alloc, 0, Ok(Answer::Hits(none)))?;
    assert_eq!(rt; found.as_slice(), b"=\x93\x00\x00\x90".as_slice());
    let author = Text::copied(alloc, b"me")?;
    let two = vec![in alloc; hit(alloc, None)?, hit(alloc, Some(author))?]?;
    let found = written(alloc, 2, Ok(Answer::Hits(Histories::from_vec(two))))?;
    let bytes =
        b"=\x93\x00\x02\x92\x98\xd9\x200000000000000000000000000000000a\xcd\x03\xe8\x07\xff\xa2ls\xa1/\xa2s1\xa3h:u\x99\xd9\x200000000000000000000000000000000a\xcd\x03\xe8\x07\xff\xa2ls\xa1/\xa2s1\xa3h:u\xa2me";
    assert_eq!(rt; found.as_slice(), bytes.as_slice());
    Ok(())
}

#[test]
fn ids_indices_and_values_are_written(rt: HostRuntime) -> Result<(), Fail> {
    let alloc = rt.alloc();
    let begun = written(alloc, 1, Ok(Answer::Begun { id: 10 }))?;
    let bytes = b"=\x93\x00\x01\xd9\x200000000000000000000000000000000a";
    assert_eq!(rt; begun.as_slice(), bytes.as_slice());
    let stored = written(alloc, 2, Ok(Answer::Stored { idx: 128 }))?;
    assert_eq!(rt; stored.as_slice(), b"=\x93\x00\x02\xcc\x80".as_slice());
    let value = Text::copied(alloc, b"v")?;
    let some = written(alloc, 1, Ok(Answer::Value(Some(value))))?;
    assert_eq!(rt; some.as_slice(), b"=\x93\x00\x01\xa1v".as_slice());
    let none = written(alloc, 1, Ok(Answer::Value(None)))?;
    assert_eq!(rt; none.as_slice(), b"=\x93\x00\x01\xc0".as_slice());
    Ok(())
}

#[test]
fn lists_are_written(rt: HostRuntime) -> Result<(), Fail> {
    let alloc = rt.alloc();
    let names = vec![in alloc; Text::copied(alloc, b"a")?, Text::copied(alloc, b"b")?]?;
    let names = written(alloc, 2, Ok(Answer::Names(Texts::from_vec(names))))?;
    assert_eq!(rt; names.as_slice(), b"=\x93\x00\x02\x92\xa1a\xa1b".as_slice());
    let alias = NamedText {
        name: Text::copied(alloc, b"g")?,
        value: Text::copied(alloc, b"git")?,
    };
    let aliases = NamedTexts::from_vec(vec![in alloc; alias]?);
    let aliases = written(alloc, 1, Ok(Answer::Aliases(aliases)))?;
    let bytes = b"=\x93\x00\x01\x91\x92\xa1g\xa3git";
    assert_eq!(rt; aliases.as_slice(), bytes.as_slice());
    let chain = Chain {
        host: 1,
        tag: Text::copied(alloc, b"kv")?,
        count: 2,
    };
    let chains = Chains::from_vec(vec![in alloc; chain]?);
    let places = written(alloc, 2, Ok(Answer::Places(chains)))?;
    let bytes = b"=\x93\x00\x02\x91\x93\xd9\x2400000000-0000-0000-0000-000000000001\xa2kv\x02";
    assert_eq!(rt; places.as_slice(), bytes.as_slice());
    Ok(())
}

#[test]
fn a_bad_request_is_written(rt: HostRuntime) {
    let table: [(u64, u32, &[u8]); 7] = [
        (0, 0, b"\x93\x09\x00\x00"),
        (0, 1, b"\x93\x09\x00\x01"),
        (0, 14, b"\x93\x09\x00\x0e"),
        (127, 128, b"\x93\x09\x7f\xcc\x80"),
        (256, 255, b"\x93\x09\xcd\x01\x00\xcc\xff"),
        (
            65_536,
            1_048_576,
            b"\x93\x09\xce\x00\x01\x00\x00\xce\x00\x10\x00\x00",
        ),
        (
            u64::MAX,
            65_535,
            b"\x93\x09\xcf\xff\xff\xff\xff\xff\xff\xff\xff\xcd\xff\xff",
        ),
    ];
    for (front, place, bytes) in table {
        let mut into = [0; 32];
        let length = write_bad(front, place, &mut into);
        assert_eq!(rt; &into[..length], bytes);
    }
}

/// Payloads of each call, and what they ask. The id is 018bcfe5680070018203040506070809.
const CALLS: [(&[u8], &str); 16] = [
    (
        b"\x95\x01\xa2ls\xa1/\xa2s1\xa3h:u",
        "Start { command: Text { inner: \"ls\" }, cwd: Text { inner: \"/\" }, session: Text { inner: \"s1\" }, hostname: Text { inner: \"h:u\" } }",
    ),
    (
        b"\x94\x02\xd9\x20018bcfe5680070018203040506070809\xcd\x03\xe8\xff",
        "End { id: 2055173893345398529861660743456720905, duration: 1000, exit: -1, author: None }",
    ),
    (
        b"\x95\x0c\xd9\x20018bcfe5680070018203040506070809\xcd\x03\xe8\x00\xa2me",
        "End { id: 2055173893345398529861660743456720905, duration: 1000, exit: 0, author: Some(Text { inner: \"me\" }) }",
    ),
    (
        b"\x92\x03\xd9\x20018bcfe5680070018203040506070809",
        "Delete { id: 2055173893345398529861660743456720905 }",
    ),
    (
        b"\x98\x04\x00\x00\xa1x\xa2ls\x00\x00\x0a",
        "Search(Query { mode: Prefix, filter: Global, text: Text { inner: \"ls\" }, unique: false, offset: 0, limit: 10 })",
    ),
    (
        b"\x98\x04\x01\x01\xa1x\xa0\x01\x02\x01",
        "Search(Query { mode: Substring, filter: Host(Text { inner: \"x\" }), text: Text { inner: \"\" }, unique: true, offset: 2, limit: 1 })",
    ),
    (
        b"\x98\x04\x00\x02\xa1x\xa2ls\x00\xce\xff\xff\xff\xff\xcd\x03\xe8",
        "Search(Query { mode: Prefix, filter: Session(Text { inner: \"x\" }), text: Text { inner: \"ls\" }, unique: false, offset: 4294967295, limit: 1000 })",
    ),
    (
        b"\x98\x04\x01\x03\xa1x\xa2ls\x01\x00\x0a",
        "Search(Query { mode: Substring, filter: Directory(Text { inner: \"x\" }), text: Text { inner: \"ls\" }, unique: true, offset: 0, limit: 10 })",
    ),
    (
        b"\x94\x05\xa1n\xa1k\xa1v",
        "KvSet { namespace: Text { inner: \"n\" }, key: Text { inner: \"k\" }, value: Text { inner: \"v\" } }",
    ),
    (
        b"\x93\x06\xa1n\xa1k",
        "KvGet { namespace: Text { inner: \"n\" }, key: Text { inner: \"k\" } }",
    ),
    (
        b"\x93\x0d\xa1n\xa1k",
        "KvDelete { namespace: Text { inner: \"n\" }, key: Text { inner: \"k\" } }",
    ),
    (
        b"\x94\x07\xa1n\xa0\xcd\x03\xe8",
        "KvList { namespace: Text { inner: \"n\" }, after: Text { inner: \"\" }, limit: 1000 }",
    ),
    (
        b"\x93\x08\xa1g\xa3git",
        "AliasSet { name: Text { inner: \"g\" }, value: Text { inner: \"git\" } }",
    ),
    (
        b"\x92\x09\xa1g",
        "AliasDelete { name: Text { inner: \"g\" } }",
    ),
    (
        b"\x93\x0a\xa1g\xcc\x01",
        "AliasList { after: Text { inner: \"g\" }, limit: 1 }",
    ),
    (b"\x91\x0b", "Status"),
];

/// Payloads that spell no call, with the place of the first item that is wrong.
const WRONG: [(&[u8], u32); 46] = [
    // no header, of no items, of nine, and one that is cut
    (b"", 0),
    (b"\x01", 0),
    (b"\x90", 0),
    (b"\x99\x0b", 0),
    (b"\xdc\x00", 0),
    // no number, and those of no call, which are found before a wrong length
    (b"\x91", 1),
    (b"\x91\xa0", 1),
    (b"\x95\x00", 1),
    (b"\x95\x0e", 1),
    (b"\x91\xff", 1),
    (b"\x91\x63", 1),
    // another length
    (b"\x92\x0b\x00", 0),
    (b"\x94\x01\xa2ls\xa1/\xa2s1", 0),
    (
        b"\x95\x02\xd9\x20018bcfe5680070018203040506070809\xcd\x03\xe8\x00\xa2me",
        0,
    ),
    // each item of a Start
    (b"\x95\x01\x01\xa1/\xa2s1\xa3h:u", 2),
    (b"\x95\x01\xa2ls\xc0\xa2s1\xa3h:u", 5),
    (b"\x95\x01\xa2ls\xa1/\xa2s", 7),
    (b"\x95\x01\xa2ls\xa1/\xa2s1\xa1\xff", 10),
    // of an End, without and with an author
    (b"\x94\x02\xa1a\x00\x00", 2),
    (
        b"\x94\x02\xd9\x20018BCFE5680070018203040506070809\x00\x00",
        2,
    ),
    (
        b"\x94\x02\xd9\x20018bcfe5680070018203040506070809\xcf\x80\x00\x00\x00\x00\x00\x00\x00\x00",
        36,
    ),
    (
        b"\x94\x02\xd9\x20018bcfe5680070018203040506070809\x00\xa0",
        37,
    ),
    (
        b"\x95\x0c\xd9\x20018bcfe5680070018203040506070809\x00\x00\x00",
        38,
    ),
    // of a Delete
    (b"\x92\x03\x01", 2),
    // of a Search
    (b"\x98\x04\x02\x00\xa0\xa0\x00\x00\x01", 2),
    (b"\x98\x04\x00\x04\xa0\xa0\x00\x00\x01", 3),
    (b"\x98\x04\x00\x00\x05\xa0\x00\x00\x01", 4),
    (b"\x98\x04\x00\x00\xa0\x05\x00\x00\x01", 5),
    (b"\x98\x04\x00\x00\xa0\xa0\x02\x00\x01", 6),
    (b"\x98\x04\x00\x00\xa0\xa0\x00\xff\x01", 7),
    (
        b"\x98\x04\x00\x00\xa0\xa0\x00\xcf\x00\x00\x00\x01\x00\x00\x00\x00\x01",
        7,
    ),
    (b"\x98\x04\x00\x00\xa0\xa0\x00\x00\x00", 8),
    // of the calls for keys
    (b"\x94\x05\x01\xa1k\xa1v", 2),
    (b"\x94\x05\xa1n\x01\xa1v", 4),
    (b"\x94\x05\xa1n\xa1k\x01", 6),
    (b"\x93\x06\xa1n\xa2k", 4),
    (b"\x94\x07\xa0\xa0\xcd\x03\xe9", 4),
    (b"\x93\x0d\xa1n\x01", 4),
    // of those for aliases
    (b"\x93\x08\x01\xa1v", 2),
    (b"\x93\x08\xa1g\x01", 4),
    (b"\x92\x09\x01", 2),
    (b"\x93\x0a\x01\x01", 2),
    (b"\x93\x0a\xa0\x00", 3),
    // bytes behind a call
    (b"\x91\x0b\x00", 2),
    (b"\x92\x09\xa1g\xa1g", 4),
    (b"\x95\x01\xa2ls\xa1/\xa2s1\xa3h:u\x00", 14),
];
