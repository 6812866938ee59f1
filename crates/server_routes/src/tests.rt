use super::*;
use accounts::Accounts;
use at_edge::{MemDisk, SureSink};
use http_wire::{Request, write_response};
use lone_store::LoneStore;
use plain_types::{Bytes, NoMemory, Text};
use std::alloc::Global;
use std::process::Abort;
use std::test::*;
use store_core::Store;
use told_store::ToldStore;

const RECORD: &str = "/api/v0/record";

const PAGE: &[u8] =
    b"[{\"data\":{\"content_encryption_key\":\"W\",\"data\":\"S\"},\"host\":{\"id\":\"00000000-0000-0000-0000-000000000002\",\"name\":\"\"},\"id\":\"00000000-0000-0000-0000-00000000000a\",\"idx\":0,\"tag\":\"kv\",\"timestamp\":0,\"version\":\"v0\"}]";

const NEXT: &str =
    "/api/v0/record/next?host=00000000-0000-0000-0000-000000000002&tag=kv&start=0&count=101";

/// A new store without a key, for one caller.
fn new_store<R: Abort>(rt: &R, alloc: Global) -> Result<LoneStore<MemDisk>, Fail> {
    let disk = MemDisk::new(alloc, Vec::new(alloc), Vec::new(alloc))?;
    match Store::create(alloc, disk, 1, None) {
        Ok(store) => Ok(LoneStore {
            alloc,
            store: ToldStore::of(store),
        }),
        Err(_) => panic!(rt; "no store was made"),
    }
}

fn new_accounts<R: Abort>(rt: &R, alloc: Global) -> Accounts {
    match Accounts::read(alloc, b"0 abc\n7 abcd\n") {
        Ok(accounts) => accounts,
        Err(_) => panic!(rt; "the accounts weren't read"),
    }
}

fn text(alloc: Global, from: &str) -> Result<Text, NoMemory> {
    if from.len() >= 1 << 32 {
        return Err(NoMemory);
    }
    Text::copied(alloc, from.as_bytes())
}

/// The code and the body of the response to a request.
fn told(
    alloc: Global,
    store: &mut LoneStore<MemDisk>,
    accounts: &Accounts,
    asked: (&str, &str, &str, &[u8]),
) -> Result<(u16, Bytes), NoMemory> {
    let request = Request {
        method: text(alloc, asked.0)?,
        target: text(alloc, asked.1)?,
        authorization: Some(text(alloc, asked.2)?),
        close: false,
        body: Bytes::copied(alloc, asked.3)?,
    };
    let response = answer(alloc, store, 1, accounts, &request);
    Ok((
        response.code,
        Bytes::copied(alloc, response.body.as_slice())?,
    ))
}

#[test]
fn a_new_account_has_an_empty_status(rt: HostRuntime) -> Result<(), Fail> {
    let alloc = rt.alloc();
    let mut store = new_store(&rt, alloc)?;
    let accounts = new_accounts(&rt, alloc);
    let request = Request {
        method: text(alloc, "GET")?,
        target: text(alloc, RECORD)?,
        authorization: Some(text(alloc, "Token abc")?),
        close: false,
        body: Bytes::new(alloc),
    };
    let response = answer(alloc, &mut store, 1, &accounts, &request);
    let mut sink = SureSink::new(alloc);
    assert!(rt; write_response(&response, &mut sink) == Ok(()));
    let wanted =
        b"HTTP/1.1 200 OK\r\nContent-Type: application/json\r\nContent-Length: 12\r\n\r\n{\"hosts\":{}}";
    assert_eq!(rt; sink.written(), wanted.as_slice());
    Ok(())
}

#[test]
fn the_first_refusal_is_told(rt: HostRuntime) -> Result<(), Fail> {
    let alloc = rt.alloc();
    let mut store = new_store(&rt, alloc)?;
    let accounts = new_accounts(&rt, alloc);
    let table = [
        (("PUT", "/api/v0/records", "", b"[".as_slice()), 404),
        (("PUT", RECORD, "", b"[".as_slice()), 405),
        (("POST", RECORD, "Token ab", b"[".as_slice()), 401),
        (("POST", RECORD, "Token abc", b"[".as_slice()), 400),
        (("POST", RECORD, "Token abc", b"[{}]".as_slice()), 400),
    ];
    for (asked, code) in table {
        let (got, _body) = told(alloc, &mut store, &accounts, asked)?;
        assert_eq!(rt; got, code);
    }
    Ok(())
}

#[test]
fn owners_see_their_own_chains_alone(rt: HostRuntime) -> Result<(), Fail> {
    let alloc = rt.alloc();
    let mut store = new_store(&rt, alloc)?;
    let accounts = new_accounts(&rt, alloc);
    let table = [
        (
            ("POST", RECORD, "Token abc", PAGE),
            200,
            b"{\"added\":1}".as_slice(),
        ),
        (
            ("POST", RECORD, "Token abc", PAGE),
            200,
            b"{\"added\":0}".as_slice(),
        ),
        (
            ("GET", RECORD, "Token abc", b"".as_slice()),
            200,
            b"{\"hosts\":{\"00000000-0000-0000-0000-000000000002\":{\"kv\":0}}}".as_slice(),
        ),
        (("GET", NEXT, "Token abc", b"".as_slice()), 200, PAGE),
        (
            ("GET", RECORD, "Token abcd", b"".as_slice()),
            200,
            b"{\"hosts\":{}}".as_slice(),
        ),
        (
            ("GET", NEXT, "Token abcd", b"".as_slice()),
            200,
            b"[]".as_slice(),
        ),
    ];
    for (asked, code, body) in table {
        let (got, told) = told(alloc, &mut store, &accounts, asked)?;
        assert_eq!(rt; got, code);
        assert_eq!(rt; told.as_slice(), body);
    }
    Ok(())
}
