use super::*;
use plain_types::{Bytes, NoMemory, Text};
use record_model::{Chain, Record};
use std::alloc::Global;
use std::test::*;

const PAGE: &[u8] =
    b"[{\"data\":{\"content_encryption_key\":\"w\",\"data\":\"s\\\"\"},\"host\":{\"id\":\"00000000-0000-0000-0000-000000000002\",\"name\":\"h\\n\\u0001\"},\"id\":\"018bcfe5-6800-7001-8203-040506070809\",\"idx\":0,\"tag\":\"kv\",\"timestamp\":18446744073709551615,\"version\":\"v0\"}]";

fn record(alloc: Global) -> Result<Record, NoMemory> {
    Ok(Record {
        id: 0x018b_cfe5_6800_7001_8203_0405_0607_0809,
        idx: 0,
        host: 2,
        host_name: Text::copied(alloc, b"h\n\x01")?,
        timestamp: u64::MAX,
        version: Text::copied(alloc, b"v0")?,
        tag: Text::copied(alloc, b"kv")?,
        sealed: Text::copied(alloc, b"s\"")?,
        wrapped: Text::copied(alloc, b"w")?,
    })
}

#[test]
fn a_page_is_written(rt: HostRuntime) -> Result<(), Fail> {
    let alloc = rt.alloc();
    let page = [record(alloc)?];
    assert_eq!(rt; write_records(alloc, &page)?.as_slice(), PAGE);
    assert_eq!(rt; write_records(alloc, &[])?.as_slice(), b"[]".as_slice());
    Ok(())
}

/// What is read, written again.
fn rewritten(alloc: Global, text: &[u8]) -> Result<Bytes, NoMemory> {
    match read_records(alloc, text) {
        Ok(page) => write_records(alloc, &page),
        Err(_) => Err(NoMemory),
    }
}

fn refusal(alloc: Global, text: &[u8]) -> Option<JsonFail> {
    match read_records(alloc, text) {
        Ok(_) => None,
        Err(fail) => Some(fail),
    }
}

#[test]
fn a_page_is_read_in_any_order(rt: HostRuntime) -> Result<(), Fail> {
    let alloc = rt.alloc();
    let text =
        b" [ {\"version\":\"v0\",\"timestamp\":18446744073709551615,\"tag\":\"\",\"tag\":\"kv\",\"idx\":0,\"id\":\"018BCFE5680070018203040506070809\",\"host\":{\"id\":\"urn:uuid:00000000-0000-0000-0000-000000000002\",\"name\":\"h\\n\\u0001\",\"os\":null},\"data\":{\"data\":\"s\\u0022\",\"content_encryption_key\":\"w\"}} ] ";
    assert_eq!(rt; rewritten(alloc, text)?.as_slice(), PAGE);
    assert_eq!(rt; rewritten(alloc, b"[]")?.as_slice(), b"[]".as_slice());
    // A host without a name.
    let unnamed =
        b"[{\"version\":\"\",\"timestamp\":1,\"tag\":\"\",\"idx\":2,\"id\":\"018bcfe5-6800-7001-8203-040506070809\",\"host\":{\"id\":\"00000000-0000-0000-0000-000000000002\"},\"data\":{\"data\":\"\",\"content_encryption_key\":\"\"}}]";
    let shown =
        b"[{\"data\":{\"content_encryption_key\":\"\",\"data\":\"\"},\"host\":{\"id\":\"00000000-0000-0000-0000-000000000002\",\"name\":\"\"},\"id\":\"018bcfe5-6800-7001-8203-040506070809\",\"idx\":2,\"tag\":\"\",\"timestamp\":1,\"version\":\"\"}]";
    assert_eq!(rt; rewritten(alloc, unnamed)?.as_slice(), shown.as_slice());
    Ok(())
}

/// A page of a record with this idx and this host name, and what stands behind it.
fn page_with(alloc: Global, idx: &str, name: &str, behind: &str) -> Result<String, NoMemory> {
    let mut text = String::from_str(
        alloc,
        "[{\"data\":{\"content_encryption_key\":\"w\",\"data\":\"s\"},\"host\":{\"id\":\"00000000-0000-0000-0000-000000000002\",\"name\":",
    )?;
    text.push_str(name)?;
    text.push_str("},\"id\":\"018bcfe5-6800-7001-8203-040506070809\",\"idx\":")?;
    text.push_str(idx)?;
    text.push_str(",\"tag\":\"kv\",\"timestamp\":1,\"version\":\"v0\"}")?;
    text.push_str(behind)?;
    Ok(text)
}

fn refused_with(
    alloc: Global,
    idx: &str,
    name: &str,
    behind: &str,
) -> Result<Option<JsonFail>, NoMemory> {
    Ok(refusal(alloc, page_with(alloc, idx, name, behind)?.as_bytes()))
}

#[test]
fn what_is_no_json_is_refused(rt: HostRuntime) -> Result<(), Fail> {
    let alloc = rt.alloc();
    let none = Some(JsonFail::NotJson);
    assert_eq!(rt; refusal(alloc, b""), none);
    assert_eq!(rt; refusal(alloc, b"["), none);
    assert_eq!(rt; refusal(alloc, b"[] x"), none);
    assert_eq!(rt; refusal(alloc, b"[\"\xff\"]"), none);
    assert_eq!(rt; refusal(alloc, b"[\"\\ud800\"]"), none);
    assert_eq!(rt; refusal(alloc, b"[1e999]"), none);
    Ok(())
}

#[test]
fn what_is_no_record_is_refused_at_its_place(rt: HostRuntime) -> Result<(), Fail> {
    let alloc = rt.alloc();
    let first = Some(JsonFail::NotRecords { position: 0 });
    assert_eq!(rt; refusal(alloc, b"{}"), first);
    assert_eq!(rt; refusal(alloc, b"[{}]"), first);
    assert_eq!(rt; refused_with(alloc, "1", "\"h\"", "]")?, None);
    assert_eq!(rt; refused_with(alloc, "1e3", "\"h\"", "]")?, first);
    assert_eq!(rt; refused_with(alloc, "-0", "\"h\"", "]")?, first);
    assert_eq!(rt; refused_with(alloc, "1.0", "\"h\"", "]")?, first);
    assert_eq!(rt;
        refused_with(alloc, "18446744073709551616", "\"h\"", "]")?,
        first
    );
    assert_eq!(rt; refused_with(alloc, "1", "null", "]")?, first);
    let second = Some(JsonFail::NotRecords { position: 1 });
    assert_eq!(rt; refused_with(alloc, "1", "\"h\"", ",7]")?, second);
    Ok(())
}

const STATUS: &[u8] =
    b"{\"hosts\":{\"00000000-0000-0000-0000-000000000001\":{\"history\":4,\"kv\":0},\"00000000-0000-0000-0000-000000000002\":{\"kv\":18446744073709551614}}}";

#[test]
fn a_status_is_written(rt: HostRuntime) -> Result<(), Fail> {
    let alloc = rt.alloc();
    let chains = [
        Chain {
            host: 1,
            tag: Text::copied(alloc, b"history")?,
            count: 5,
        },
        Chain {
            host: 1,
            tag: Text::copied(alloc, b"kv")?,
            count: 1,
        },
        Chain {
            host: 2,
            tag: Text::copied(alloc, b"kv")?,
            count: u64::MAX,
        },
    ];
    assert_eq!(rt; write_status(alloc, &chains)?.as_slice(), STATUS);
    assert_eq!(rt;
        write_status(alloc, &[])?.as_slice(),
        b"{\"hosts\":{}}".as_slice()
    );
    Ok(())
}

/// What is read of a status, written again.
fn status_rewritten(alloc: Global, text: &[u8]) -> Result<Bytes, NoMemory> {
    match read_status(alloc, text) {
        Ok(chains) => write_status(alloc, &chains),
        Err(_) => Err(NoMemory),
    }
}

fn status_refusal(alloc: Global, text: &[u8]) -> Option<JsonFail> {
    match read_status(alloc, text) {
        Ok(_) => None,
        Err(fail) => Some(fail),
    }
}

#[test]
fn a_status_is_read_in_any_order(rt: HostRuntime) -> Result<(), Fail> {
    let alloc = rt.alloc();
    let text =
        b"{\"more\":1,\"hosts\":{\"00000000000000000000000000000002\":{\"kv\":18446744073709551615},\"00000000-0000-0000-0000-000000000003\":{},\"{00000000-0000-0000-0000-000000000001}\":{\"kv\":0,\"history\":4}}}";
    assert_eq!(rt; status_rewritten(alloc, text)?.as_slice(), STATUS);
    assert_eq!(rt;
        status_refusal(alloc, b"{\"hosts\":{"),
        Some(JsonFail::NotJson)
    );
    Ok(())
}

#[test]
fn what_is_no_status_is_refused(rt: HostRuntime) -> Result<(), Fail> {
    let alloc = rt.alloc();
    let refused = Some(JsonFail::NotRecords { position: 0 });
    assert_eq!(rt; status_refusal(alloc, b"{}"), refused);
    assert_eq!(rt; status_refusal(alloc, b"{\"hosts\":[]}"), refused);
    assert_eq!(rt; status_refusal(alloc, b"{\"hosts\":{\"x\":{}}}"), refused);
    let list = b"{\"hosts\":{\"00000000000000000000000000000002\":[]}}";
    assert_eq!(rt; status_refusal(alloc, list), refused);
    let text = b"{\"hosts\":{\"00000000000000000000000000000002\":{\"kv\":\"1\"}}}";
    assert_eq!(rt; status_refusal(alloc, text), refused);
    let negative = b"{\"hosts\":{\"00000000000000000000000000000002\":{\"kv\":-1}}}";
    assert_eq!(rt; status_refusal(alloc, negative), refused);
    let twice =
        b"{\"hosts\":{\"00000000000000000000000000000002\":{},\"00000000-0000-0000-0000-000000000002\":{}}}";
    assert_eq!(rt; status_refusal(alloc, twice), refused);
    Ok(())
}
