use super::*;
use at_edge::{MemLink, SureLink};
use plain_types::{NoMemory, Text};
use record_json::write_records;
use record_model::Record;
use std::alloc::Global;
use std::test::*;

fn peer(alloc: Global) -> Result<Peer, NoMemory> {
    Ok(Peer {
        host: Text::copied(alloc, b"h:1")?,
        token: Text::copied(alloc, b"abc")?,
    })
}

/// A list of one response.
fn once(alloc: Global, response: &[u8]) -> Result<Vec<Vec<u8>>, NoMemory> {
    let mut responses = Vec::new(alloc);
    responses.push(response.to_vec(alloc)?)?;
    Ok(responses)
}

fn answering(alloc: Global, response: &[u8]) -> Result<SureLink, NoMemory> {
    Ok(SureLink::new(alloc, once(alloc, response)?))
}

/// The record with index 5 of host 1 and tag `kv`.
fn record(alloc: Global) -> Result<Record, NoMemory> {
    Ok(Record {
        id: 7,
        idx: 5,
        host: 1,
        host_name: Text::new(alloc),
        timestamp: 3,
        version: Text::copied(alloc, b"v0")?,
        tag: Text::copied(alloc, b"kv")?,
        sealed: Text::copied(alloc, b"s")?,
        wrapped: Text::copied(alloc, b"w")?,
    })
}

const PAGE: &[u8] =
    b"HTTP/1.1 200 OK\r\nContent-Length: 207\r\n\r\n[{\"data\":{\"content_encryption_key\":\"w\",\"data\":\"s\"},\"host\":{\"id\":\"00000000-0000-0000-0000-000000000001\",\"name\":\"\"},\"id\":\"00000000-0000-0000-0000-000000000007\",\"idx\":5,\"tag\":\"kv\",\"timestamp\":3,\"version\":\"v0\"}]";

#[test]
fn a_status_is_asked_for(rt: HostRuntime) -> Result<(), Fail> {
    let alloc = rt.alloc();
    let told =
        b"HTTP/1.1 200 OK\r\nContent-Length: 67\r\n\r\n{\"hosts\":{\"00000000-0000-0000-0000-000000000002\":{\"kv\":0,\"t\":249}}}";
    let mut link = answering(alloc, told)?;
    let Ok(chains) = ask_status(alloc, &peer(alloc)?, &mut link) else {
        panic!(rt; "no status");
    };
    let [first, second] = chains.as_slice() else {
        panic!(rt; "another status");
    };
    assert_eq!(rt; (first.host, first.count, second.count), (2, 1, 250));
    let wanted =
        b"GET /api/v0/record HTTP/1.1\r\nHost: h:1\r\nAuthorization: Token abc\r\nConnection: close\r\nContent-Length: 0\r\n\r\n";
    assert_eq!(rt; link.request(), wanted.as_slice());
    Ok(())
}

#[test]
fn a_page_is_asked_for(rt: HostRuntime) -> Result<(), Fail> {
    let alloc = rt.alloc();
    let mut link = answering(alloc, PAGE)?;
    let tag = Text::copied(alloc, b"kv")?;
    let Ok(page) = ask_page(alloc, &peer(alloc)?, &mut link, 1, &tag, 5, 100) else {
        panic!(rt; "no page");
    };
    let sent = [record(alloc)?];
    assert_eq!(rt;
        write_records(alloc, page.as_slice())?.as_slice(),
        write_records(alloc, &sent)?.as_slice()
    );
    let wanted =
        b"GET /api/v0/record/next?host=00000000-0000-0000-0000-000000000001&tag=kv&start=5&count=100 HTTP/1.1\r\nHost: h:1\r\nAuthorization: Token abc\r\nConnection: close\r\nContent-Length: 0\r\n\r\n";
    assert_eq!(rt; link.request(), wanted.as_slice());
    let spaced = Text::copied(alloc, "a b&ü".as_bytes())?;
    let mut link = answering(alloc, PAGE)?;
    assert!(rt; ask_page(alloc, &peer(alloc)?, &mut link, 1, &spaced, 0, 1).is_err());
    let wanted =
        b"GET /api/v0/record/next?host=00000000-0000-0000-0000-000000000001&tag=a+b%26%C3%BC&start=0&count=1 HTTP/1.1\r\n";
    assert!(rt; link.request().starts_with(wanted));
    Ok(())
}

#[test]
fn a_page_is_handed_over(rt: HostRuntime) -> Result<(), Fail> {
    let alloc = rt.alloc();
    let page = [record(alloc)?];
    let mut link = answering(
        alloc,
        b"HTTP/1.1 200 OK\r\nContent-Length: 19\r\n\r\n{\"more\":0,\"added\":1}",
    )?;
    assert!(rt; post_page(alloc, &peer(alloc)?, &mut link, &page) == Err(AskFail::PeerForm));
    let mut link = answering(
        alloc,
        b"HTTP/1.1 200 OK\r\nContent-Length: 20\r\n\r\n{\"more\":0,\"added\":1}",
    )?;
    assert!(rt; post_page(alloc, &peer(alloc)?, &mut link, &page) == Ok(1));
    let sent = link.request();
    assert!(rt; sent.starts_with(b"POST /api/v0/record HTTP/1.1\r\nHost: h:1\r\n"));
    assert!(rt; sent.ends_with(write_records(alloc, &page)?.as_slice()));
    Ok(())
}

/// What a link answers that has this response.
fn status_fail(alloc: Global, response: &[u8]) -> Result<Option<AskFail>, NoMemory> {
    let mut link = answering(alloc, response)?;
    match ask_status(alloc, &peer(alloc)?, &mut link) {
        Ok(_) => Ok(None),
        Err(fail) => Ok(Some(fail)),
    }
}

#[test]
fn each_reply_has_its_refusal(rt: HostRuntime) -> Result<(), Fail> {
    let alloc = rt.alloc();
    let form = Some(AskFail::PeerForm);
    assert!(rt; status_fail(alloc, b"")? == form);
    assert!(rt; status_fail(alloc, b"HTTP/1.1 200 OK\r\n\r\n")? == form);
    assert!(rt; status_fail(alloc, b"HTTP/1.1 200 OK\r\nContent-Length: 2\r\n\r\n[]")? == form);
    assert!(rt;
        status_fail(
            alloc,
            b"HTTP/1.1 401 Unauthorized\r\nContent-Length: 0\r\n\r\n"
        )? == Some(AskFail::PeerStatus { code: 401 })
    );
    Ok(())
}

#[test]
fn a_fault_of_the_link_is_told(rt: HostRuntime) -> Result<(), Fail> {
    let alloc = rt.alloc();
    // The start, the write and the read.
    for failing in 1..4 {
        let mut link = MemLink::new(alloc, Vec::new(alloc), vec![in alloc; failing]?);
        assert!(rt;
            matches!(
                ask_status(alloc, &peer(alloc)?, &mut link),
                Err(AskFail::LinkFault)
            )
        );
    }
    Ok(())
}
