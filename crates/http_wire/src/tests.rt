use super::*;
use at_edge::{MemSink, SureSink, WriteFault};
use plain_types::{Bytes, Text};
use std::test::*;

#[test]
fn responses_are_written(rt: HostRuntime) -> Result<(), Fail> {
    let mut sink = SureSink::new(rt.alloc());
    let found = Response {
        code: 200,
        close: false,
        body: Body::short(b"{\"hosts\":{}}"),
    };
    let unknown = Response {
        code: 401,
        close: true,
        body: Body::short(b"{\"reason\":\"unknown token\"}"),
    };
    assert!(rt; write_response(&found, &mut sink) == Ok(()));
    assert!(rt; write_response(&unknown, &mut sink) == Ok(()));
    let wanted =
        b"HTTP/1.1 200 OK\r\nContent-Type: application/json\r\nContent-Length: 12\r\n\r\n{\"hosts\":{}}HTTP/1.1 401 Unauthorized\r\nContent-Type: application/json\r\nContent-Length: 26\r\nConnection: close\r\n\r\n{\"reason\":\"unknown token\"}";
    assert_eq!(rt; sink.written(), wanted.as_slice());
    Ok(())
}

#[test]
fn a_long_body_is_written_behind_its_head(rt: HostRuntime) -> Result<(), Fail> {
    let alloc = rt.alloc();
    let mut sink = MemSink::new(alloc, vec![in alloc; 2]?);
    let response = Response {
        code: 200,
        close: false,
        body: Body::from_bytes(Bytes::copied(alloc, &[b'x'; 1100])?),
    };
    assert!(rt; write_response(&response, &mut sink) == Err(WriteFault));
    let wanted =
        b"HTTP/1.1 200 OK\r\nContent-Type: application/json\r\nContent-Length: 1100\r\n\r\n";
    assert_eq!(rt; sink.written(), wanted.as_slice());
    assert!(rt; write_response(&response, &mut sink) == Ok(()));
    assert_eq!(rt; sink.written().len(), 2 * wanted.len() + 1100);
    Ok(())
}

#[test]
fn requests_are_written(rt: HostRuntime) -> Result<(), Fail> {
    let alloc = rt.alloc();
    let mut sink = SureSink::new(alloc);
    let asked = Request {
        method: Text::copied(alloc, b"GET")?,
        target: Text::copied(alloc, b"/api/v0/record")?,
        authorization: Some(Text::copied(alloc, b"Token abc")?),
        close: true,
        body: Bytes::new(alloc),
    };
    let posted = Request {
        method: Text::copied(alloc, b"POST")?,
        target: Text::copied(alloc, b"/api/v0/record")?,
        authorization: None,
        close: false,
        body: Bytes::copied(alloc, b"[]")?,
    };
    assert!(rt; write_request(&asked, b"h:1", &mut sink) == Ok(()));
    assert!(rt; write_request(&posted, b"h:1", &mut sink) == Ok(()));
    let wanted =
        b"GET /api/v0/record HTTP/1.1\r\nHost: h:1\r\nAuthorization: Token abc\r\nConnection: close\r\nContent-Length: 0\r\n\r\nPOST /api/v0/record HTTP/1.1\r\nHost: h:1\r\nContent-Length: 2\r\n\r\n[]";
    assert_eq!(rt; sink.written(), wanted.as_slice());
    Ok(())
}
