use super::*;
use at_edge::{MemSource, SureSource};
use std::alloc::Global;
use std::test::*;

fn refusal(alloc: Global, bytes: &[u8]) -> Result<Option<HttpFail>, Fail> {
    let mut wire = Wire::new(alloc)?;
    match wire.read_request(&mut SureSource::new(bytes.to_vec(alloc)?)) {
        Ok(_) => Ok(None),
        Err(fail) => Ok(Some(fail)),
    }
}

#[test]
fn requests_are_read_one_after_the_other(rt: HostRuntime) -> Result<(), Fail> {
    let alloc = rt.alloc();
    let bytes =
        b"POST /a HTTP/1.1\r\nauthorization: \tToken abc \r\nContent-Length: 2\r\n\r\n[]GET /b HTTP/1.1\nCONNECTION: Close\n\nGET /c HTTP/1.0\r\n\r\n";
    let mut source = SureSource::new(bytes.as_slice().to_vec(alloc)?);
    let mut wire = Wire::new(alloc)?;
    let Ok(Some(first)) = wire.read_request(&mut source) else {
        panic!(rt; "no first request");
    };
    assert_eq!(rt; first.method.as_bytes(), b"POST".as_slice());
    assert_eq!(rt; first.target.as_bytes(), b"/a".as_slice());
    assert!(rt;
        first
            .authorization
            .is_some_and(|token| token.as_bytes() == b"Token abc".as_slice())
    );
    assert_eq!(rt; first.body.as_slice(), b"[]".as_slice());
    assert!(rt; !first.close);
    let Ok(Some(second)) = wire.read_request(&mut source) else {
        panic!(rt; "no second request");
    };
    assert_eq!(rt; second.target.as_bytes(), b"/b".as_slice());
    assert!(rt; second.close && second.authorization.is_none() && second.body.is_empty());
    let Ok(Some(third)) = wire.read_request(&mut source) else {
        panic!(rt; "no third request");
    };
    assert!(rt; third.close);
    assert!(rt; matches!(wire.read_request(&mut source), Ok(None)));
    Ok(())
}

#[test]
fn requests_are_refused(rt: HostRuntime) -> Result<(), Fail> {
    let alloc = rt.alloc();
    assert!(rt; refusal(alloc, b"(\r\n")? == Some(HttpFail::NotHttp));
    assert!(rt; refusal(alloc, b"POST / HTTP/1.1\r\n\r\n")? == Some(HttpFail::NoLength));
    assert!(rt;
        refusal(alloc, b"POST / HTTP/1.1\r\nContent-Length: +2\r\n\r\n[]")?
            == Some(HttpFail::NoLength)
    );
    assert!(rt;
        refusal(
            alloc,
            b"GET / HTTP/1.1\r\nContent-Length: 0\r\nContent-Length: 0\r\n\r\n"
        )? == Some(HttpFail::NoLength)
    );
    assert!(rt;
        refusal(
            alloc,
            b"POST / HTTP/1.1\r\nContent-Length: 0\r\nTransfer-Encoding: chunked\r\n\r\n"
        )? == Some(HttpFail::NoLength)
    );
    assert!(rt;
        refusal(
            alloc,
            b"POST / HTTP/1.1\r\nContent-Length: 33554433\r\n\r\n"
        )? == Some(HttpFail::BodyTooLong { length: 33_554_433 })
    );
    assert!(rt;
        refusal(alloc, b"POST / HTTP/1.1\r\nContent-Length: 3\r\n\r\n[]")? == Some(HttpFail::Ended)
    );
    assert!(rt; refusal(alloc, b"GET / HT")? == Some(HttpFail::Ended));
    assert!(rt; refusal(alloc, &[b'\n'; 102])? == Some(HttpFail::HeadTooLong));
    Ok(())
}

#[test]
fn a_failed_read_is_told(rt: HostRuntime) -> Result<(), Fail> {
    let alloc = rt.alloc();
    let bytes = b"POST / HTTP/1.1\r\nContent-Length: 3\r\n\r\n[]".as_slice();
    let mut source = MemSource::new(bytes.to_vec(alloc)?, vec![in alloc; 2]?);
    let mut wire = Wire::new(alloc)?;
    assert!(rt; matches!(wire.read_request(&mut source), Err(HttpFail::ReadFault)));
    Ok(())
}

#[test]
fn responses_are_read(rt: HostRuntime) -> Result<(), Fail> {
    let alloc = rt.alloc();
    let bytes =
        b"HTTP/1.1 200 OK\r\nContent-Length: 11\r\n\r\n{\"added\":2}HTTP/1.1 204\r\n\r\n".as_slice();
    let mut source = SureSource::new(bytes.to_vec(alloc)?);
    let mut wire = Wire::new(alloc)?;
    let Ok(response) = wire.read_response(&mut source) else {
        panic!(rt; "no response");
    };
    assert!(rt; response.code == 200 && !response.close);
    assert_eq!(rt; response.body.as_slice(), b"{\"added\":2}".as_slice());
    assert!(rt; matches!(wire.read_response(&mut source), Err(HttpFail::NoLength)));
    let mut wire = Wire::new(alloc)?;
    assert!(rt; matches!(wire.read_response(&mut source), Err(HttpFail::Ended)));
    Ok(())
}
