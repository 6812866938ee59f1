use super::*;
use accounts::Accounts;
use http_wire::Request;
use plain_types::{Bytes, NoMemory, Text};
use std::alloc::Global;
use std::test::*;

const ACCOUNTS: &[u8] = b"0 abc\n7 abcd\n";

fn request(
    alloc: Global,
    method: &str,
    target: &str,
    value: &str,
    body: &[u8],
) -> Result<Request, NoMemory> {
    Ok(Request {
        method: text(alloc, method)?,
        target: text(alloc, target)?,
        authorization: Some(text(alloc, value)?),
        close: false,
        body: Bytes::copied(alloc, body)?,
    })
}

fn text(alloc: Global, from: &str) -> Result<Text, NoMemory> {
    if from.len() >= 1 << 32 {
        return Err(NoMemory);
    }
    Text::copied(alloc, from.as_bytes())
}

/// What such a request asks, or why it is refused.
fn routed(
    alloc: Global,
    method: &str,
    target: &str,
    value: &str,
    body: &[u8],
) -> Result<Asked, RouteFail> {
    let request = request(alloc, method, target, value, body)?;
    match Accounts::read(alloc, ACCOUNTS) {
        Ok(accounts) => route(alloc, &accounts, &request),
        Err(_) => Err(RouteFail::NoMemory),
    }
}

fn refusal(
    alloc: Global,
    method: &str,
    target: &str,
    value: &str,
    body: &[u8],
) -> Option<RouteFail> {
    routed(alloc, method, target, value, body).err()
}

#[test]
fn the_first_refusal_is_told(rt: HostRuntime) -> Result<(), Fail> {
    let alloc = rt.alloc();
    let record = "/api/v0/record?x=1";
    assert_eq!(rt;
        refusal(alloc, "PUT", "/api/v0/records", "", b""),
        Some(RouteFail::NoPath)
    );
    assert_eq!(rt;
        refusal(alloc, "PUT", record, "", b""),
        Some(RouteFail::NoMethod)
    );
    assert_eq!(rt;
        refusal(alloc, "POST", record, "Token ab", b"["),
        Some(RouteFail::UnknownToken)
    );
    assert_eq!(rt;
        refusal(alloc, "POST", record, "Token abc", b"["),
        Some(RouteFail::BadRequest)
    );
    assert_eq!(rt;
        refusal(alloc, "POST", record, "Token abc", b"[{}]"),
        Some(RouteFail::BadRequest)
    );
    assert_eq!(rt; refusal(alloc, "POST", record, "Token abc", b"[]"), None);
    Ok(())
}

/// Owner, host, start and count of the page that is asked for.
fn page_asked(asked: Result<Asked, RouteFail>) -> Option<(u32, u128, u64, u32)> {
    match asked {
        Ok(
            Asked::Next {
                owner,
                host,
                start,
                count,
                ..
            },
        ) => Some((owner, host, start, count)),
        _ => None,
    }
}

#[test]
fn a_page_is_asked_for(rt: HostRuntime) -> Result<(), Fail> {
    let alloc = rt.alloc();
    let next =
        "/api/v0/record/next?x=&host=00000000-0000-0000-0000-000000000002&tag=a%20b&start=05&count=101";
    let twice =
        "/api/v0/record/next?host=00000000-0000-0000-0000-000000000002&tag=a&start=5&count=1&tag=b";
    assert!(rt; page_asked(routed(alloc, "GET", next, "Token abcd", b"")) == Some((7, 2, 5, 100)));
    assert_eq!(rt;
        refusal(alloc, "GET", twice, "Token abcd", b""),
        Some(RouteFail::BadRequest)
    );
    assert_eq!(rt;
        refusal(alloc, "GET", "/api/v0/record/next", "Token abcd", b""),
        Some(RouteFail::BadRequest)
    );
    Ok(())
}
