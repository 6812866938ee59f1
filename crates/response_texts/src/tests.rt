use super::*;
use http_wire::Response;
use std::test::*;

fn shows(response: &Response, code: u16, body: &[u8]) -> bool {
    response.code == code && response.body.as_slice() == body
}

#[test]
fn each_refusal_of_a_page_has_its_body(rt: HostRuntime) -> Result<(), Fail> {
    assert!(rt; shows(&added(100, false), 200, b"{\"added\":100}"));
    assert!(rt;
        shows(
            &too_long(7, 9, false),
            413,
            b"{\"position\":7,\"reason\":\"too long\"}"
        )
    );
    let held =
        b"{\"held\":\"00000000-0000-0000-0000-00000000000a\",\"position\":0,\"reason\":\"forked\"}";
    assert!(rt; shows(&forked(0, 10, false), 409, held));
    assert!(rt;
        shows(
            &gap(3, 18446744073709551615, false),
            409,
            b"{\"position\":3,\"reason\":\"gap\",\"wanted\":18446744073709551615}"
        )
    );
    assert!(rt;
        shows(
            &full(3, 4096, false),
            507,
            b"{\"held\":4096,\"reason\":\"full\",\"what\":3}"
        )
    );
    Ok(())
}

#[test]
fn a_code_tells_its_reason(rt: HostRuntime) -> Result<(), Fail> {
    assert!(rt; shows(&coded(400, false), 400, b"{\"reason\":\"bad request\"}"));
    assert!(rt; shows(&coded(401, false), 401, b"{\"reason\":\"unknown token\"}"));
    assert!(rt; shows(&coded(411, false), 411, b"{\"reason\":\"length required\"}"));
    assert!(rt; shows(&coded(431, true), 431, b"{\"reason\":\"head too long\"}"));
    assert!(rt; shows(&coded(503, false), 503, b"{\"reason\":\"want of memory\"}"));
    assert!(rt; coded(503, false).close && !coded(500, false).close && coded(404, true).close);
    Ok(())
}

#[test]
fn a_new_account_has_an_empty_status(rt: HostRuntime) -> Result<(), Fail> {
    let alloc = rt.alloc();
    assert!(rt; shows(&status_told(alloc, &[], false), 200, b"{\"hosts\":{}}"));
    assert!(rt; shows(&page_told(alloc, &[], false), 200, b"[]"));
    Ok(())
}
