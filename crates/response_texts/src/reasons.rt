//! Responses that a code and its reason make.

ghost use Rattle.std.specs.Prelude.{◌≡◌, ◌≤◌, length};
ghost use Rattle.http_wire.specs.Seen.{response_seen};
ghost use Rattle.response_texts.specs.Bodies.{coded_body, reason_of};
ghost use Rattle.response_texts.specs.Responses.{closes, coded_response};

use crate::short::add;
use arrayvec::ArrayVec;
use http_wire::{Body, Response};

/// The code that tells that memory was wanting, behind which no connection goes on.
const NO_MEMORY: u16 = 503;

/// A response with this body, which ends the connection where the request asks for its end, and where memory was wanting.
pub fn response(code: u16, close: bool, body: Body) -> Response
    ensures { response_seen result ≡ record { code = code; close = closes close code; body = body } }
{
    Response {
        code,
        close: close || code == NO_MEMORY,
        body,
    }
}

/// The reason that a code stands for.
fn reason(code: u16) -> &'static str
    ensures value { result.now ≡ reason_of code }
    ensures short { length result.now ≤ 31 }
{
    match code {
        400 => "bad request",
        401 => "unknown token",
        404 => "no such path",
        405 => "no such method",
        411 => "length required",
        413 => "too long",
        431 => "head too long",
        500 => "disk fault",
        _ => "want of memory",
    }
}

/// The body that tells it.
fn coded_body(code: u16) -> Body
    ensures { result ≡ coded_body code }
{
    let mut body = ArrayVec::new();
    add(&mut body, b"{\"reason\":\"");
    add(&mut body, reason(code).as_bytes());
    add(&mut body, b"\"}");
    Body::short(body.as_slice())
}

/// The response of a code that tells its reason: 400, 401, 404, 405, 411, 413, 431, 500 or 503. `close` says whether the
/// request asks for the connection's end; a 503 ends it too. It takes no memory.
pub fn coded(code: u16, close: bool) -> Response
    ensures { response_seen result ≡ coded_response close code }
{
    response(code, close, coded_body(code))
}
