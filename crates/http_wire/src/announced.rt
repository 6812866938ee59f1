//! Heads that are whole, and what they tell.

ghost use Rattle.std.specs.Prelude.{◌≡◌, ◌<◌, ◌≤◌, ◌^◌, [], length, map, option_map, IfOk, IfSome, IsUtf8, All};
ghost use Rattle.httparse.specs.Grammar.{RequestHead, ReadsRequest, ResponseHead, ReadsResponse};
ghost use Rattle.httparse.specs.Spans.{IsHeaderWithin, IsWithin, span_bytes, header_bytes};
ghost use Rattle.http_wire.specs.Fronts.{lines_of};
ghost use Rattle.http_wire.specs.Heads.{ends_connection as ends, length_without};
ghost use Rattle.http_wire.specs.Looking.{IsWhole};
ghost use Rattle.http_wire.specs.declared.finding.HeadKind.{HeadKind};
ghost use Rattle.http_wire.specs.Announced.{RequestParts, ResponseParts, AnnouncesRequest, AnnouncesResponse};

use crate::body::Body;
use crate::fields::{authorization, says_close, told_length};
use crate::limits::MOST_HEAD_LINES;
use crate::messages::{Request, Response};
use httparse::Status;
use httparse::spans::{
    EMPTY_HEADER_SPAN, HeaderSpan, RequestSpans, ResponseSpans, parse_request, parse_response,
};
use plain_types::{Bytes, NoMemory, Text};
use std::alloc::Global;

/// A message whose body is still empty, and the length that its head tells of the body, if it tells one.
#[derive(Drop)]
pub struct Announced<M: Drop> {
    pub message: M,
    pub length: Option<u64>,
}

/// The length of the body of a request of this method that tells none.
fn without_length(method: &[u8]) -> Option<u64>
    ensures { result ≡ length_without method.now }
{
    if method == b"POST".as_slice() {
        None
    } else {
        Some(0)
    }
}

/// Whether the connection ends with a message of this minor version.
fn ends_connection(minor: u8, head: &[u8], fields: &[HeaderSpan]) -> bool
    requires { All (IsHeaderWithin (length head.now)) fields.now }
    ensures { result ≡ ends minor (map (header_bytes head.now) fields.now) }
{
    minor == 0 || says_close(head, fields)
}

fn copied_text(alloc: Global, value: Option<&[u8]>) -> Result<Option<Text>, NoMemory>
    requires { IfSome value (λ v. IsUtf8 v.now × (length v.now < 2 ^ 32)) }
    ensures { IfOk result (λ copied. copied ≡ option_map (λ v. v.now) value.entry) }
{
    match value {
        Some(value) => Ok(Some(Text::copied(alloc, value)?)),
        None => Ok(None),
    }
}

/// What a request's head of at most 65,536 bytes tells, from the places of its parts and of its fields.
fn announced_request(
    alloc: Global,
    head: &[u8],
    found: &RequestSpans,
    fields: &[HeaderSpan],
) -> Result<Announced<Request>, NoMemory>
    requires short { length head.now ≤ 65536 }
    requires method { IsWithin (length head.now) found.now.method }
    requires method_text { IsUtf8 (span_bytes head.now found.now.method) }
    requires target { IsWithin (length head.now) found.now.path }
    requires target_text { IsUtf8 (span_bytes head.now found.now.path) }
    requires fields { All (IsHeaderWithin (length head.now)) fields.now }
    ensures { (told : RequestHead) → RequestParts head.now found.now fields.now told → IfOk result (AnnouncesRequest told) }
{
    let method = found.method.of(head);
    let message = Request {
        method: Text::copied(alloc, method)?,
        target: Text::copied(alloc, found.path.of(head))?,
        authorization: copied_text(alloc, authorization(head, fields))?,
        close: ends_connection(found.version, head, fields),
        body: Bytes::new(alloc),
    };
    Ok(Announced {
        message,
        length: told_length(head, fields, without_length(method)),
    })
}

/// What a whole head of a request tells, which has at most 65,536 bytes and 102 line feeds.
///
/// # Errors
///
/// [`NoMemory`].
pub fn read_request_head(alloc: Global, head: &[u8]) -> Result<Announced<Request>, NoMemory>
    requires whole { IsWhole HeadKind.OfRequest head.now }
    requires short { length head.now ≤ 65536 }
    requires lines { lines_of head.now ≤ 102 }
    ensures { (told : RequestHead) → ReadsRequest head.now told [] → IfOk result (AnnouncesRequest told) }
{
    let mut spans = [EMPTY_HEADER_SPAN; MOST_HEAD_LINES];
    match parse_request(head, &mut spans) {
        Ok(Status::Complete(found)) => {
            announced_request(alloc, head, &found, &spans[..found.headers])
        }
        Ok(Status::Partial) => unreachable!(),
        Err(_) => unreachable!(),
    }
}

/// What a response's head tells, from the places of its parts and of its fields. It takes no memory.
fn announced_response(
    head: &[u8],
    found: &ResponseSpans,
    fields: &[HeaderSpan],
) -> Announced<Response>
    requires { All (IsHeaderWithin (length head.now)) fields.now }
    ensures { (told : ResponseHead) → ResponseParts head.now found.now fields.now told → AnnouncesResponse told result }
{
    Announced {
        message: Response {
            code: found.code,
            close: ends_connection(found.version, head, fields),
            body: Body::short(b""),
        },
        length: told_length(head, fields, None),
    }
}

/// What a whole head of a response tells, which has at most 102 line feeds. It takes no memory.
pub fn read_response_head(head: &[u8]) -> Announced<Response>
    requires whole { IsWhole HeadKind.OfResponse head.now }
    requires lines { lines_of head.now ≤ 102 }
    ensures { (told : ResponseHead) → ReadsResponse head.now told [] → AnnouncesResponse told result }
{
    let mut spans = [EMPTY_HEADER_SPAN; MOST_HEAD_LINES];
    match parse_response(head, &mut spans) {
        Ok(Status::Complete(found)) => { announced_response(head, &found, &spans[..found.headers]) }
        Ok(Status::Partial) => unreachable!(),
        Err(_) => unreachable!(),
    }
}
