//! Responses to a page of records that came.

ghost use Rattle.std.specs.Prelude.{◌≡◌};
ghost use Rattle.record_rules.specs.Growth.{PageTooLong, PageForked, PageGap, PageFull};
ghost use Rattle.step_rules.specs.PageTurns.{took, page_refused};
ghost use Rattle.session_rules.specs.Sessions.{to_page};
ghost use Rattle.http_wire.specs.Seen.{response_seen};
ghost use Rattle.response_texts.specs.Bodies.{added_body, refusal_body};
ghost use Rattle.response_texts.specs.Responses.{Tells};

use crate::reasons::response;
use crate::short::{add, add_id, add_number};
use arrayvec::ArrayVec;
use http_wire::{Body, Response};

fn added_body(added: u32) -> Body
    ensures { result ≡ added_body added }
{
    let mut body = ArrayVec::new();
    add(&mut body, b"{\"added\":");
    add_number(&mut body, added as u64);
    add(&mut body, b"}");
    Body::short(body.as_slice())
}

/// 200: so many records were added. It takes no memory, as all of this module.
pub fn added(added: u32, close: bool) -> Response
    ensures { Tells close (to_page (took added)) (response_seen result) }
{
    response(200, close, added_body(added))
}

fn too_long_body(position: u32) -> Body
    ensures { result ≡ refusal_body (PageTooLong position 0) }
{
    let mut body = ArrayVec::new();
    add(&mut body, b"{\"position\":");
    add_number(&mut body, position as u64);
    add(&mut body, b",\"reason\":\"too long\"}");
    Body::short(body.as_slice())
}

/// 413: the page is too long or too heavy up to this record, or a text of it is too long. The length isn't told.
pub fn too_long(position: u32, length: u64, close: bool) -> Response
    ensures { Tells close (to_page (page_refused (PageTooLong position length))) (response_seen result) }
{
    let _untold = length;
    response(413, close, too_long_body(position))
}

fn forked_body(position: u32, held: u128) -> Body
    ensures { result ≡ refusal_body (PageForked position held) }
{
    let mut body = ArrayVec::new();
    add(&mut body, b"{\"held\":\"");
    add_id(&mut body, held);
    add(&mut body, b"\",\"position\":");
    add_number(&mut body, position as u64);
    add(&mut body, b",\"reason\":\"forked\"}");
    Body::short(body.as_slice())
}

/// 409: another id is held in the place of this record.
pub fn forked(position: u32, held: u128, close: bool) -> Response
    ensures { Tells close (to_page (page_refused (PageForked position held))) (response_seen result) }
{
    response(409, close, forked_body(position, held))
}

fn gap_body(position: u32, wanted: u64) -> Body
    ensures { result ≡ refusal_body (PageGap position wanted) }
{
    let mut body = ArrayVec::new();
    add(&mut body, b"{\"position\":");
    add_number(&mut body, position as u64);
    add(&mut body, b",\"reason\":\"gap\",\"wanted\":");
    add_number(&mut body, wanted);
    add(&mut body, b"}");
    Body::short(body.as_slice())
}

/// 409: records are missing before this one, from the idx that is wanted.
pub fn gap(position: u32, wanted: u64, close: bool) -> Response
    ensures { Tells close (to_page (page_refused (PageGap position wanted))) (response_seen result) }
{
    response(409, close, gap_body(position, wanted))
}

fn full_body(what: u8, held: u64) -> Body
    ensures { result ≡ refusal_body (PageFull (record { what = what; held = held })) }
{
    let mut body = ArrayVec::new();
    add(&mut body, b"{\"held\":");
    add_number(&mut body, held);
    add(&mut body, b",\"reason\":\"full\",\"what\":");
    add_number(&mut body, what as u64);
    add(&mut body, b"}");
    Body::short(body.as_slice())
}

/// 507: a limit of the owner would be passed, 1 of entries, 2 of bytes, 3 of chains; and how much of it is held.
pub fn full(what: u8, held: u64, close: bool) -> Response
    ensures { Tells close (to_page (page_refused (PageFull (record { what = what; held = held })))) (response_seen result) }
{
    response(507, close, full_body(what, held))
}
