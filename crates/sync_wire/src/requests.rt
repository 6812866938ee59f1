//! The requests of a sync.

ghost use Rattle.std.specs.Prelude.{◌≡◌, IfOk};
ghost use Rattle.http_wire.specs.Seen.{request_seen};
ghost use Rattle.record_model.specs.Seen.{records_seen};
ghost use Rattle.sync_wire.specs.Requests.{sent_request, request_of, Status, Next, Post};

use crate::targets::{authorization, next_target};
use crate::texts::owned_text;
use http_wire::Request;
use plain_types::{Bytes, NoMemory, Text};
use record_json::write_records;
use record_model::Record;
use std::alloc::Global;

/// A request of this method with this target and body.
fn sent_request(
    alloc: Global,
    token: &Text,
    method: &str,
    target: Text,
    body: Bytes,
) -> Result<Request, NoMemory>
    ensures { IfOk result (λ r. request_seen r ≡ sent_request token.now method.now target body.items) }
{
    Ok(Request {
        method: owned_text(alloc, method)?,
        target,
        authorization: Some(authorization(alloc, token)?),
        close: true,
        body,
    })
}

/// Asks how many records the peer has of each chain.
pub fn status_request(alloc: Global, token: &Text) -> Result<Request, NoMemory>
    ensures { IfOk result (λ r. request_seen r ≡ request_of token.now Status) }
{
    let target = owned_text(alloc, "/api/v0/record")?;
    sent_request(alloc, token, "GET", target, Bytes::new(alloc))
}

/// Asks for the records of a host and tag from the idx `start` on, at most `count`.
pub fn next_request(
    alloc: Global,
    token: &Text,
    host: u128,
    tag: &Text,
    start: u64,
    count: u32,
) -> Result<Request, NoMemory>
    ensures { IfOk result (λ r. request_seen r ≡ request_of token.now (Next (record { host = host; tag = tag.now }) start count)) }
{
    let target = next_target(alloc, host, tag, start, count)?;
    sent_request(alloc, token, "GET", target, Bytes::new(alloc))
}

/// Hands the peer these records.
pub fn post_request(alloc: Global, token: &Text, page: &[Record]) -> Result<Request, NoMemory>
    ensures { IfOk result (λ r. request_seen r ≡ request_of token.now (Post (records_seen page.now))) }
{
    let body = write_records(alloc, page)?;
    let target = owned_text(alloc, "/api/v0/record")?;
    sent_request(alloc, token, "POST", target, body)
}
