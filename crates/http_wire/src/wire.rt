//! Messages that are read from a source.

ghost use Rattle.std.specs.Prelude.{◌≡◌, ◌≤◌, [], IfOk};
ghost use Rattle.http_wire.specs.Looking.{HeadInFront};
ghost use Rattle.http_wire.specs.Reading.{AllowsBody, TakesRequest, TakesResponse, AnswersRequest};

use crate::announced::{read_request_head, read_response_head};
use crate::body::Body;
use crate::fail::HttpFail;
use crate::finding::HeadKind;
use crate::limits::{MOST_BODY_BYTES, READ_BYTES};
use crate::messages::{Request, Response};
use crate::taking::{take_body, take_head};
use at_edge::Source;
use plain_types::{Bytes, NoMemory};
use std::alloc::Global;
use std::marker::Model;

/// The length of the body, if one is told that may be awaited.
fn allowed_length(told: Option<u64>) -> Result<usize, HttpFail>
    ensures { AllowsBody told result }
{
    match told {
        Some(length) if length <= MOST_BODY_BYTES => Ok(length as usize),
        Some(length) => Err(HttpFail::BodyTooLong { length }),
        None => Err(HttpFail::NoLength),
    }
}

/// Takes a request whose head ends at this place of what is held.
fn take_request<S: Source>(
    alloc: Global,
    held: &mut Bytes,
    source: &mut S,
    end: usize,
) -> Result<Request, HttpFail>
    requires { HeadInFront HeadKind.OfRequest held.old.items end }
    ensures { TakesRequest (S.source source.old) (S.source source.new) held.old.items held.new.items result }
{
    let announced = read_request_head(alloc, &held.as_slice()[..end])?;
    let len = allowed_length(announced.length)?;
    let mut request = announced.message;
    request.body = take_body(alloc, held, source, end, len)?;
    Ok(request)
}

/// Takes a response whose head ends at this place of what is held.
fn take_response<S: Source>(
    alloc: Global,
    held: &mut Bytes,
    source: &mut S,
    end: usize,
) -> Result<Response, HttpFail>
    requires { HeadInFront HeadKind.OfResponse held.old.items end }
    ensures { TakesResponse (S.source source.old) (S.source source.new) held.old.items held.new.items result }
{
    let announced = read_response_head(&held.as_slice()[..end]);
    let len = allowed_length(announced.length)?;
    let mut response = announced.message;
    response.body = Body::from_bytes(take_body(alloc, held, source, end, len)?);
    Ok(response)
}

/// Reads the messages of one connection, one after the other. Contracts see the bytes that were taken and belong to no message
/// yet. After a refusal it isn't used again.
#[derive(Drop)]
pub struct Wire {
    alloc: Global,
    held: Bytes,
}

impl Model for Wire {
    ghost use Rattle.std.specs.Prelude.{ℕ, List};

    ghost Value = { List ℕ };

    ghost view = { λ w. w.held.items };
}

impl Wire {
    /// A wire of which nothing was read.
    ///
    /// # Errors
    ///
    /// [`NoMemory`].
    pub fn new(alloc: Global) -> Result<Wire, NoMemory>
        ensures { IfOk result (λ wire. wire ≡ []) }
    {
        let mut held = Bytes::new(alloc);
        held.reserve(READ_BYTES)?;
        Ok(Wire { alloc, held })
    }

    /// Reads the next request: its head, of at most 65,536 bytes and 102 line feeds, and as many bytes as the head tells of its
    /// body, at most 33,554,432. `None` where the source ended before a first byte of it. Bytes that came behind it stay for
    /// the next one.
    ///
    /// # Errors
    ///
    /// Each [`HttpFail`], where the bytes that were taken have its cause.
    pub fn read_request<S: Source>(&mut self, source: &mut S) -> Result<Option<Request>, HttpFail>
        ensures { AnswersRequest (S.source source.old) (S.source source.new) self.old self.new result }
    {
        match take_head(HeadKind::OfRequest, &mut self.held, source)? {
            Some(end) => Ok(Some(take_request(self.alloc, &mut self.held, source, end)?)),
            None if self.held.is_empty() => Ok(None),
            None => Err(HttpFail::Ended),
        }
    }

    /// Reads the next response, which must come: its head and its body, as those of a request.
    ///
    /// # Errors
    ///
    /// Each [`HttpFail`], where the bytes that were taken have its cause.
    pub fn read_response<S: Source>(&mut self, source: &mut S) -> Result<Response, HttpFail>
        ensures { TakesResponse (S.source source.old) (S.source source.new) self.old self.new result }
    {
        match take_head(HeadKind::OfResponse, &mut self.held, source)? {
            Some(end) => take_response(self.alloc, &mut self.held, source, end),
            None => Err(HttpFail::Ended),
        }
    }
}
