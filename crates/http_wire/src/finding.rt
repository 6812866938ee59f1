//! Finding a head at the front of a message.

ghost use Rattle.std.specs.Prelude.{◌≤◌};
ghost use Rattle.http_wire.specs.Fronts.{lines_of};
ghost use Rattle.http_wire.specs.Looking.{FindsHead, Looks};

use crate::fail::HttpFail;
use crate::fronts::find_front;
use crate::limits::MOST_HEAD_LINES;
use httparse::spans::{EMPTY_HEADER_SPAN, parse_request, parse_response};
use httparse::{Error, Status};

/// Which heads are looked for.
#[derive(Clone, Copy, Debug, PartialEq, Eq)]
pub enum HeadKind {
    OfRequest,
    OfResponse,
}

/// What stands at the front of some bytes.
#[derive(Drop)]
pub enum HeadFound {
    /// A head, which ends behind this many bytes.
    Whole(usize),
    /// No head; one may come with more bytes.
    NotYet,
    /// No head, whatever comes.
    Never,
}

fn find_request(front: &[u8]) -> HeadFound
    requires { lines_of front.now ≤ 102 }
    ensures { FindsHead HeadKind.OfRequest front.now result }
{
    let mut fields = [EMPTY_HEADER_SPAN; MOST_HEAD_LINES];
    match parse_request(front, &mut fields) {
        Ok(Status::Complete(head)) => HeadFound::Whole(head.len),
        Ok(Status::Partial) => HeadFound::NotYet,
        Err(Error::TooManyHeaders) => HeadFound::NotYet,
        Err(_) => HeadFound::Never,
    }
}

fn find_response(front: &[u8]) -> HeadFound
    requires { lines_of front.now ≤ 102 }
    ensures { FindsHead HeadKind.OfResponse front.now result }
{
    let mut fields = [EMPTY_HEADER_SPAN; MOST_HEAD_LINES];
    match parse_response(front, &mut fields) {
        Ok(Status::Complete(head)) => HeadFound::Whole(head.len),
        Ok(Status::Partial) => HeadFound::NotYet,
        Err(Error::TooManyHeaders) => HeadFound::NotYet,
        Err(_) => HeadFound::Never,
    }
}

/// Looks for a head in a front, which has at most 102 line feeds.
fn find_head(kind: HeadKind, front: &[u8]) -> HeadFound
    requires { lines_of front.now ≤ 102 }
    ensures { FindsHead kind front.now result }
{
    match kind {
        HeadKind::OfRequest => find_request(front),
        HeadKind::OfResponse => find_response(front),
    }
}

/// Looks for a head at the front of what was read of a message, and tells where it ends. `None` where none is whole yet
/// and more bytes belong to the front.
///
/// # Errors
///
/// [`HttpFail::HeadTooLong`] where none is whole and no more bytes belong to the front, and [`HttpFail::NotHttp`] where none
/// can come.
pub fn look(kind: HeadKind, bytes: &[u8]) -> Result<Option<usize>, HttpFail>
    ensures { Looks kind bytes.now result }
{
    let front = find_front(bytes);
    match find_head(kind, &bytes[..front.len]) {
        HeadFound::Whole(end) => Ok(Some(end)),
        HeadFound::Never => Err(HttpFail::NotHttp),
        HeadFound::NotYet if front.full => Err(HttpFail::HeadTooLong),
        HeadFound::NotYet => Ok(None),
    }
}
