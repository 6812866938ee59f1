//! The answer to a request.

ghost use Rattle.std.specs.Prelude.{◌≡◌};
ghost use Rattle.http_wire.specs.Seen.{request_seen, response_seen};
ghost use Rattle.request_routes.specs.Reading.{asked_seen};
ghost use Rattle.request_routes.specs.Routing.{code_of as coded_as};
ghost use Rattle.server_routes.specs.Serving.{ServesAsked, AnswersRequest};

use crate::store::ServedStore;
use crate::telling::{take_in, tell_page, tell_status};
use accounts::Accounts;
use http_wire::{Request, Response};
use request_routes::{Asked, RouteFail, route};
use response_texts::coded;
use std::alloc::Global;

/// The code of a request that asks the store nothing.
fn code_of(fail: RouteFail) -> u16
    ensures { result ≡ coded_as fail }
{
    match fail {
        RouteFail::NoPath => 404,
        RouteFail::NoMethod => 405,
        RouteFail::UnknownToken => 401,
        RouteFail::BadRequest => 400,
        RouteFail::NoMemory => 503,
    }
}

/// Answers what is asked, in one turn of the store.
fn serve<T: ServedStore>(
    alloc: Global,
    store: &mut T,
    number: u64,
    asked: Asked,
    close: bool,
) -> Response
    ensures { ServesAsked (T.store store.old) (T.store store.new) number (asked_seen asked) close (response_seen result) }
{
    match asked {
        Asked::Status { owner } => tell_status(alloc, store, number, owner, close),
        Asked::Next {
            owner,
            host,
            tag,
            start,
            count,
        } => tell_page(
            alloc,
            store,
            number,
            owner,
            host,
            tag.as_bytes(),
            start,
            count,
            close,
        ),
        Asked::Take { owner, page } => take_in(store, number, owner, page.as_slice(), close),
    }
}

/// Answers a request, in the call of this number. A request that is refused by its path, its method, its token, or its query
/// or body, in this order, is told 404, 405, 401 or 400, and the store is asked nothing. Any other one is asked in one turn
/// of the store, and the response tells what that turn found and did:
///
/// - 200 with the owner's status, with a page of one of its chains, or with the number of records that were added;
/// - 409, 413 or 507 for a page that is refused as a whole;
/// - 500 for a fault of the disk, only where its count rose. Whether the page stands is then known at a later turn.
///
/// 503 tells that memory was wanting, and the connection ends with it: before the store was asked; for the text of what
/// was read; or for the page, which then isn't taken. A page that was committed is always told as 200.
pub fn answer<T: ServedStore>(
    alloc: Global,
    store: &mut T,
    number: u64,
    accounts: &Accounts,
    request: &Request,
) -> Response
    ensures { AnswersRequest accounts.now (T.store store.old) (T.store store.new) number (request_seen request.now) (response_seen result) }
{
    match route(alloc, accounts, request) {
        Ok(asked) => serve(alloc, store, number, asked, request.close),
        Err(fail) => coded(code_of(fail), request.close),
    }
}
