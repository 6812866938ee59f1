//! What a request asks.

ghost use Rattle.std.specs.Prelude.{◌≡◌};
ghost use Rattle.http_wire.specs.Seen.{request_seen};
ghost use Rattle.request_routes.specs.Reading.{IsPageRoute, IsTakeRoute, IsRoute};

use crate::actions::{Action, action_on, split_target};
use crate::fail::RouteFail;
use crate::owners::owner_asking;
use crate::queries::{id_under, number_under, text_under};
use accounts::Accounts;
use http_wire::Request;
use plain_types::Text;
use record_json::read_records;
use record_model::Record;
use std::alloc::Global;

/// The most records of a page; a greater count counts as this one.
const MOST_RECORDS: u64 = 100;

/// What an owner asks of the store.
#[derive(Debug, Drop)]
pub enum Asked {
    /// Its status.
    Status {
        owner: u32,
    },
    /// A page of its chain of the host and the tag, from the idx `start` on, of at most `count` records, 0 to 100.
    Next {
        owner: u32,
        host: u128,
        tag: Text,
        start: u64,
        count: u32,
    },
    /// That the records are taken in.
    Take {
        owner: u32,
        page: Vec<Record>,
    },
}

/// The page of an owner's chain that a query asks for.
///
/// # Errors
///
/// [`RouteFail::BadRequest`] where one of the four names doesn't stand once, or its value isn't of the form;
/// [`RouteFail::NoMemory`].
fn page_asked(alloc: Global, owner: u32, query: &[u8]) -> Result<Asked, RouteFail>
    ensures { IsPageRoute owner query.now result }
{
    let Some(host) = id_under(alloc, "host", query)? else {
        return Err(RouteFail::BadRequest);
    };
    let Some(tag) = text_under(alloc, "tag", query)? else {
        return Err(RouteFail::BadRequest);
    };
    let Some(start) = number_under(alloc, "start", query)? else {
        return Err(RouteFail::BadRequest);
    };
    let Some(count) = number_under(alloc, "count", query)? else {
        return Err(RouteFail::BadRequest);
    };
    let count = count.min(MOST_RECORDS) as u32;
    Ok(Asked::Next {
        owner,
        host,
        tag,
        start,
        count,
    })
}

/// The page that a body holds, to be taken in for the owner.
///
/// # Errors
///
/// [`RouteFail::BadRequest`] where the body isn't JSON of an array of records; [`RouteFail::NoMemory`].
fn page_sent(alloc: Global, owner: u32, body: &[u8]) -> Result<Asked, RouteFail>
    ensures { IsTakeRoute owner body.now result }
{
    match read_records(alloc, body) {
        Ok(page) => Ok(Asked::Take { owner, page }),
        Err(fail) => Err(RouteFail::from(fail)),
    }
}

/// What the request asks the store, and for which owner.
///
/// # Errors
///
/// The first that fits, in this order: [`RouteFail::NoPath`], [`RouteFail::NoMethod`], [`RouteFail::UnknownToken`],
/// [`RouteFail::BadRequest`]. [`RouteFail::NoMemory`] comes in place of the last one, or of what is asked.
pub fn route(alloc: Global, accounts: &Accounts, request: &Request) -> Result<Asked, RouteFail>
    ensures { IsRoute accounts.now (request_seen request.now) result }
{
    let (path, query) = split_target(request.target.as_bytes());
    let action = action_on(path, request.method.as_bytes())?;
    let Some(owner) = owner_asking(accounts, &request.authorization) else {
        return Err(RouteFail::UnknownToken);
    };
    match action {
        Action::GiveStatus => Ok(Asked::Status { owner }),
        Action::GivePage => page_asked(alloc, owner, query),
        Action::TakePage => page_sent(alloc, owner, request.body.as_slice()),
    }
}
