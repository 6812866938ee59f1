//! What an owner asks, answered by the store and told.

ghost use Rattle.std.specs.Prelude.{Err};
ghost use Rattle.record_model.specs.Seen.{records_seen};
ghost use Rattle.page_growth.specs.Checking.{refusal_seen};
ghost use Rattle.step_rules.specs.PageTurns.{page_refused};
ghost use Rattle.step_rules.specs.ReadTurns.{status_read, page_read};
ghost use Rattle.session_rules.specs.Sessions.{a_page, a_read, to_page, to_read};
ghost use Rattle.store_core.specs.Pages.{page_answer_seen};
ghost use Rattle.told_store.specs.Asked.{read_answer_seen};
ghost use Rattle.http_wire.specs.Seen.{response_seen};
ghost use Rattle.response_texts.specs.Responses.{Tells};
ghost use Rattle.server_routes.specs.Serving.{ServesAsked};

use crate::store::ServedStore;
use http_wire::Response;
use page_growth::PageRefusal;
use plain_types::NoMemory;
use record_model::Record;
use response_texts::{added, coded, forked, full, gap, page_told, status_told, too_long};
use std::alloc::Global;
use store_core::{ReadFail, TakeFail};

/// The codes of what went wrong outside of the request.
const DISK_FAULT: u16 = 500;

const NO_MEMORY: u16 = 503;

/// Tells the owner's status.
pub fn tell_status<T: ServedStore>(
    alloc: Global,
    store: &mut T,
    number: u64,
    owner: u32,
    close: bool,
) -> Response
    ensures { ServesAsked (T.store store.old) (T.store store.new) number (a_read (status_read owner)) close (response_seen result) }
{
    let _read = number;
    match store.status(owner) {
        Ok(chains) => status_told(alloc, chains.as_slice(), close),
        Err(NoMemory) => coded(NO_MEMORY, close),
    }
}

/// The response to a page that wasn't read.
fn tell_unread(fail: ReadFail, close: bool) -> Response
    ensures { Tells close (to_read (read_answer_seen (Err fail))) (response_seen result) }
{
    match fail {
        ReadFail::DiskFault => coded(DISK_FAULT, close),
        ReadFail::NoMemory => coded(NO_MEMORY, close),
    }
}

/// Tells the page of the owner's chain.
pub fn tell_page<T: ServedStore>(
    alloc: Global,
    store: &mut T,
    number: u64,
    owner: u32,
    host: u128,
    tag: &[u8],
    start: u64,
    count: u32,
    close: bool,
) -> Response
    ensures { ServesAsked (T.store store.old) (T.store store.new) number (a_read (page_read owner host tag.now start count)) close (response_seen result) }
{
    let _read = number;
    match store.page(owner, host, tag, start, count) {
        Ok(records) => page_told(alloc, records.as_slice(), close),
        Err(fail) => tell_unread(fail, close),
    }
}

/// The response to a page that is refused as a whole.
fn tell_refusal(refusal: PageRefusal, close: bool) -> Response
    ensures { Tells close (to_page (page_refused (refusal_seen refusal))) (response_seen result) }
{
    match refusal {
        PageRefusal::TooLong { position, length } => too_long(position, length, close),
        PageRefusal::Forked { position, held } => forked(position, held, close),
        PageRefusal::Gap { position, wanted } => gap(position, wanted, close),
        PageRefusal::Full(passed) => full(passed.what, passed.held, close),
    }
}

/// The response to a page that wasn't taken.
fn tell_untaken(fail: TakeFail, close: bool) -> Response
    ensures { Tells close (to_page (page_answer_seen (Err fail))) (response_seen result) }
{
    match fail {
        TakeFail::Refused(refusal) => tell_refusal(refusal, close),
        TakeFail::DiskFault => coded(DISK_FAULT, close),
        TakeFail::NoMemory => coded(NO_MEMORY, close),
    }
}

/// Has the store take the records in for the owner, and tells what came of it. Behind the store's turn no memory is taken,
/// so a page that was committed is told as one.
pub fn take_in<T: ServedStore>(
    store: &mut T,
    number: u64,
    owner: u32,
    page: &[Record],
    close: bool,
) -> Response
    ensures { ServesAsked (T.store store.old) (T.store store.new) number (a_page owner (records_seen page.now)) close (response_seen result) }
{
    match store.take_page(number, owner, page) {
        Ok(count) => added(count, close),
        Err(fail) => tell_untaken(fail, close),
    }
}
