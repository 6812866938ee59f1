//! Responses to what is read.

ghost use Rattle.step_rules.specs.ReadTurns.{told_status, told_page};
ghost use Rattle.record_model.specs.Seen.{chains_seen, records_seen};
ghost use Rattle.http_wire.specs.Seen.{response_seen};
ghost use Rattle.response_texts.specs.Responses.{TellsRead};

use crate::reasons::{coded, response};
use http_wire::{Body, Response};
use plain_types::NoMemory;
use record_json::{write_records, write_status};
use record_model::{Chain, Record};
use std::alloc::Global;

/// 200 with the status; or 503, where there was no memory for its text.
pub fn status_told(alloc: Global, chains: &[Chain], close: bool) -> Response
    ensures { TellsRead close (told_status (chains_seen chains.now)) (response_seen result) }
{
    match write_status(alloc, chains) {
        Ok(text) => response(200, close, Body::from_bytes(text)),
        Err(NoMemory) => coded(503, close),
    }
}

/// 200 with the records; or 503, where there was no memory for their text.
pub fn page_told(alloc: Global, page: &[Record], close: bool) -> Response
    ensures { TellsRead close (told_page (records_seen page.now)) (response_seen result) }
{
    match write_records(alloc, page) {
        Ok(text) => response(200, close, Body::from_bytes(text)),
        Err(NoMemory) => coded(503, close),
    }
}
