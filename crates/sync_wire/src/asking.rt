//! What is asked of a peer, each in an exchange of its own.

ghost use Rattle.std.specs.Prelude.{◌≡◌};
ghost use Rattle.std.specs.List.{list_all};
ghost use Rattle.record_model.specs.Seen.{record_seen, records_seen};
ghost use Rattle.record_rules.specs.Journal.{in_place};
ghost use Rattle.sync_wire.specs.Exchanging.{Asks, ReadsBody};
ghost use Rattle.sync_wire.specs.Requests.{asked_text, Status, Next, Post};
ghost use Rattle.sync_wire.specs.Replies.{is_page, SaysStatus, NoStatus, SaysPage, NoPage, SaysAdded, NoAdded};

use crate::added::read_added;
use crate::exchange::ask;
use crate::fail::AskFail;
use crate::peer::Peer;
use crate::requests::{next_request, post_request, status_request};
use at_edge::Link;
use plain_types::Text;
use record_json::{read_records, read_status};
use record_model::{Chain, Record};
use std::alloc::Global;

fn read_chains(alloc: Global, body: &[u8]) -> Result<Vec<Chain>, AskFail>
    ensures { ReadsBody (λ body chains. SaysStatus body chains.items) NoStatus body.now result }
{
    Ok(read_status(alloc, body)?)
}

/// How many records the peer has of each chain: in order of host, then of the tag's bytes, none empty.
///
/// # Errors
///
/// Each [`AskFail`].
pub fn ask_status<L: Link>(alloc: Global, peer: &Peer, link: &mut L) -> Result<Vec<Chain>, AskFail>
    ensures { Asks (λ body chains. SaysStatus body chains.items) NoStatus (asked_text peer.now Status) (L.link link.old) (L.link link.new) result }
{
    let request = status_request(alloc, &peer.token)?;
    let body = ask(alloc, &peer.host, &request, link)?;
    read_chains(alloc, body.as_slice())
}

fn is_in_place(host: u128, tag: &Text, rec: &Record) -> bool
    ensures { result ≡ in_place host tag.now (record_seen rec.now) }
{
    rec.host == host && rec.tag.as_bytes() == tag.as_bytes()
}

fn all_in_place(host: u128, tag: &Text, records: &[Record]) -> bool
    ensures { result ≡ list_all (λ rec. in_place host tag.now (record_seen rec)) records.now }
{
    records.iter().all(|rec| is_in_place(host, tag, rec))
}

fn are_in_place(host: u128, tag: &Text, records: &[Record]) -> bool
    ensures { result ≡ list_all (in_place host tag.now) (records_seen records.now) }
{
    all_in_place(host, tag, records)
}

/// Whether these are at most `count` records, all of the host and tag.
fn is_page(host: u128, tag: &Text, count: u32, records: &[Record]) -> bool
    ensures { result ≡ is_page host tag.now count (records_seen records.now) }
{
    records.len() <= count as usize && are_in_place(host, tag, records)
}

fn read_page(
    alloc: Global,
    host: u128,
    tag: &Text,
    count: u32,
    body: &[u8],
) -> Result<Vec<Record>, AskFail>
    ensures { ReadsBody (λ body records. SaysPage host tag.now count body records.items) (NoPage host tag.now count) body.now result }
{
    let records = read_records(alloc, body)?;
    if !is_page(host, tag, count, records.as_slice()) {
        return Err(AskFail::PeerForm);
    }
    Ok(records)
}

/// The peer's records of a host and tag, from the idx `start` on: at most `count`, in the order in which they came. They are
/// of that host and tag; nothing is said of their idx and of their seals.
///
/// # Errors
///
/// Each [`AskFail`]; [`AskFail::PeerForm`] also for more records, or records of another host or tag.
pub fn ask_page<L: Link>(
    alloc: Global,
    peer: &Peer,
    link: &mut L,
    host: u128,
    tag: &Text,
    start: u64,
    count: u32,
) -> Result<Vec<Record>, AskFail>
    ensures { Asks (λ body records. SaysPage host tag.now count body records.items) (NoPage host tag.now count) (asked_text peer.now (Next (record { host = host; tag = tag.now }) start count)) (L.link link.old) (L.link link.new) result }
{
    let request = next_request(alloc, &peer.token, host, tag, start, count)?;
    let body = ask(alloc, &peer.host, &request, link)?;
    read_page(alloc, host, tag, count, body.as_slice())
}

/// Hands the peer these records, and returns how many it says that it added: from 0 to 2^64-1, whatever was sent.
///
/// # Errors
///
/// Each [`AskFail`].
pub fn post_page<L: Link>(
    alloc: Global,
    peer: &Peer,
    link: &mut L,
    page: &[Record],
) -> Result<u64, AskFail>
    ensures { Asks SaysAdded NoAdded (asked_text peer.now (Post (records_seen page.now))) (L.link link.old) (L.link link.new) result }
{
    let request = post_request(alloc, &peer.token, page)?;
    let body = ask(alloc, &peer.host, &request, link)?;
    read_added(alloc, body.as_slice())
}
