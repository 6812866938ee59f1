//! Statuses from JSON.

ghost use Rattle.std.specs.Prelude.{◌≡◌, [], ◌∷◌, ◌++◌, IfOk, IfSome, MatchResult, option_map};
ghost use Rattle.serde_json.specs.View.{view, members_view};
ghost use Rattle.record_model.specs.Seen.{chains_seen};
ghost use Rattle.record_json.specs.Json.{number_of};
ghost use Rattle.record_json.specs.Statuses.{counted, host_added, hosts_in, chains_under, chains_of_all, status_in};
ghost use Rattle.record_json.specs.StatusOrder.{tags_of, Rises, IsInOrder};
ghost use Rattle.record_json.specs.StatusReading.{hosts_seen, if_taken, SpellsStatus, RefusesStatus};

use crate::fail::JsonFail;
use crate::looking::{owned_text, read_json};
use plain_types::NoMemory;
use record_model::{Chain, read_record_id};
use serde_json::{Map, Value};
use std::alloc::Global;
use std::collections::BTreeMap;

/// The members of an object.
type Members = Map<String, Value>;

/// Hosts in order, each with the members of its object.
type Hosts<'v> = BTreeMap<u128, &'v Members>;

/// Takes a host with its members, and tells whether it is one, and wasn't there.
fn add_host<'v>(hosts: &mut Hosts<'v>, name: &str, value: &'v Value) -> Result<bool, NoMemory>
    ensures { IfOk result (λ taken. if_taken taken (hosts_seen hosts.new.entries)
        ≡ host_added name.now (view value.now) (hosts_seen hosts.old.entries)) }
{
    let Some(host) = read_record_id(name.as_bytes()) else {
        return Ok(false);
    };
    let Some(tags) = value.as_object() else {
        return Ok(false);
    };
    match hosts.insert(host, tags)? {
        Some(_) => Ok(false),
        None => Ok(true),
    }
}

/// The hosts that these members name.
fn hosts_of<'v>(alloc: Global, members: &'v Members) -> Result<Option<Hosts<'v>>, NoMemory>
    ensures { IfOk result (λ found. option_map (λ hosts. hosts_seen hosts.entries) found
        ≡ hosts_in (members_view members.now.entries) []) }
{
    let mut hosts = BTreeMap::new(alloc);
    'members: for (name, value) in members {
        if !add_host(&mut hosts, name.as_str(), value)? {
            return Ok(None);
        }
    }
    Ok(Some(hosts))
}

/// Takes a chain, and tells whether its count was read.
fn add_chain(
    alloc: Global,
    chains: &mut Vec<Chain>,
    host: u128,
    tag: &str,
    value: &Value,
) -> Result<bool, NoMemory>
    ensures { IfOk result (λ taken. if_taken taken (chains_seen chains.new.items)
        ≡ option_map (λ last. chains_seen chains.old.items ++ counted host tag.now last ∷ []) (number_of (view value.now))) }
{
    let Some(last) = value.as_u64() else {
        return Ok(false);
    };
    chains.push(Chain {
        host,
        tag: owned_text(alloc, tag)?,
        count: last.saturating_add(1),
    })?;
    Ok(true)
}

/// Takes the chains of a host, and tells whether all their counts were read.
fn add_chains(
    alloc: Global,
    chains: &mut Vec<Chain>,
    host: u128,
    tags: &Members,
) -> Result<bool, NoMemory>
    ensures value { IfOk result (λ taken. if_taken taken (chains_seen chains.new.items)
        ≡ option_map (λ more. chains_seen chains.old.items ++ more) (chains_under host (members_view tags.now.entries))) }
    ensures rises { IfOk result (λ _. Rises (tags_of (members_view tags.now.entries))) }
{
    'tags: for (tag, value) in tags {
        if !add_chain(alloc, chains, host, tag.as_str(), value)? {
            return Ok(false);
        }
    }
    Ok(true)
}

/// The chains of these hosts.
fn chains_of(alloc: Global, hosts: &Hosts<'_>) -> Result<Option<Vec<Chain>>, NoMemory>
    ensures value { IfOk result (λ found. option_map (λ chains. chains_seen chains.items) found
        ≡ chains_of_all (hosts_seen hosts.now.entries)) }
    ensures in_order { IfOk result (λ found. IfSome found (λ chains. IsInOrder (chains_seen chains.items))) }
{
    let mut chains = Vec::new(alloc);
    'hosts: for (host, tags) in hosts {
        if !add_chains(alloc, &mut chains, *host, tags)? {
            return Ok(None);
        }
    }
    Ok(Some(chains))
}

/// The status that a value stands for.
fn status_of(alloc: Global, value: &Value) -> Result<Option<Vec<Chain>>, NoMemory>
    ensures value { IfOk result (λ found. option_map (λ chains. chains_seen chains.items) found ≡ status_in (view value.now)) }
    ensures in_order { IfOk result (λ found. IfSome found (λ chains. IsInOrder (chains_seen chains.items))) }
{
    let Some(members) = value.get("hosts").and_then(Value::as_object) else {
        return Ok(None);
    };
    match hosts_of(alloc, members)? {
        Some(hosts) => chains_of(alloc, &hosts),
        None => Ok(None),
    }
}

/// The status that a JSON text tells: `{"hosts":{"HOST":{"TAG":last}}}`, where a chain has one record more than `last`, and
/// 2^64-1 for the greatest. Other members are ignored; a host may have any form of a UUID. The chains are in order of host,
/// then tag, and none is empty.
///
/// # Errors
///
/// [`JsonFail::NotJson`] exactly where `serde_json` reads no value of the bytes, and [`JsonFail::NotRecords`] with the place 0
/// exactly where the value isn't of that form, or two members name one host. [`JsonFail::NoMemory`], also for a tag of 2^32
/// bytes or more.
pub fn read_status(alloc: Global, bytes: &[u8]) -> Result<Vec<Chain>, JsonFail>
    ensures value { MatchResult result (λ chains. SpellsStatus bytes.now (chains_seen chains.items))
        (λ fail. RefusesStatus bytes.now fail) }
    ensures in_order { IfOk result (λ chains. IsInOrder (chains_seen chains.items)) }
{
    let Some(value) = read_json(alloc, bytes)? else {
        return Err(JsonFail::NotJson);
    };
    match status_of(alloc, &value)? {
        Some(chains) => Ok(chains),
        None => Err(JsonFail::NotRecords { position: 0 }),
    }
}
