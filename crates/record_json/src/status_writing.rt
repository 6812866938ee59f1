//! Statuses as JSON.

ghost use Rattle.std.specs.Prelude.{◌≡◌, ◌∷◌, [], ◌++◌, IfOk, OnOk, None};
ghost use Rattle.json.specs.Token.{end_object};
ghost use Rattle.record_model.specs.Seen.{chain_seen, chains_seen};
ghost use Rattle.record_json.specs.Statuses.{host_begins, host_opens, host_ends, chain_tokens, hosts_tokens, status_text};
ghost use Rattle.record_json.specs.Writing.{Adds};

use crate::members::{add_id_key, text_str};
use json::Writer;
use plain_types::{Bytes, NoMemory};
use record_model::Chain;
use std::alloc::Global;

/// The most that a chain has beside its tag where no text needs an escape, in bytes: the key and the braces of its host,
/// quotes, a colon, a comma and 20 digits.
const CHAIN_BYTES: usize = 66;

/// What stands around the hosts, in bytes.
const FRAME_BYTES: usize = 12;

fn begin_host(writer: &mut Writer, host: u128) -> Result<(), NoMemory>
    ensures { OnOk result (Adds writer.old writer.new (host_begins host)) }
{
    add_id_key(writer, host)?;
    writer.begin_object()?;
    Ok(())
}

/// Opens the object of a host, where it isn't open.
fn open_host(writer: &mut Writer, opened: Option<u128>, host: u128) -> Result<(), NoMemory>
    ensures { OnOk result (Adds writer.old writer.new (host_opens opened host)) }
{
    match opened {
        Some(other) => {
            if other != host {
                writer.end_object()?;
                begin_host(writer, host)?;
            }
            Ok(())
        }
        None => begin_host(writer, host),
    }
}

/// Closes the object that is open.
fn close_host(writer: &mut Writer, opened: Option<u128>) -> Result<(), NoMemory>
    ensures { OnOk result (Adds writer.old writer.new (host_ends opened)) }
{
    if opened.is_some() {
        writer.end_object()?;
    }
    Ok(())
}

fn add_chain(writer: &mut Writer, opened: Option<u128>, chain: &Chain) -> Result<(), NoMemory>
    ensures { OnOk result (Adds writer.old writer.new
        (host_opens opened chain.now.host ++ chain_tokens (chain_seen chain.now))) }
{
    open_host(writer, opened, chain.host)?;
    writer.key(text_str(&chain.tag))?;
    writer.u64(chain.count.saturating_sub(1))?;
    Ok(())
}

fn add_hosts(writer: &mut Writer, chains: &[Chain]) -> Result<(), NoMemory>
    ensures { OnOk result (Adds writer.old writer.new (hosts_tokens None (chains_seen chains.now))) }
{
    let mut opened = None;
    'chains: for chain in chains {
        add_chain(writer, opened, chain)?;
        opened = Some(chain.host);
    }
    close_host(writer, opened)
}

/// The bytes that the status has where no text needs an escape, or more.
fn usual_len(chains: &[Chain]) -> usize {
    let mut len = FRAME_BYTES;
    for chain in chains {
        len = len.saturating_add(CHAIN_BYTES + chain.tag.len());
    }
    len
}

/// The status as JSON: `{"hosts":{"HOST":{"TAG":last}}}`, without spaces, where `last` is the count of a chain less 1. The
/// chains are those of a status: in order of host, then tag, and none of them empty.
///
/// # Errors
///
/// [`NoMemory`].
pub fn write_status(alloc: Global, chains: &[Chain]) -> Result<Bytes, NoMemory>
    ensures { IfOk result (λ bytes. bytes.items ≡ status_text (chains_seen chains.now)) }
{
    let mut writer = Writer::new(Vec::with_capacity(alloc, usual_len(chains))?);
    writer.begin_object()?;
    writer.key("hosts")?;
    writer.begin_object()?;
    add_hosts(&mut writer, chains)?;
    writer.end_object()?;
    writer.end_object()?;
    Ok(Bytes::from_vec(writer.into_inner()))
}
