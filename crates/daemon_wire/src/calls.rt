//! The arguments of each call, read to the payload's last byte. No text is copied before all of them are right.
#![tactic(auto, unfolding(definitions::specs::Reading::arguments_at, definitions::specs::Reading::last_arguments_at))]

ghost use Rattle.std.specs.Prelude.{◌≡◌, ◌<◌, ◌^◌, length, IfOk};
ghost use Rattle.std.specs.Str.{IsUtf8};
ghost use Rattle.record_model.specs.Seen.{mode_seen};
ghost use Rattle.model_words.specs.Seen.{scope_seen};
ghost use Rattle.request_rules.specs.Reading.{mode_of, scope_of, unique_of};
ghost use Rattle.daemon_wire.specs.declared.names.CallName.TheVariants as names;
ghost use Rattle.daemon_wire.specs.Reading.{AsksFor};

use crate::fail::CallFail;
use crate::items::{id, number, signed, text};
use crate::limits::MOST_LISTED;
use crate::names::CallName;
use msgpack_fields::Reader;
use plain_types::{NoMemory, Text};
use record_model::{Call, Filter, Mode, Query};
use std::alloc::Global;

/// The arguments of the call of this name.
pub(crate) fn arguments(
    alloc: Global,
    name: CallName,
    reader: &mut Reader<'_>,
) -> Result<Call, CallFail>
    ensures { AsksFor name reader.old result }
{
    match name {
        CallName::Start => start(alloc, reader),
        CallName::End => end(reader),
        CallName::Delete => delete(reader),
        CallName::Search => search_call(alloc, reader),
        CallName::KvSet => kv_set(alloc, reader),
        CallName::KvGet => kv_get(alloc, reader),
        CallName::KvList => kv_list(alloc, reader),
        CallName::AliasSet => alias_set(alloc, reader),
        CallName::AliasDelete => alias_delete(alloc, reader),
        CallName::AliasList => alias_list(alloc, reader),
        CallName::Status => status(reader),
        CallName::AuthoredEnd => authored_end(alloc, reader),
        CallName::KvDelete => kv_delete(alloc, reader),
    }
}

fn start(alloc: Global, reader: &mut Reader<'_>) -> Result<Call, CallFail>
    ensures { AsksFor names.Start reader.old result }
{
    let command = text(reader)?;
    let cwd = text(reader)?;
    let session = text(reader)?;
    let hostname = text(reader)?;
    reader.end()?;
    Ok(Call::Start {
        command: Text::copied(alloc, command)?,
        cwd: Text::copied(alloc, cwd)?,
        session: Text::copied(alloc, session)?,
        hostname: Text::copied(alloc, hostname)?,
    })
}

fn end(reader: &mut Reader<'_>) -> Result<Call, CallFail>
    ensures { AsksFor names.End reader.old result }
{
    let id = id(reader)?;
    let duration = signed(reader)?;
    let exit = signed(reader)?;
    reader.end()?;
    Ok(Call::End {
        id,
        duration,
        exit,
        author: None,
    })
}

fn authored_end(alloc: Global, reader: &mut Reader<'_>) -> Result<Call, CallFail>
    ensures { AsksFor names.AuthoredEnd reader.old result }
{
    let id = id(reader)?;
    let duration = signed(reader)?;
    let exit = signed(reader)?;
    let author = text(reader)?;
    reader.end()?;
    Ok(Call::End {
        id,
        duration,
        exit,
        author: Some(Text::copied(alloc, author)?),
    })
}

fn delete(reader: &mut Reader<'_>) -> Result<Call, CallFail>
    ensures { AsksFor names.Delete reader.old result }
{
    let id = id(reader)?;
    reader.end()?;
    Ok(Call::Delete { id })
}

fn search_call(alloc: Global, reader: &mut Reader<'_>) -> Result<Call, CallFail>
    ensures { AsksFor names.Search reader.old result }
{
    let mode = number(reader, 0, 1)?;
    let filter = number(reader, 0, 3)?;
    let filter_text = text(reader)?;
    let query_text = text(reader)?;
    let unique = number(reader, 0, 1)?;
    let offset = number(reader, 0, u32::MAX)?;
    let limit = number(reader, 1, MOST_LISTED)?;
    reader.end()?;
    Ok(Call::Search(Query {
        mode: mode_numbered(mode),
        filter: filter_numbered(alloc, filter, filter_text)?,
        text: Text::copied(alloc, query_text)?,
        unique: is_yes(unique),
        offset,
        limit,
    }))
}

fn kv_set(alloc: Global, reader: &mut Reader<'_>) -> Result<Call, CallFail>
    ensures { AsksFor names.KvSet reader.old result }
{
    let namespace = text(reader)?;
    let key = text(reader)?;
    let value = text(reader)?;
    reader.end()?;
    Ok(Call::KvSet {
        namespace: Text::copied(alloc, namespace)?,
        key: Text::copied(alloc, key)?,
        value: Text::copied(alloc, value)?,
    })
}

fn kv_get(alloc: Global, reader: &mut Reader<'_>) -> Result<Call, CallFail>
    ensures { AsksFor names.KvGet reader.old result }
{
    let namespace = text(reader)?;
    let key = text(reader)?;
    reader.end()?;
    Ok(Call::KvGet {
        namespace: Text::copied(alloc, namespace)?,
        key: Text::copied(alloc, key)?,
    })
}

fn kv_delete(alloc: Global, reader: &mut Reader<'_>) -> Result<Call, CallFail>
    ensures { AsksFor names.KvDelete reader.old result }
{
    let namespace = text(reader)?;
    let key = text(reader)?;
    reader.end()?;
    Ok(Call::KvDelete {
        namespace: Text::copied(alloc, namespace)?,
        key: Text::copied(alloc, key)?,
    })
}

fn kv_list(alloc: Global, reader: &mut Reader<'_>) -> Result<Call, CallFail>
    ensures { AsksFor names.KvList reader.old result }
{
    let namespace = text(reader)?;
    let after = text(reader)?;
    let limit = number(reader, 1, MOST_LISTED)?;
    reader.end()?;
    Ok(Call::KvList {
        namespace: Text::copied(alloc, namespace)?,
        after: Text::copied(alloc, after)?,
        limit,
    })
}

fn alias_set(alloc: Global, reader: &mut Reader<'_>) -> Result<Call, CallFail>
    ensures { AsksFor names.AliasSet reader.old result }
{
    let name = text(reader)?;
    let value = text(reader)?;
    reader.end()?;
    Ok(Call::AliasSet {
        name: Text::copied(alloc, name)?,
        value: Text::copied(alloc, value)?,
    })
}

fn alias_delete(alloc: Global, reader: &mut Reader<'_>) -> Result<Call, CallFail>
    ensures { AsksFor names.AliasDelete reader.old result }
{
    let name = text(reader)?;
    reader.end()?;
    Ok(Call::AliasDelete {
        name: Text::copied(alloc, name)?,
    })
}

fn alias_list(alloc: Global, reader: &mut Reader<'_>) -> Result<Call, CallFail>
    ensures { AsksFor names.AliasList reader.old result }
{
    let after = text(reader)?;
    let limit = number(reader, 1, MOST_LISTED)?;
    reader.end()?;
    Ok(Call::AliasList {
        after: Text::copied(alloc, after)?,
        limit,
    })
}

fn status(reader: &mut Reader<'_>) -> Result<Call, CallFail>
    ensures { AsksFor names.Status reader.old result }
{
    reader.end()?;
    Ok(Call::Status)
}

/// How a search compares, by the number that stands for it: 0 or 1.
fn mode_numbered(number: u32) -> Mode
    ensures { mode_seen result ≡ mode_of number }
{
    match number {
        0 => Mode::Prefix,
        _ => Mode::Substring,
    }
}

/// The filter of a search by its number, 0 to 3, and the text that stands beside it, which a search of all doesn't
/// need.
fn filter_numbered(alloc: Global, number: u32, text: &[u8]) -> Result<Filter, NoMemory>
    requires utf8 { IsUtf8 text.now }
    requires short { length text.now < 2 ^ 32 }
    ensures { IfOk result (λ filter. scope_seen filter ≡ scope_of number text.now) }
{
    match number {
        0 => Ok(Filter::Global),
        1 => Ok(Filter::Host(Text::copied(alloc, text)?)),
        2 => Ok(Filter::Session(Text::copied(alloc, text)?)),
        _ => Ok(Filter::Directory(Text::copied(alloc, text)?)),
    }
}

/// Whether a number that is 0 or 1 says yes.
fn is_yes(number: u32) -> bool
    ensures { result ≡ unique_of number }
{
    number != 0
}
