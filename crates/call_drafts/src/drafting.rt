//! What each writing call is to append.

ghost use Rattle.std.specs.Prelude.{◌≡◌, ℕ, List, false, IfOk, Some, None};
ghost use Rattle.std.specs.Option.{option_map};
ghost use Rattle.definitions.specs.Journal.{finished};
ghost use Rattle.record_rules.specs.Records.{Entry};
ghost use Rattle.payload_rules.specs.Payloads as rules;
ghost use Rattle.step_rules.specs.Calls.{is_read, end_call, delete_call, kv_delete_call, alias_delete_call};
ghost use Rattle.step_rules.specs.Store.{KeyedStore};
ghost use Rattle.step_rules.specs.Step.{start_draft, record_draft};
ghost use Rattle.record_model.specs.Seen.{started_seen, history_seen};
ghost use Rattle.model_words.specs.Seen.{call_seen};
ghost use Rattle.call_drafts.specs.Seen.{draft_seen};
ghost use Rattle.call_drafts.specs.Drafting.{DraftsOr, IsKeptOf, KeepsHistory, KeepsPairs, KeepsAliases};
ghost use Rattle.started_commands.specs.Kept.{IsOf};

use crate::drafts::Draft;
use crate::kept::Kept;
use alias_view::AliasView;
use history_view::HistoryView;
use kv_view::KvView;
use payload_forms::Payload;
use plain_types::{NoMemory, Text};
use record_model::{Call, History, Refusal, Started};
use started_commands::StartedCommands;
use std::alloc::Global;

/// A command that starts.
fn start(
    alloc: Global,
    command: &Text,
    cwd: &Text,
    session: &Text,
    hostname: &Text,
) -> Result<Draft, NoMemory>
    ensures { IfOk result (λ d. draft_seen d ≡ start_draft command.now cwd.now session.now hostname.now) }
{
    Ok(Draft::Start {
        command: command.copy(alloc)?,
        cwd: cwd.copy(alloc)?,
        session: session.copy(alloc)?,
        hostname: hostname.copy(alloc)?,
    })
}

/// An equal author, or none.
fn copy_author(alloc: Global, author: &Option<Text>) -> Result<Option<Text>, NoMemory>
    ensures { IfOk result (λ a. a ≡ author.now) }
{
    match author {
        Some(text) => Ok(Some(text.copy(alloc)?)),
        None => Ok(None),
    }
}

/// What is kept of a command that ends.
fn ended(
    alloc: Global,
    started: &Started,
    duration: i64,
    exit: i64,
    author: &Option<Text>,
) -> Result<History, NoMemory>
    ensures { IfOk result (λ h. history_seen h ≡ finished (started_seen started.now) duration exit author.now) }
{
    Ok(History {
        id: started.id,
        timestamp: started.timestamp,
        duration,
        exit,
        command: started.command.copy(alloc)?,
        cwd: started.cwd.copy(alloc)?,
        session: started.session.copy(alloc)?,
        hostname: started.hostname.copy(alloc)?,
        deleted_at: None,
        author: copy_author(alloc, author)?,
    })
}

/// The end of a command, which has to run.
fn end(
    alloc: Global,
    commands: &StartedCommands,
    id: u128,
    duration: i64,
    exit: i64,
    author: &Option<Text>,
) -> Result<Draft, Refusal>
    ensures { (store : KeyedStore) (journal : List Entry) → IsOf commands.now journal → DraftsOr store journal (end_call id duration exit author.now) result }
{
    match commands.get(id) {
        Some(started) => {
            let history = ended(alloc, started, duration, exit, author)?;
            Ok(Draft::Record {
                closes: Some(id),
                payload: Payload::HistoryCreate(history),
            })
        }
        None => Err(Refusal::UnknownId { id }),
    }
}

/// The deletion of a command, which has to be shown.
fn delete(history: &HistoryView, id: u128) -> Result<Draft, Refusal>
    ensures { (store : KeyedStore) (journal : List Entry) → KeepsHistory history.now store journal → DraftsOr store journal (delete_call id) result }
{
    match history.get(id) {
        Some(_) => Ok(Draft::Record {
            closes: None,
            payload: Payload::HistoryDelete(id),
        }),
        None => Err(Refusal::UnknownId { id }),
    }
}

/// A value for a key.
fn set_pair(alloc: Global, namespace: &Text, key: &Text, value: &Text) -> Result<Draft, NoMemory>
    ensures { IfOk result (λ d. draft_seen d ≡ record_draft None (rules.KvSet namespace.now key.now value.now)) }
{
    Ok(Draft::Record {
        closes: None,
        payload: Payload::KvSet {
            namespace: namespace.copy(alloc)?,
            key: key.copy(alloc)?,
            value: value.copy(alloc)?,
        },
    })
}

/// The deletion of a key, which has to have a value.
fn delete_pair(
    alloc: Global,
    pairs: &KvView,
    namespace: &Text,
    key: &Text,
) -> Result<Draft, Refusal>
    ensures { (store : KeyedStore) (journal : List Entry) → KeepsPairs pairs.now store journal → DraftsOr store journal (kv_delete_call namespace.now key.now) result }
{
    match pairs.get(namespace.as_bytes(), key.as_bytes()) {
        Some(_) => {
            let namespace = namespace.copy(alloc)?;
            let key = key.copy(alloc)?;
            Ok(Draft::Record {
                closes: None,
                payload: Payload::KvDelete { namespace, key },
            })
        }
        None => {
            let name = key.copy(alloc)?;
            Err(Refusal::UnknownName { name })
        }
    }
}

/// A value for an alias.
fn set_alias(alloc: Global, name: &Text, value: &Text) -> Result<Draft, NoMemory>
    ensures { IfOk result (λ d. draft_seen d ≡ record_draft None (rules.AliasSet name.now value.now)) }
{
    Ok(Draft::Record {
        closes: None,
        payload: Payload::AliasSet {
            name: name.copy(alloc)?,
            value: value.copy(alloc)?,
        },
    })
}

/// The deletion of an alias, which has to stand for a value.
fn delete_alias(alloc: Global, aliases: &AliasView, name: &Text) -> Result<Draft, Refusal>
    ensures { (store : KeyedStore) (journal : List Entry) → KeepsAliases aliases.now store journal → DraftsOr store journal (alias_delete_call name.now) result }
{
    match aliases.get(name.as_bytes()) {
        Some(_) => {
            let name = name.copy(alloc)?;
            Ok(Draft::Record {
                closes: None,
                payload: Payload::AliasDelete { name },
            })
        }
        None => {
            let name = name.copy(alloc)?;
            Err(Refusal::UnknownName { name })
        }
    }
}

/// What the writing call is to append.
///
/// # Errors
///
/// [`Refusal::UnknownId`] exactly where the id of an End isn't running, or that of a Delete isn't shown;
/// [`Refusal::UnknownName`] exactly where the key of a KvDelete or the name of an AliasDelete has no value;
/// [`Refusal::NoMemory`].
pub fn draft(alloc: Global, kept: &Kept, call: &Call) -> Result<Draft, Refusal>
    requires { is_read (call_seen call.now) ≡ false }
    ensures { (store : KeyedStore) (journal : List Entry) → IsKeptOf kept.now store journal → DraftsOr store journal (call_seen call.now) result }
{
    match call {
        Call::Start {
            command,
            cwd,
            session,
            hostname,
        } => Ok(start(alloc, command, cwd, session, hostname)?),
        Call::End {
            id,
            duration,
            exit,
            author,
        } => end(alloc, &kept.commands, *id, *duration, *exit, author),
        Call::Delete { id } => delete(&kept.history, *id),
        Call::KvSet {
            namespace,
            key,
            value,
        } => Ok(set_pair(alloc, namespace, key, value)?),
        Call::KvDelete { namespace, key } => delete_pair(alloc, &kept.pairs, namespace, key),
        Call::AliasSet { name, value } => Ok(set_alias(alloc, name, value)?),
        Call::AliasDelete { name } => delete_alias(alloc, &kept.aliases, name),
        _ => unreachable!(),
    }
}
