ghost use Rattle.std.specs.Prelude.{◌≡◌, true, IfOk};
ghost use Rattle.model_words.specs.Seen.{call_seen};
ghost use Rattle.step_rules.specs.Calls.{is_read, CallFits};

use super::*;
use alias_view::AliasView;
use call_drafts::Kept;
use chain_index::ChainIndex;
use history_view::HistoryView;
use kv_view::KvView;
use plain_types::{NoMemory, Text};
use record_model::{Answer, Call, Filter, History, Mode, Query};
use started_commands::StartedCommands;
use std::alloc::Global;
use std::test::Fail;

fn nothing_kept(alloc: Global) -> Kept {
    Kept {
        commands: StartedCommands::new(alloc),
        history: HistoryView::new(alloc),
        pairs: KvView::new(alloc),
        aliases: AliasView::new(alloc),
    }
}

/// A key with a value, a name with another, and a command that ended.
fn three_kept(alloc: Global) -> Result<Kept, NoMemory> {
    let mut kept = nothing_kept(alloc);
    let key = Text::copied(alloc, b"k")?;
    let value = Text::copied(alloc, b"value")?;
    let room = kept.pairs.reserve_set(alloc, &key, &key, &value)?;
    kept.pairs.add(1, 0, 5, room);
    let room = kept.aliases.reserve_set(alloc, &value, &key)?;
    kept.aliases.add(1, 0, 5, room);
    let room = kept.history.reserve_creation(alloc, &ls(alloc)?)?;
    kept.history.add(1, 0, room);
    Ok(kept)
}

fn ls(alloc: Global) -> Result<History, NoMemory> {
    Ok(History {
        id: 7,
        timestamp: 11,
        duration: 12,
        exit: 13,
        command: Text::copied(alloc, b"ls")?,
        cwd: Text::copied(alloc, b"/")?,
        session: Text::copied(alloc, b"s1")?,
        hostname: Text::copied(alloc, b"h:u")?,
        deleted_at: None,
        author: Some(Text::copied(alloc, b"me")?),
    })
}

/// The length of the value that was answered, or 0.
fn value_len(answered: &Result<Answer, NoMemory>) -> usize {
    match answered {
        Ok(Answer::Value(Some(value))) => value.len(),
        _ => 0,
    }
}

/// How many hits, keys, aliases or chains were answered.
fn count(answered: &Result<Answer, NoMemory>) -> usize {
    match answered {
        Ok(Answer::Hits(hits)) => hits.len(),
        Ok(Answer::Names(names)) => names.len(),
        Ok(Answer::Aliases(named)) => named.len(),
        Ok(Answer::Places(chains)) => chains.len(),
        _ => 0,
    }
}

/// The time of the first hit, or 0.
fn first_time(answered: &Result<Answer, NoMemory>) -> u64 {
    let Ok(Answer::Hits(hits)) = answered else {
        return 0;
    };
    match hits.as_slice().first() {
        Some(h) => h.timestamp,
        None => 0,
    }
}

/// A KvGet of this key in the namespace `k`.
fn get(alloc: Global) -> Result<Call, NoMemory>
    ensures read { IfOk result (λ call. is_read (call_seen call) ≡ true) }
    ensures fits { IfOk result (λ call. CallFits (call_seen call)) }
{
    Ok(Call::KvGet {
        namespace: Text::copied(alloc, b"k")?,
        key: Text::copied(alloc, b"k")?,
    })
}

/// A KvList of the namespace `k`.
fn list_keys(alloc: Global) -> Result<Call, NoMemory>
    ensures read { IfOk result (λ call. is_read (call_seen call) ≡ true) }
    ensures fits { IfOk result (λ call. CallFits (call_seen call)) }
{
    Ok(Call::KvList {
        namespace: Text::copied(alloc, b"k")?,
        after: Text::new(alloc),
        limit: 10,
    })
}

/// A search for all commands.
fn search_all(alloc: Global) -> Call
    ensures read { is_read (call_seen result) ≡ true }
    ensures fits { CallFits (call_seen result) }
{
    Call::Search(Query {
        mode: Mode::Prefix,
        filter: Filter::Global,
        text: Text::new(alloc),
        unique: false,
        offset: 0,
        limit: 10,
    })
}

/// An AliasList of all names.
fn list_aliases(alloc: Global) -> Call
    ensures read { is_read (call_seen result) ≡ true }
    ensures fits { CallFits (call_seen result) }
{
    Call::AliasList {
        after: Text::new(alloc),
        limit: 10,
    }
}

#[test]
fn a_value_is_shown(rt: HostRuntime) -> Result<(), Fail> {
    let alloc = rt.alloc();
    let index = ChainIndex::new(alloc);
    let call = get(alloc)?;
    let shown = answer(alloc, &three_kept(alloc)?, &index, &call);
    assert!(rt; value_len(&shown) == 5);
    let none = answer(alloc, &nothing_kept(alloc), &index, &call);
    assert!(rt; none.is_ok());
    assert!(rt; value_len(&none) == 0);
    Ok(())
}

#[test]
fn lists_are_shown(rt: HostRuntime) -> Result<(), Fail> {
    let alloc = rt.alloc();
    let index = ChainIndex::new(alloc);
    let kept = three_kept(alloc)?;
    let keys = answer(alloc, &kept, &index, &list_keys(alloc)?);
    assert!(rt; count(&keys) == 1);
    let aliases = answer(alloc, &kept, &index, &list_aliases(alloc));
    assert!(rt; count(&aliases) == 1);
    Ok(())
}

#[test]
fn a_hit_is_shown(rt: HostRuntime) -> Result<(), Fail> {
    let alloc = rt.alloc();
    let index = ChainIndex::new(alloc);
    let hits = answer(alloc, &three_kept(alloc)?, &index, &search_all(alloc));
    assert!(rt; count(&hits) == 1);
    assert!(rt; first_time(&hits) == 11);
    Ok(())
}

#[test]
fn an_empty_index_has_no_chains(rt: HostRuntime) -> Result<(), Fail> {
    let alloc = rt.alloc();
    let index = ChainIndex::new(alloc);
    let chains = answer(alloc, &nothing_kept(alloc), &index, &Call::Status);
    assert!(rt; chains.is_ok());
    assert!(rt; count(&chains) == 0);
    Ok(())
}
