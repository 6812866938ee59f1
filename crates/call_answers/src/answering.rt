//! What each reading call is answered.

ghost use Rattle.std.specs.Prelude.{◌≡◌, ◌≤◌, ◌<◌, ◌^◌, List, true, length, IfOk};
ghost use Rattle.std.specs.List.{filter};
ghost use Rattle.record_rules.specs.Records.{Entry};
ghost use Rattle.view_rules.specs.Answers.{in_scope};
ghost use Rattle.step_rules.specs.Calls.{is_read, CallFits, search_call, kv_get_call, kv_list_call, alias_list_call, status_call};
ghost use Rattle.step_rules.specs.Store.{KeyedStore};
ghost use Rattle.step_rules.specs.Step.{Shows};
ghost use Rattle.model_words.specs.Seen.{query_seen, call_seen, answer_seen};
ghost use Rattle.history_view.specs.Buckets.{scope_seen};
ghost use Rattle.history_view.specs.Walk.{newest_of};
ghost use Rattle.call_drafts.specs.Drafting.{IsKeptOf, KeepsHistory, KeepsPairs, KeepsAliases};
ghost use Rattle.chain_index.specs.Meaning.{Filed, journal_of, IsIndexOf};

use crate::hits::copies;
use alias_view::AliasView;
use call_drafts::Kept;
use chain_index::ChainIndex;
use history_view::HistoryView;
use kv_view::KvView;
use plain_types::{NoMemory, Text};
use record_model::{Answer, Call, Histories, Query};
use search_query::search;
use std::alloc::Global;

/// The hits of the query, whose limit is at least 1.
fn hits(alloc: Global, history: &HistoryView, query: &Query) -> Result<Answer, NoMemory>
    requires { 1 ≤ query.now.limit }
    ensures { IfOk result (λ answer. (store : KeyedStore) (journal : List Entry) → KeepsHistory history.now store journal → Shows store journal (search_call (query_seen query.now)) (answer_seen answer)) }
{
    // No more tests are made than commands pass the filter, and those can be counted.
    let _most = history.bucket_len(&query.filter);
    let mut steps = 0;
    let shown = search(alloc, history, query, &mut steps)?;
    Ok(Answer::Hits(Histories::from_vec(copies(alloc, shown.as_slice())?)))
}

/// The value of the key, if it has one.
fn value(alloc: Global, pairs: &KvView, namespace: &Text, key: &Text) -> Result<Answer, NoMemory>
    ensures { IfOk result (λ answer. (store : KeyedStore) (journal : List Entry) → KeepsPairs pairs.now store journal → Shows store journal (kv_get_call namespace.now key.now) (answer_seen answer)) }
{
    match pairs.get(namespace.as_bytes(), key.as_bytes()) {
        Some(value) => Ok(Answer::Value(Some(value.copy(alloc)?))),
        None => Ok(Answer::Value(None)),
    }
}

/// The keys of the namespace behind `after`, at most `limit`, which is at least 1.
fn keys(
    alloc: Global,
    pairs: &KvView,
    namespace: &Text,
    after: &Text,
    limit: u32,
) -> Result<Answer, NoMemory>
    requires { 1 ≤ limit }
    ensures { IfOk result (λ answer. (store : KeyedStore) (journal : List Entry) → KeepsPairs pairs.now store journal → Shows store journal (kv_list_call namespace.now after.now limit) (answer_seen answer)) }
{
    let names = pairs.names(alloc, namespace.as_bytes(), after.as_bytes(), limit)?;
    Ok(Answer::Names(names))
}

/// The aliases behind `after`, at most `limit`, which is at least 1.
fn named(alloc: Global, aliases: &AliasView, after: &Text, limit: u32) -> Result<Answer, NoMemory>
    requires { 1 ≤ limit }
    ensures { IfOk result (λ answer. (store : KeyedStore) (journal : List Entry) → KeepsAliases aliases.now store journal → Shows store journal (alias_list_call after.now limit) (answer_seen answer)) }
{
    let listed = aliases.list(alloc, after.as_bytes(), limit)?;
    Ok(Answer::Aliases(listed))
}

/// The chains of owner 0, which is the store's own.
fn places(alloc: Global, index: &ChainIndex) -> Result<Answer, NoMemory>
    ensures { IfOk result (λ answer. (store : KeyedStore) (filed : List Filed) → IsIndexOf index.now filed → Shows store (journal_of filed) status_call (answer_seen answer)) }
{
    Ok(Answer::Places(index.status(alloc, 0)?))
}

/// What the reading call is answered: the hits of a Search, the value of a KvGet, the keys of a KvList, the names and
/// values of an AliasList, and the chains of a Status, those of owner 0. A limit is at least 1.
///
/// # Errors
///
/// [`NoMemory`].
pub fn answer(
    alloc: Global,
    kept: &Kept,
    index: &ChainIndex,
    call: &Call,
) -> Result<Answer, NoMemory>
    requires read { is_read (call_seen call.now) ≡ true }
    requires fits { CallFits (call_seen call.now) }
    ensures { IfOk result (λ answer. (store : KeyedStore) (filed : List Filed) → IsKeptOf kept.now store (journal_of filed) → IsIndexOf index.now filed → Shows store (journal_of filed) (call_seen call.now) (answer_seen answer)) }
{
    match call {
        Call::Search(query) => hits(alloc, &kept.history, query),
        Call::KvGet { namespace, key } => value(alloc, &kept.pairs, namespace, key),
        Call::KvList {
            namespace,
            after,
            limit,
        } => keys(alloc, &kept.pairs, namespace, after, *limit),
        Call::AliasList { after, limit } => named(alloc, &kept.aliases, after, *limit),
        Call::Status => places(alloc, index),
        _ => unreachable!(),
    }
}
