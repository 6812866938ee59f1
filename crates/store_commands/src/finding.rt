//! A search of a store.

ghost use Rattle.std.specs.Prelude.{◌≡◌, ℕ, List, [], Some};
ghost use Rattle.record_rules.specs.Records.{Entry};
ghost use Rattle.model_words.specs.Seen.{query_seen};
ghost use Rattle.step_rules.specs.Calls.{CallFits, search_call};
ghost use Rattle.record_log.specs.Opening.{LeavesNoMore};
ghost use Rattle.store_core.specs.Store.{IsStoreOf};
ghost use Rattle.store_commands.specs.Finding.{hits_in, PrintsFound, FindsHits};

use crate::ends::{CommandFail, Told, print};
use at_edge::{Disk, Sink};
use key_text::read_key_text;
use plain_types::NoMemory;
use printing::hits_text;
use record_model::{Answer, Call, Histories, Query};
use std::alloc::Global;
use store_core::Store;

/// The hits, where the answer is that of a search.
fn hits_in(answer: Answer) -> Option<Histories>
    ensures { result ≡ hits_in answer }
{
    match answer {
        Answer::Hits(hits) => Some(hits),
        _ => None,
    }
}

/// Prints what the query finds in the store, which has a key.
fn print_hits<D: Disk, K: Sink>(
    alloc: Global,
    store: &Store<D>,
    query: Query,
    sink: &mut K,
) -> Result<(), CommandFail>
    requires fits { CallFits (search_call (query_seen query)) }
    requires means { (key : List ℕ) × ((journal : List Entry) × (store.now.key ≡ Some key) × IsStoreOf store.now journal []) }
    ensures { (key : List ℕ) (journal : List Entry) → store.now.key ≡ Some key → IsStoreOf store.now journal [] → PrintsFound result store.now.log.host key journal (query_seen query) (K.sink sink.old) (K.sink sink.new) }
{
    let shown = match store.answer(alloc, &Call::Search(query)) {
        Ok(shown) => shown,
        Err(NoMemory) => return Err(CommandFail::NoMemory),
    };
    let hits = match hits_in(shown) {
        Some(hits) => hits,
        None => unreachable!(),
    };
    let text = match hits_text(alloc, hits.as_slice()) {
        Ok(text) => text,
        Err(NoMemory) => return Err(CommandFail::NoMemory),
    };
    print(sink, text.as_slice())
}

/// Prints a line for each ended command that the query finds, in the order of a search, by the store that stands on the disk
/// and this text of its key. The disk is synced and read, and then holds the journal that it showed.
///
/// # Errors
///
/// [`CommandFail::FaultyKeyText`] exactly where the text tells no key, before anything is asked of the disk;
/// [`CommandFail::Unopened`], with the cause for which no store was opened. Nothing was printed then.
/// [`CommandFail::SinkFault`], where the sink's count of faults rose: a first part was printed. [`CommandFail::NoMemory`]:
/// nothing was printed.
pub fn search<D: Disk, K: Sink>(
    alloc: Global,
    key_text: &[u8],
    query: Query,
    disk: D,
    sink: &mut K,
) -> Told<D>
    requires fits { CallFits (search_call (query_seen query)) }
    ensures finds { FindsHits result.result key_text.now (query_seen query) (D.disk disk) (D.disk result.disk) (K.sink sink.old) (K.sink sink.new) }
    ensures crash { LeavesNoMore (D.disk disk).history (D.disk result.disk).history }
{
    let Some(key) = read_key_text(key_text) else {
        return Told {
            result: Err(CommandFail::FaultyKeyText),
            disk,
        };
    };
    let store = match Store::open_on(alloc, disk, Some(key)) {
        Ok(store) => store,
        Err((fail, disk)) => {
            return Told {
                result: Err(CommandFail::Unopened(fail)),
                disk,
            };
        }
    };
    Told {
        result: print_hits(alloc, &store, query, sink),
        disk: store.into_disk(),
    }
}
