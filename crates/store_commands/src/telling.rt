//! The status of a store.

ghost use Rattle.std.specs.Prelude.{List, []};
ghost use Rattle.record_rules.specs.Records.{Entry};
ghost use Rattle.record_rules.specs.Journal.{status};
ghost use Rattle.printing.specs.Lines.{chain_lines};
ghost use Rattle.record_log.specs.Opening.{LeavesNoMore};
ghost use Rattle.store_core.specs.Store.{IsStoreOf};
ghost use Rattle.store_commands.specs.Ends.{Prints};
ghost use Rattle.store_commands.specs.Telling.{TellsStatus};

use crate::ends::{CommandFail, Told, print};
use at_edge::{Disk, Sink};
use plain_types::NoMemory;
use printing::chains_text;
use std::alloc::Global;
use store_core::Store;

/// The owner whose chains are told.
const OWNER: u32 = 0;

/// Prints the chains of the store.
fn print_chains<D: Disk, K: Sink>(
    alloc: Global,
    store: &Store<D>,
    sink: &mut K,
) -> Result<(), CommandFail>
    ensures { (journal : List Entry) → IsStoreOf store.now journal [] → Prints result (K.sink sink.old) (K.sink sink.new) (chain_lines (status journal 0)) }
{
    let chains = match store.status(alloc, OWNER) {
        Ok(chains) => chains,
        Err(NoMemory) => return Err(CommandFail::NoMemory),
    };
    let text = match chains_text(alloc, chains.as_slice()) {
        Ok(text) => text,
        Err(NoMemory) => return Err(CommandFail::NoMemory),
    };
    print(sink, text.as_slice())
}

/// Prints a line for each chain of owner 0 of the store that stands on the disk, in their order. No key is needed. The disk is
/// synced and read, and then holds the journal that it showed.
///
/// # Errors
///
/// [`CommandFail::Unopened`], with the cause for which no store was opened: then nothing was printed. [`CommandFail::SinkFault`],
/// where the sink's count of faults rose: a first part was printed. [`CommandFail::NoMemory`]: nothing was printed.
pub fn status<D: Disk, K: Sink>(alloc: Global, disk: D, sink: &mut K) -> Told<D>
    ensures tells { TellsStatus result.result (D.disk disk) (D.disk result.disk) (K.sink sink.old) (K.sink sink.new) }
    ensures crash { LeavesNoMore (D.disk disk).history (D.disk result.disk).history }
{
    let store = match Store::open_on(alloc, disk, None) {
        Ok(store) => store,
        Err((fail, disk)) => {
            return Told {
                result: Err(CommandFail::Unopened(fail)),
                disk,
            };
        }
    };
    Told {
        result: print_chains(alloc, &store, sink),
        disk: store.into_disk(),
    }
}
