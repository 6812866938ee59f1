ghost use Rattle.std.specs.Prelude.{◌≡◌, ◌++◌, ◌∷◌, List, [], IfOk, OnOk};
ghost use Rattle.record_rules.specs.Records as said;
ghost use Rattle.record_rules.specs.Examples.{kv_record, started_ls};
ghost use Rattle.record_model.specs.Seen.{caller_seen, event_seen, record_seen};
ghost use Rattle.chain_index.specs.Meaning.{Filed};
ghost use Rattle.store_tables.specs.Entries.{IsTableOf, MayFile, filed_by};

use super::*;
use plain_types::Text;
use record_log::Spot;
use record_model::{Caller, Event, Record, Started};
use std::alloc::Global;
use std::test::Fail;

const CALLER: Caller = Caller {
    number: 1,
    call: 1,
    settled_for: 0,
};

const SPOT: Spot = Spot {
    offset: 32,
    count: 90,
};

fn kv(alloc: Global, idx: u64, id: u128) -> Result<Record, Fail>
    ensures { IfOk result (λ r. record_seen r ≡ kv_record idx id) }
{
    Ok(Record {
        id,
        idx,
        host: 2,
        host_name: Text::copied(alloc, b"")?,
        timestamp: 0,
        version: Text::copied(alloc, b"v0")?,
        tag: Text::copied(alloc, b"kv")?,
        sealed: Text::copied(alloc, b"")?,
        wrapped: Text::copied(alloc, b"")?,
    })
}

fn ls(alloc: Global) -> Result<Event, Fail>
    ensures { IfOk result (λ e. event_seen e ≡ said.Started (started_ls 7)) }
{
    Ok(Event::Started(Started {
        id: 7,
        timestamp: 0,
        command: Text::copied(alloc, b"ls")?,
        cwd: Text::copied(alloc, b"/")?,
        session: Text::copied(alloc, b"s1")?,
        hostname: Text::copied(alloc, b"h:u")?,
    }))
}

/// Keeps the event at this place of the batch.
fn keep(table: &mut EntryTable, alloc: Global, event: Event, at: u32) -> Result<(), Fail>
    requires { MayFile table.old (event_seen event) }
    ensures { OnOk result ((filed : List Filed) → IsTableOf table.old filed → IsTableOf table.new (filed ++ filed_by (caller_seen CALLER) (event_seen event) SPOT at ∷ [])) }
{
    let events = [event];
    table.reserve(alloc, &events)?;
    table.add(CALLER, &events[0], SPOT, at);
    Ok(())
}

#[test]
fn entries_are_counted_and_found(rt: HostRuntime) -> Result<(), Fail> {
    let alloc = rt.alloc();
    let mut table = EntryTable::new(alloc);
    let rec = kv(alloc, 0, 1000)?;
    keep(&mut table, alloc, Event::Taken { owner: 5, rec }, 0)?;
    let rec = kv(alloc, 1, 1001)?;
    keep(&mut table, alloc, Event::Taken { owner: 5, rec }, 1)?;
    assert!(rt; table.len() == 2);
    assert!(rt;
        table.get(1)
            == Some(KeptEntry {
                caller: CALLER,
                spot: SPOT,
                at: 1
            })
    );
    assert!(rt; table.get(2) == None);
    assert!(rt; table.index().count(5, 2, b"kv") == 2);
    assert!(rt; table.index().count(0, 2, b"kv") == 0);
    assert!(rt; table.index().id_at(5, 2, b"kv", 1) == Some(1001));
    Ok(())
}

#[test]
fn a_batch_is_added_without_memory(rt: HostRuntime) -> Result<(), Fail> {
    let alloc = rt.alloc();
    let mut tables = Tables::new(alloc);
    let mut events = Vec::new(alloc);
    events.push(ls(alloc)?)?;
    let batch = tables.ready(alloc, &None, CALLER, events)?;
    assert!(rt; tables.entries.len() == 0);
    assert!(rt; !tables.kept.commands.is_known(7));
    tables.add(batch, SPOT);
    assert!(rt; tables.entries.len() == 1);
    assert!(rt; tables.kept.commands.is_known(7));
    Ok(())
}
