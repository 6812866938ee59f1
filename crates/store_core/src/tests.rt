ghost use Rattle.std.specs.Prelude.{◌≡◌, ◌∷◌, [], List, None, length, All, IfOk};
ghost use Rattle.record_rules.specs.Examples.{started_ls};
ghost use Rattle.record_rules.specs.Journal.{EventFits};
ghost use Rattle.record_rules.specs.Records.{Entry};
ghost use Rattle.record_rules.specs.Records as said;
ghost use Rattle.record_model.specs.Seen.{events_seen};
ghost use Rattle.store_core.specs.Store.{IsStoreOf};

use super::*;
use at_edge::{DiskFault, MemDisk};
use plain_types::Text;
use record_model::{Caller, Event, Started};
use std::alloc::Global;
use std::process::Abort;
use std::test::Fail;

pub(crate) const CALLER: Caller = Caller {
    number: 1,
    call: 1,
    settled_for: 0,
};

/// A new store of host 1, on a disk whose calls of these numbers fail. It has no key.
pub(crate) fn new_store<R: Abort>(
    rt: &R,
    alloc: Global,
    failing: Vec<u64>,
) -> Result<Store<MemDisk>, Fail>
    ensures made { IfOk result (λ s. IsStoreOf s [] []) }
    ensures host { IfOk result (λ s. s.log.host ≡ 1) }
    ensures settled { IfOk result (λ s. s.doubt ≡ None) }
{
    let disk = MemDisk::new(alloc, Vec::new(alloc), failing)?;
    match Store::create(alloc, disk, 1, None) {
        Ok(store) => Ok(store),
        Err(_) => panic!(rt; "no store was made"),
    }
}

/// The batch in which `ls` is begun.
fn ls(alloc: Global) -> Result<Vec<Event>, Fail>
    ensures one { IfOk result (λ es. length es.items ≡ 1) }
    ensures fit { IfOk result (λ es. All EventFits (events_seen es.items)) }
    ensures says { IfOk result (λ es. events_seen es.items ≡ said.Started (started_ls 7) ∷ []) }
{
    let mut events = Vec::new(alloc);
    events.push(Event::Started(Started {
        id: 7,
        timestamp: 0,
        command: Text::copied(alloc, b"ls")?,
        cwd: Text::copied(alloc, b"/")?,
        session: Text::copied(alloc, b"s1")?,
        hostname: Text::copied(alloc, b"h:u")?,
    }))?;
    Ok(events)
}

/// Commits that batch to a store of no entries.
pub(crate) fn commit_ls(
    store: &mut Store<MemDisk>,
    alloc: Global,
) -> Result<Result<(), DiskFault>, Fail>
    requires new { IsStoreOf store.old [] [] }
    requires host { store.old.log.host ≡ 1 }
    requires settled { store.old.doubt ≡ None }
    ensures { IfOk result (λ _. (journal : List Entry) × (doubt : List Entry) × IsStoreOf store.new journal doubt) }
{
    let events = ls(alloc)?;
    let (batch, bytes) = store.ready(alloc, CALLER, events)?;
    Ok(store.commit(batch, bytes))
}

#[test]
fn a_batch_shows_once_it_is_committed(rt: HostRuntime) -> Result<(), Fail> {
    let alloc = rt.alloc();
    let mut store = new_store(&rt, alloc, Vec::new(alloc))?;
    assert!(rt; store.front() == 0);
    assert!(rt; store.host() == 1);
    assert!(rt; !store.has_key());
    assert!(rt; commit_ls(&mut store, alloc)?.is_ok());
    assert!(rt; store.front() == 1);
    assert!(rt; !store.in_doubt());
    assert!(rt; store.count(0, 1, b"history") == 0);
    Ok(())
}

#[test]
fn a_batch_in_doubt_shows_once_it_is_settled(rt: HostRuntime) -> Result<(), Fail> {
    let alloc = rt.alloc();
    // Calls 1 to 3 make the log, 4 to 7 are a commit. The sync behind its gate fails, and that of the first settling.
    let mut store = new_store(&rt, alloc, vec![in alloc; 7, 9]?)?;
    assert!(rt; commit_ls(&mut store, alloc)?.is_err());
    assert!(rt; store.in_doubt());
    assert!(rt; store.front() == 0);
    assert!(rt; store.settle().is_err());
    assert!(rt; store.in_doubt());
    assert!(rt; store.front() == 0);
    assert!(rt; store.settle().is_ok());
    assert!(rt; !store.in_doubt());
    assert!(rt; store.front() == 1);
    Ok(())
}
