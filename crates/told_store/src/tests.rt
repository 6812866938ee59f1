ghost use Rattle.std.specs.Prelude.{◌≢◌, None, IfOk};
ghost use Rattle.model_words.specs.Seen.{call_seen};
ghost use Rattle.step_rules.specs.Calls.{CallFits};

use super::*;
use at_edge::{FixedClock, MemDisk, SureEntropy};
use record_model::{Answer, Call, Caller, Text};
use std::alloc::Global;
use std::process::Abort;
use std::test::Fail;
use store_core::Store;

const CALLER: Caller = Caller {
    number: 1,
    call: 1,
    settled_for: 0,
};

/// A new store of host 1 with a key.
fn new_store<R: Abort>(rt: &R, alloc: Global) -> Result<ToldStore<MemDisk>, Fail>
    ensures { IfOk result (λ s. s.store.key ≢ None) }
{
    let disk = MemDisk::new(alloc, Vec::new(alloc), Vec::new(alloc))?;
    match Store::create(alloc, disk, 1, Some([7; 32])) {
        Ok(store) => Ok(ToldStore::of(store)),
        Err(_) => panic!(rt; "no store was made"),
    }
}

/// The start of `ls`.
fn start(alloc: Global) -> Result<Call, Fail>
    ensures { IfOk result (λ call. CallFits (call_seen call)) }
{
    Ok(Call::Start {
        command: Text::copied(alloc, b"ls")?,
        cwd: Text::copied(alloc, b"/")?,
        session: Text::copied(alloc, b"s1")?,
        hostname: Text::copied(alloc, b"h:u")?,
    })
}

#[test]
fn a_call_is_told(rt: HostRuntime) -> Result<(), Fail> {
    let alloc = rt.alloc();
    let mut store = new_store(&rt, alloc)?;
    let mut rand = SureEntropy::new(Vec::new(alloc));
    let mut clock = FixedClock { now: 5, step: 1 };
    assert!(rt; store.front() == 0);
    let call = start(alloc)?;
    let begun = store.ask(alloc, CALLER, &call, &mut rand, &mut clock);
    assert!(rt; begun.result.is_ok());
    assert!(rt; begun.front == 1);
    let status = store.ask(alloc, CALLER, &Call::Status, &mut rand, &mut clock);
    assert!(rt; status.front == 1);
    assert!(rt; store.front() == 1);
    assert!(rt; store.entry_count() == 1);
    assert!(rt; store.into_store().front() == 1);
    Ok(())
}

#[test]
fn pages_and_status_are_told(rt: HostRuntime) -> Result<(), Fail> {
    let alloc = rt.alloc();
    let mut store = new_store(&rt, alloc)?;
    assert!(rt; store.take_page(alloc, CALLER, 1, &[]) == Ok(0));
    let Ok(records) = store.page(alloc, 1, 1, b"history", 0, 100) else {
        panic!(rt; "no page was read");
    };
    assert!(rt; records.is_empty());
    assert!(rt; store.status(alloc, 1).is_ok());
    assert!(rt; store.entry_count() == 0);
    Ok(())
}
