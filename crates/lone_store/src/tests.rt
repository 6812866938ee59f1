ghost use Rattle.std.specs.Prelude.{◌≢◌, None, IfOk};

use super::*;
use at_edge::{FixedClock, MemDisk, SureEntropy};
use record_model::Call;
use session_seats::CallStore;
use std::alloc::Global;
use std::process::Abort;
use std::test::Fail;
use store_core::Store;
use told_store::ToldStore;

/// A new store of host 1 with a key, for one caller.
fn new_store<R: Abort>(rt: &R, alloc: Global) -> Result<LoneStore<MemDisk>, Fail>
    ensures { IfOk result (λ s. s.store.store.key ≢ None) }
{
    let disk = MemDisk::new(alloc, Vec::new(alloc), Vec::new(alloc))?;
    match Store::create(alloc, disk, 1, Some([7; 32])) {
        Ok(store) => Ok(LoneStore {
            alloc,
            store: ToldStore::of(store),
        }),
        Err(_) => panic!(rt; "no store was made"),
    }
}

#[test]
fn a_status_is_answered(rt: HostRuntime) -> Result<(), Fail> {
    let alloc = rt.alloc();
    let mut lone = new_store(&rt, alloc)?;
    let mut rand = SureEntropy::new(Vec::new(alloc));
    let mut clock = FixedClock { now: 5, step: 1 };
    assert!(rt; lone.front() == 0);
    let status = lone.ask(1, &Call::Status, &mut rand, &mut clock);
    assert!(rt; status.result.is_ok());
    assert!(rt; status.front == 0);
    assert!(rt; lone.store.into_store().front() == 0);
    Ok(())
}
