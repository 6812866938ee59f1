ghost use Rattle.std.specs.Prelude.{◌≡◌, ◌≢◌, ◌∷◌, [], List, None, IfOk};
ghost use Rattle.payload_rules.specs.Payloads.{KvSet};
ghost use Rattle.payload_forms.specs.Seen.{payload_seen};
ghost use Rattle.record_rules.specs.Records.{Entry};
ghost use Rattle.store_core.specs.Store.{IsStoreOf};

use super::*;
use at_edge::{ListEntropy, MemDisk};
use payload_forms::Payload;
use plain_types::Text;
use record_model::{Answer, Caller, Refusal};
use std::alloc::Global;
use std::process::Abort;
use std::test::Fail;

const CALLER: Caller = Caller {
    number: 1,
    call: 1,
    settled_for: 0,
};

/// A new store of host 1 with a key, on a disk whose calls of these numbers fail.
fn keyed_store<R: Abort>(rt: &R, alloc: Global, failing: Vec<u64>) -> Result<Store<MemDisk>, Fail>
    ensures made { IfOk result (λ s. IsStoreOf s [] []) }
    ensures settled { IfOk result (λ s. s.doubt ≡ None) }
    ensures key { IfOk result (λ s. s.key ≢ None) }
{
    let disk = MemDisk::new(alloc, Vec::new(alloc), failing)?;
    match Store::create(alloc, disk, 1, Some([7; 32])) {
        Ok(store) => Ok(store),
        Err(_) => panic!(rt; "no store was made"),
    }
}

/// The key `k` of `n` has the value `v`.
fn value(alloc: Global) -> Result<Payload, Fail>
    ensures { IfOk result (λ p. payload_seen p ≡ KvSet (110 ∷ []) (107 ∷ []) (118 ∷ [])) }
{
    Ok(Payload::KvSet {
        namespace: Text::copied(alloc, b"n")?,
        key: Text::copied(alloc, b"k")?,
        value: Text::copied(alloc, b"v")?,
    })
}

/// Records that at time 0, in a store that isn't in doubt.
fn set_value(
    store: &mut Store<MemDisk>,
    alloc: Global,
    rand: &mut ListEntropy,
) -> Result<Result<Answer, Refusal>, Fail>
    requires means { (journal : List Entry) × (doubt : List Entry) × IsStoreOf store.old journal doubt }
    requires settled { store.old.doubt ≡ None }
    requires keyed { store.old.key ≢ None }
    ensures means { IfOk result (λ _. (journal : List Entry) × (doubt : List Entry) × IsStoreOf store.new journal doubt) }
    ensures key { store.new.key ≡ store.old.key }
{
    let payload = value(alloc)?;
    Ok(store.record(alloc, CALLER, None, payload, 0, rand))
}

/// An answer as a number: the idx of a record, and 100 and more for a refusal.
fn number_of(told: &Result<Answer, Refusal>) -> u64 {
    match told {
        Ok(Answer::Stored { idx }) => *idx,
        Ok(_) => 100,
        Err(Refusal::RandFault) => 101,
        Err(Refusal::IdTaken { .. }) => 102,
        Err(Refusal::DiskFault) => 103,
        Err(_) => 104,
    }
}

/// What a new store answers, its front then, and whether it is in doubt, where these calls of its disk and these draws
/// fail.
fn record_once<R: Abort>(
    rt: &R,
    alloc: Global,
    failing: Vec<u64>,
    undrawn: Vec<u64>,
) -> Result<(u64, u64, bool), Fail> {
    let mut store = keyed_store(rt, alloc, failing)?;
    let mut rand = ListEntropy::new(Vec::new(alloc), undrawn);
    let told = set_value(&mut store, alloc, &mut rand)?;
    Ok((number_of(&told), store.front(), store.in_doubt()))
}

#[test]
fn a_record_is_told_once_it_is_committed(rt: HostRuntime) -> Result<(), Fail> {
    let alloc = rt.alloc();
    let told = record_once(&rt, alloc, Vec::new(alloc), Vec::new(alloc))?;
    assert_eq!(rt; told, (0, 1, false));
    let undrawn = record_once(&rt, alloc, Vec::new(alloc), vec![in alloc; 1]?)?;
    assert_eq!(rt; undrawn, (101, 0, false));
    // Calls 1 to 3 make the log, 4 to 7 are a commit. The sync behind its gate fails.
    let doubted = record_once(&rt, alloc, vec![in alloc; 7]?, Vec::new(alloc))?;
    assert_eq!(rt; doubted, (103, 0, true));
    Ok(())
}
