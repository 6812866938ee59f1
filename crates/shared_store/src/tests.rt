//! Passes of one store over a disk in memory.
ghost use Rattle.std.specs.Prelude.{◌≡◌, true, IfOk};
ghost use Rattle.model_words.specs.Seen.{call_seen};
ghost use Rattle.step_rules.specs.Calls.{CallFits};
ghost use Rattle.book_lock.specs.LockPasses.{IsIdleAt};
ghost use Rattle.shared_store.specs.Books.{IsOfNobody, fixed_of, has_key};

use super::*;
use at_edge::{FixedClock, MemDisk, SureEntropy};
use page_growth::PageRefusal;
use plain_types::{NoMemory, Text};
use record_model::{Call, Record};
use std::alloc::Global;
use std::process::Abort;
use std::sync::Wait;
use std::test::Fail;
use store_core::{Store, TakeFail};

/// A new store of host 1 with a key.
fn new_store<R: Abort>(rt: &R, alloc: Global) -> Result<Store<MemDisk>, Fail>
    ensures nobody { IfOk result (λ s. IsOfNobody s) }
    ensures key { IfOk result (λ s. has_key (fixed_of s) ≡ true) }
{
    let disk = MemDisk::new(alloc, Vec::new(alloc), Vec::new(alloc))?;
    match Store::create(alloc, disk, 1, Some([7; 32])) {
        Ok(store) => Ok(store),
        Err(_) => panic!(rt; "no store was made"),
    }
}

/// That store, shared, with its first pass.
fn shared<R: Abort>(rt: &R, alloc: Global) -> Result<(SharedStore<MemDisk>, Pass<MemDisk>), Fail>
    ensures idle { IfOk result (λ r. IsIdleAt r.0 r.1) }
    ensures key { IfOk result (λ r. has_key r.1.pass.fixed ≡ true) }
{
    match SharedStore::new(alloc, new_store(rt, alloc)?) {
        Ok(shared) => Ok(shared),
        Err(_) => panic!(rt; "the store was not shared"),
    }
}

/// The start of `ls`.
fn start(alloc: Global) -> Result<Call, Fail>
    ensures { IfOk result (λ call. CallFits (call_seen call)) }
{
    Ok(Call::Start {
        command: Text::copied(alloc, b"ls")?,
        cwd: Text::copied(alloc, b"/")?,
        session: Text::copied(alloc, b"s1")?,
        hostname: Text::copied(alloc, b"h:u")?,
    })
}

/// A record of host 2, which weighs 139 bytes.
fn record(alloc: Global, idx: u64, id: u128) -> Result<Record, NoMemory> {
    Ok(Record {
        id,
        idx,
        host: 2,
        host_name: Text::copied(alloc, b"")?,
        timestamp: 2,
        version: Text::copied(alloc, b"v0")?,
        tag: Text::copied(alloc, b"history")?,
        sealed: Text::copied(alloc, b"s")?,
        wrapped: Text::copied(alloc, b"w")?,
    })
}

/// A page of so many records of host 2 from this idx on, which have this id.
fn page(alloc: Global, start: u32, count: u32, id: u128) -> Result<Vec<Record>, Fail> {
    let mut page = Vec::new(alloc);
    for place in 0..count {
        page.push(record(alloc, u64::from(start) + u64::from(place), id)?)?;
    }
    Ok(page)
}

/// What two passes were answered one after the other: the front of the first one's start of a command, the front that the
/// second one then finds, whether it was told of the chains, and how many bytes the disk then has.
fn two_passes<R: Wait>(
    rt: &R,
    alloc: Global,
    store: SharedStore<MemDisk>,
    mut first: Pass<MemDisk>,
    call: &Call,
) -> (u64, u64, bool, usize)
    requires idle { IsIdleAt store first }
    requires key { has_key first.pass.fixed ≡ true }
    requires fits { CallFits (call_seen call.now) }
{
    let mut rand = SureEntropy::new(Vec::new(alloc));
    let mut clock = FixedClock { now: 5, step: 1 };
    let begun = store.ask(rt, alloc, &mut first, 1, call, &mut rand, &mut clock);
    let Ok(mut second) = store.split(rt, &mut first) else {
        let _ = store.close(rt, first);
        return (0, 0, false, 0);
    };
    let front = store.front(rt, &mut second);
    let told = store.status(rt, alloc, &mut second, 0).is_ok();
    store.join(&mut first, second);
    let disk = store.close(rt, first);
    (begun.front, front, told, disk.shows().len())
}

#[test]
fn two_passes_have_one_store(rt: HostRuntime) -> Result<(), Fail> {
    let alloc = rt.alloc();
    let call = start(alloc)?;
    let (store, first) = shared(&rt, alloc)?;
    let told = two_passes(&rt, alloc, store, first, &call);
    // A header of 32 bytes, a batch of 1 + 4 + 53 + 16 bytes, and the closed gate.
    assert!(rt; told == (1, 1, true, 107));
    Ok(())
}

/// What a pass is answered to the page for owner 5.
fn taken<R: Wait>(
    rt: &R,
    alloc: Global,
    store: &SharedStore<MemDisk>,
    pass: &mut Pass<MemDisk>,
    page: &[Record],
) -> Result<u32, TakeFail>
    requires { IsIdleAt store.now pass.old }
    ensures { IsIdleAt store.now pass.new }
{
    store.take_page(rt, alloc, pass, 1, 5, page)
}

/// What a pass is answered to each of five pages, one after the other, and the front then.
fn five_taken<R: Wait>(
    rt: &R,
    alloc: Global,
    store: SharedStore<MemDisk>,
    mut pass: Pass<MemDisk>,
    pages: [&[Record]; 5],
) -> ([Result<u32, TakeFail>; 5], u64)
    requires { IsIdleAt store pass }
{
    let answers = [
        taken(rt, alloc, &store, &mut pass, pages[0]),
        taken(rt, alloc, &store, &mut pass, pages[1]),
        taken(rt, alloc, &store, &mut pass, pages[2]),
        taken(rt, alloc, &store, &mut pass, pages[3]),
        taken(rt, alloc, &store, &mut pass, pages[4]),
    ];
    let front = store.front(rt, &mut pass);
    let _ = store.close(rt, pass);
    (answers, front)
}

#[test]
fn a_page_is_taken_once_or_refused(rt: HostRuntime) -> Result<(), Fail> {
    let alloc = rt.alloc();
    let whole = page(alloc, 0, 100, 70)?;
    let behind = page(alloc, 101, 1, 70)?;
    let forked = page(alloc, 99, 1, 71)?;
    let long = page(alloc, 0, 101, 70)?;
    let (store, pass) = shared(&rt, alloc)?;
    let (answers, front) = five_taken(
        &rt,
        alloc,
        store,
        pass,
        [&whole, &whole, &behind, &forked, &long],
    );
    let gap = PageRefusal::Gap {
        position: 0,
        wanted: 100,
    };
    let fork = PageRefusal::Forked {
        position: 0,
        held: 70,
    };
    let too_long = PageRefusal::TooLong {
        position: 100,
        length: 14_039,
    };
    assert!(rt; answers[0] == Ok(100) && answers[1] == Ok(0));
    assert!(rt; answers[2] == Err(TakeFail::Refused(gap)));
    assert!(rt; answers[3] == Err(TakeFail::Refused(fork)));
    assert!(rt; answers[4] == Err(TakeFail::Refused(too_long)));
    assert!(rt; front == 100);
    Ok(())
}
