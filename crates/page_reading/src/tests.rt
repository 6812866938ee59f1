ghost use Rattle.std.specs.Prelude.{◌≡◌, List, None, IfOk, OnOk, All, length};
ghost use Rattle.record_rules.specs.Journal.{EventFits};
ghost use Rattle.record_model.specs.Seen.{events_seen};
ghost use Rattle.chain_index.specs.Meaning.{Filed, IsIndexOf};

use super::*;
use at_edge::MemDisk;
use chain_index::ChainIndex;
use plain_types::{NoMemory, Text};
use record_log::{ReadFail, RecordLog};
use record_model::{Event, Record};
use std::alloc::Global;
use std::process::Abort;
use std::test::Fail;

fn record(alloc: Global, idx: u64) -> Result<Record, NoMemory> {
    Ok(Record {
        id: 70,
        idx,
        host: 2,
        host_name: Text::copied(alloc, b"")?,
        timestamp: 2,
        version: Text::copied(alloc, b"v0")?,
        tag: Text::copied(alloc, b"history")?,
        sealed: Text::copied(alloc, b"s")?,
        wrapped: Text::copied(alloc, b"w")?,
    })
}

/// The batch of that record alone, taken in for owner 5.
fn batch_of(alloc: Global, idx: u64) -> Result<Vec<Event>, NoMemory>
    ensures one { IfOk result (λ batch. length batch.items ≡ 1) }
    ensures fit { IfOk result (λ batch. All EventFits (events_seen batch.items)) }
{
    let rec = Record {
        id: 70,
        idx,
        host: 2,
        host_name: Text::copied(alloc, b"")?,
        timestamp: 2,
        version: Text::copied(alloc, b"v0")?,
        tag: Text::copied(alloc, b"history")?,
        sealed: Text::copied(alloc, b"s")?,
        wrapped: Text::copied(alloc, b"w")?,
    };
    let mut batch = Vec::new(alloc);
    match batch.push(Event::Taken { owner: 5, rec }) {
        Ok(()) => Ok(batch),
        Err(_) => Err(NoMemory),
    }
}

/// A new log on a disk that doesn't tell, whose calls of these numbers fail.
fn silent_log<R: Abort>(
    rt: &R,
    alloc: Global,
    failing: Vec<u64>,
) -> Result<RecordLog<MemDisk>, Fail>
    ensures settled { IfOk result (λ log. log.doubt ≡ None) }
    ensures silent { IfOk result (λ log. log.disk.history ≡ None) }
{
    let disk = MemDisk::new(alloc, Vec::new(alloc), failing)?.silent();
    match RecordLog::create(disk, 1) {
        Ok(log) => Ok(log),
        Err(_) => panic!(rt; "no log was made"),
    }
}

/// Appends the record of owner 5 with that idx, where it is the next one.
fn put<R: Abort>(
    rt: &R,
    alloc: Global,
    log: &mut RecordLog<MemDisk>,
    index: &mut ChainIndex,
    idx: u64,
) -> Result<(), Fail>
    requires settled { log.old.doubt ≡ None }
    requires silent { log.old.disk.history ≡ None }
    requires index { (filed : List Filed) × IsIndexOf index.old filed }
    ensures settled { OnOk result (log.new.doubt ≡ None) }
    ensures silent { OnOk result (log.new.disk.history ≡ None) }
    ensures index { (filed : List Filed) × IsIndexOf index.new filed }
{
    let rec = record(alloc, idx)?;
    let room = index.reserve(alloc, 5, &rec)?;
    let held = index.held(5);
    if index.count(5, rec.host, rec.tag.as_bytes()) != rec.idx
        || held.entries > 9
        || held.bytes > 9_999
        || rec.weight() > 999
    {
        panic!(rt; "it isn't the next one");
    }
    let batch = batch_of(alloc, idx)?;
    let ready = log.ready(alloc, &batch)?;
    match log.append(ready) {
        Ok(spot) => {
            index.add_reserved(5, &rec, spot, 0, room);
            Ok(())
        }
        Err(_) => panic!(rt; "nothing was appended"),
    }
}

/// The idxs of the page of that owner from `start` on.
fn idxs(
    alloc: Global,
    log: &mut RecordLog<MemDisk>,
    index: &ChainIndex,
    owner: u32,
    start: u64,
    count: u32,
) -> Result<Vec<u64>, ReadFail>
    requires silent { log.old.disk.history ≡ None }
    requires index { (filed : List Filed) × IsIndexOf index.now filed }
    ensures silent { log.new.disk.history ≡ None }
{
    let page = read_page(alloc, log, index, owner, 2, b"history", start, count)?;
    let mut idxs = Vec::new(alloc);
    for rec in page.as_slice() {
        match idxs.push(rec.idx) {
            Ok(()) => {}
            Err(_) => return Err(ReadFail::NoMemory),
        }
    }
    Ok(idxs)
}

fn shows(read: Result<Vec<u64>, ReadFail>, idxs: &[u64]) -> bool {
    match read {
        Ok(read) => read.as_slice() == idxs,
        Err(_) => false,
    }
}

#[test]
fn a_page_is_read_from_an_idx_on(rt: HostRuntime) -> Result<(), Fail> {
    let alloc = rt.alloc();
    let mut log = silent_log(&rt, alloc, Vec::new(alloc))?;
    let mut index = ChainIndex::new(alloc);
    put(&rt, alloc, &mut log, &mut index, 0)?;
    put(&rt, alloc, &mut log, &mut index, 1)?;
    put(&rt, alloc, &mut log, &mut index, 2)?;
    assert!(rt; shows(idxs(alloc, &mut log, &index, 5, 0, 9), &[0, 1, 2]));
    assert!(rt; shows(idxs(alloc, &mut log, &index, 5, 1, 1), &[1]));
    assert!(rt; shows(idxs(alloc, &mut log, &index, 5, 3, 9), &[]));
    assert!(rt; shows(idxs(alloc, &mut log, &index, 6, 0, 9), &[]));
    Ok(())
}

#[test]
fn a_read_that_fails_is_no_shorter_page(rt: HostRuntime) -> Result<(), Fail> {
    let alloc = rt.alloc();
    // Calls 1 to 3 make the log, 4 to 7 are an append, 8 to 11 the next one, and 13 reads the second record.
    let mut log = silent_log(&rt, alloc, vec![in alloc; 13]?)?;
    let mut index = ChainIndex::new(alloc);
    put(&rt, alloc, &mut log, &mut index, 0)?;
    put(&rt, alloc, &mut log, &mut index, 1)?;
    let read = idxs(alloc, &mut log, &index, 5, 0, 9);
    assert!(rt; matches!(&read, Err(ReadFail::DiskFault)));
    assert!(rt; shows(idxs(alloc, &mut log, &index, 5, 0, 9), &[0, 1]));
    Ok(())
}
