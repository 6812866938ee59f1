//! Records that are read back.

ghost use Rattle.std.specs.Prelude.{◌≡◌, ◌-◌, ◌≤◌, length, min, IfOk};
ghost use Rattle.std.specs.Option.{option_map};
ghost use Rattle.definitions.specs.Limits.{most_page_records, most_page_weight};
ghost use Rattle.record_rules.specs.Records.{page_weight};
ghost use Rattle.record_rules.specs.Journal.{event_record};
ghost use Rattle.record_model.specs.Seen.{event_seen, record_seen, records_seen};
ghost use Rattle.record_log.specs.Reading.{ReadCause};
ghost use Rattle.page_reading.specs.Reading.{MayRead, OfLog, IsPage, IsRecordAt, LogRests};

use at_edge::Disk;
use chain_index::ChainIndex;
use record_log::{ReadFail, RecordLog};
use record_model::{Event, Record};
use std::alloc::Global;

/// Records of a page, and their weight together in bytes.
const MOST_RECORDS: u32 = 100;

const MOST_WEIGHT: u64 = 4_194_304;

/// The record of the event, which a started command hasn't.
fn record_of(event: Event) -> Option<Record>
    ensures { option_map record_seen result ≡ event_record (event_seen event) }
{
    match event {
        Event::Started(_) => None,
        Event::Local { rec, .. } => Some(rec),
        Event::Taken { rec, .. } => Some(rec),
    }
}

/// The record of the owner's chain at this idx, or `None` where the chain ends before it.
fn read_record<D: Disk>(
    alloc: Global,
    log: &mut RecordLog<D>,
    index: &ChainIndex,
    owner: u32,
    host: u128,
    tag: &[u8],
    idx: u64,
) -> Result<Option<Record>, ReadFail>
    requires { MayRead log.old index.now }
    ensures record { IfOk result (λ found. OfLog log.old index.now (IsRecordAt owner host tag.now idx (option_map record_seen found))) }
    ensures rests { LogRests log.old log.new }
    ensures cause { ReadCause result log.old.disk log.new.disk }
{
    let Some((spot, at)) = index.spot_at(owner, host, tag, idx) else {
        return Ok(None);
    };
    let event = match log.read_event(alloc, spot, at) {
        Ok(event) => event,
        Err(fail) => return Err(fail),
    };
    match record_of(event) {
        Some(rec) => Ok(Some(rec)),
        None => {
            log.disown();
            Err(ReadFail::DiskFault)
        }
    }
}

/// How many records from `start` on a page has at most, if the chain has so many.
fn most_from(start: u64, count: u32, len: u64) -> u64
    ensures { result ≡ min (min count most_page_records) (len - start) }
{
    u64::from(count.min(MOST_RECORDS)).min(len.saturating_sub(start))
}

/// The records of the owner's chain of this host and tag, from the idx `start` on: at most `count` and at most 100,
/// as many as weigh at most 4,194,304 bytes together. The index is of entries that stand in the log.
///
/// # Errors
///
/// [`ReadFail::DiskFault`], where the disk's count of faults rose; [`ReadFail::NoMemory`]. The log stays as it was.
pub fn read_page<D: Disk>(
    alloc: Global,
    log: &mut RecordLog<D>,
    index: &ChainIndex,
    owner: u32,
    host: u128,
    tag: &[u8],
    start: u64,
    count: u32,
) -> Result<Vec<Record>, ReadFail>
    requires { MayRead log.old index.now }
    ensures page { IfOk result (λ records. OfLog log.old index.now (IsPage owner host tag.now start count (records_seen records.items))) }
    ensures short { IfOk result (λ records. length records.items ≤ most_page_records) }
    ensures light { IfOk result (λ records. page_weight (records_seen records.items) ≤ most_page_weight) }
    ensures rests { LogRests log.old log.new }
    ensures cause { ReadCause result log.old.disk log.new.disk }
{
    let mut records = Vec::new(alloc);
    let mut weight = 0u64;
    let most = most_from(start, count, index.count(owner, host, tag));
    for step in 0..most {
        let found = match read_record(alloc, log, index, owner, host, tag, start + step) {
            Ok(found) => found,
            Err(fault) => return Err(fault),
        };
        let Some(rec) = found else {
            return Ok(records);
        };
        weight += rec.weight();
        if weight > MOST_WEIGHT {
            return Ok(records);
        }
        match records.push(rec) {
            Ok(()) => {}
            Err(_) => return Err(ReadFail::NoMemory),
        }
    }
    Ok(records)
}
