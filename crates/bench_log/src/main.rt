//! A log over a file, for measuring alone: nothing stands on this program.
//!
//! `append FILE COUNT BYTES`: appends so many batches of one record each, whose sealed text has so many bytes, to the log in
//! the file, which it makes where there is none. `open FILE`: opens the log. What is promised is what `record_log` promises.
#![tactic(auto)]

ghost use Rattle.std.specs.Prelude.{◌≡◌, ◌≤◌, None, length, All, IfOk, IfSome};
ghost use Rattle.record_rules.specs.Journal.{EventFits};
ghost use Rattle.record_model.specs.Seen.{events_seen};

use at_edge::{Disk, FileDisk};
use plain_types::{NoMemory, Text};
use record_log::RecordLog;
use record_model::{Event, Record};
use std::alloc::Global;
use std::env;
use std::process::ExitCode;

/// The host of the log.
const HOST: u128 = 1;

/// The most bytes of a sealed text.
const MOST_BYTES: usize = 4096;

/// A text of so many bytes.
fn text_of(alloc: Global, count: usize) -> Result<Text, NoMemory>
    ensures { IfOk result (λ t. length t ≤ 4096) }
{
    let bytes = vec![in alloc; b'x'; count.min(MOST_BYTES)]?;
    match str::from_utf8(&bytes) {
        Ok(text) => Text::copied(alloc, text.as_bytes()),
        Err(_) => Err(NoMemory),
    }
}

/// The batch of the record at this index.
fn batch(alloc: Global, idx: u64, bytes: usize) -> Result<Vec<Event>, NoMemory>
    ensures one { IfOk result (λ batch. length batch.items ≡ 1) }
    ensures fit { IfOk result (λ batch. All EventFits (events_seen batch.items)) }
{
    let rec = Record {
        id: u128::from(idx) + 1,
        idx,
        host: HOST,
        host_name: Text::copied(alloc, b"")?,
        timestamp: idx,
        version: Text::copied(alloc, b"v0")?,
        tag: Text::copied(alloc, b"history")?,
        sealed: text_of(alloc, bytes)?,
        wrapped: Text::copied(alloc, b"w")?,
    };
    let mut batch = Vec::new(alloc);
    match batch.push(Event::Local { rec, closes: None }) {
        Ok(()) => Ok(batch),
        Err(_) => Err(NoMemory),
    }
}

/// Appends the record at this index.
fn append<D: Disk>(alloc: Global, log: &mut RecordLog<D>, idx: u64, bytes: usize) -> Option<()>
    requires { log.old.doubt ≡ None }
    ensures { IfSome result (λ _. log.new.doubt ≡ None) }
{
    let batch = batch(alloc, idx, bytes).ok()?;
    let ready = log.ready(alloc, &batch).ok()?;
    match log.append(ready) {
        Ok(_) => Some(()),
        Err(_) => None,
    }
}

/// Appends so many records to a new log. Answers how many there are.
fn append_all<D: Disk + Drop>(alloc: Global, disk: D, count: u64, bytes: usize) -> Option<u64> {
    let Ok(mut log) = RecordLog::create(disk, HOST) else {
        return None;
    };
    for idx in 0..count {
        append(alloc, &mut log, idx, bytes)?;
    }
    Some(count)
}

/// Opens the log.
fn open<D: Disk + Drop>(alloc: Global, disk: D) -> Option<u64> {
    match RecordLog::open_on(alloc, disk) {
        Ok(_) => Some(1),
        Err(_) => None,
    }
}

/// Does what the words ask for.
fn run(rt: &HostRuntime, words: &[String]) -> Option<u64> {
    match words {
        [kind, path, count, bytes] if kind.as_str() == "append" => append_all(
            rt.alloc(),
            FileDisk::new(rt, path.as_str()),
            count.as_str().parse().ok()?,
            bytes.as_str().parse().ok()?,
        ),
        [kind, path] if kind.as_str() == "open" => {
            open(rt.alloc(), FileDisk::new(rt, path.as_str()))
        }
        _ => None,
    }
}

fn main(rt: HostRuntime) -> ExitCode {
    ExitCode::from(status(&rt))
}

/// 0 where it was done.
fn status(rt: &HostRuntime) -> u8 {
    let Some(words) = words_of(rt) else {
        return 11;
    };
    let Some(count) = run(rt, &words) else {
        return 1;
    };
    match println!(rt; "{} done", count) {
        Ok(()) => 0,
        Err(_) => 5,
    }
}

/// The words behind the program's name.
fn words_of(rt: &HostRuntime) -> Option<Vec<String>> {
    env::args(rt).ok()?.skip(1).collect(rt.alloc()).ok()
}
