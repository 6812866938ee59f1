//! C exports of the view of commands and its search, for measuring alone: nothing stands on this crate.
//!
//! The model and the promise are those of `history_view` and `search_query`, on which it stands: what is read is added to a
//! view, and the view is searched as the crate's own call does it. Of the answers it is said that they are no more than was
//! asked for. A slice comes from C as a pointer and a length. What wants memory takes it from the C library's `malloc`; a
//! parameter `alloc` is no parameter in C.
#![tactic(auto)]

ghost use Rattle.std.specs.Prelude.{◌≤◌};

use history_view::HistoryView;
use plain_types::{NoMemory, Text};
use record_model::{Filter, History, Mode, Query};
use search_query::search;
use std::alloc::Global;

/// The number that bytes are, the greatest first.
fn number(bytes: &[u8]) -> u64 {
    let mut number: u64 = 0;
    for byte in bytes {
        number = number.wrapping_mul(256).wrapping_add(u64::from(*byte));
    }
    number
}

/// The first `count` bytes and what follows, where there are as many.
fn cut(bytes: &[u8], count: usize) -> Option<(&[u8], &[u8])> {
    if bytes.len() < count {
        return None;
    }
    Some(bytes.split_at(count))
}

/// A text behind its length of two bytes, and what follows.
fn text(alloc: Global, bytes: &[u8]) -> Option<(Text, &[u8])> {
    let (length, rest) = cut(bytes, 2)?;
    let (written, rest) = cut(rest, (number(length) % 65_536) as usize)?;
    Some((short_text(alloc, written)?, rest))
}

/// A text of fewer than 2^32 bytes in UTF-8.
fn short_text(alloc: Global, bytes: &[u8]) -> Option<Text> {
    if bytes.len() >= 1 << 32 {
        return None;
    }
    match str::from_utf8(bytes) {
        Ok(written) => Text::copied(alloc, written.as_bytes()).ok(),
        Err(_) => None,
    }
}

/// The command with this id: its time in eight bytes, then command, working directory, session and host name. And what
/// follows.
fn command(alloc: Global, id: u64, bytes: &[u8]) -> Option<(History, &[u8])> {
    let (time, rest) = cut(bytes, 8)?;
    let (command, rest) = text(alloc, rest)?;
    let (cwd, rest) = text(alloc, rest)?;
    let (session, rest) = text(alloc, rest)?;
    let (hostname, rest) = text(alloc, rest)?;
    let h = History {
        id: u128::from(id),
        timestamp: number(time),
        duration: 1000,
        exit: 0,
        command,
        cwd,
        session,
        hostname,
        deleted_at: None,
        author: None,
    };
    Some((h, rest))
}

/// Adds a command.
fn add(alloc: Global, view: &mut HistoryView, idx: u64, h: &History) -> Result<(), NoMemory> {
    let room = view.reserve_creation(alloc, h)?;
    view.add(1, idx, room);
    Ok(())
}

/// The view of the first `count` commands.
fn filled(alloc: Global, count: u64, history: &[u8]) -> Result<HistoryView, NoMemory> {
    let mut view = HistoryView::new(alloc);
    let mut rest = history;
    for id in 0..count {
        let Some((h, left)) = command(alloc, id, rest) else {
            return Ok(view);
        };
        add(alloc, &mut view, id, &h)?;
        rest = left;
    }
    Ok(view)
}

/// How many hits the query has.
fn hits(alloc: Global, view: &HistoryView, query: &Query) -> Result<u64, NoMemory>
    requires { 1 ≤ query.now.limit }
{
    let mut steps = 0;
    if view.bucket_len(&query.filter) >= u64::MAX {
        return Ok(0);
    }
    let found = search(alloc, view, query, &mut steps)?;
    Ok(found.len() as u64)
}

/// The same, asked `rounds` times.
fn asked(alloc: Global, view: &HistoryView, query: &Query, rounds: u64) -> Result<u64, NoMemory>
    requires { 1 ≤ query.now.limit }
{
    let mut found = 0;
    for _ in 0..rounds {
        found = hits(alloc, view, query)?;
    }
    Ok(found)
}

/// The filter of a number: 1 a host, 2 a session, 3 a working directory, else none.
fn filter(by: u64, text: Text) -> Filter {
    match by {
        1 => Filter::Host(text),
        2 => Filter::Session(text),
        3 => Filter::Directory(text),
        _ => Filter::Global,
    }
}

/// Reads as many commands as there are, and at most `count`, and keeps none. It answers how many there were.
#[unsafe(no_mangle)]
pub extern "C" fn bench_history(alloc: Global, count: u64, history: &[u8]) -> u64
    ensures { result ≤ count }
{
    let mut rest = history;
    for id in 0..count {
        let Some((_, left)) = command(alloc, id, rest) else {
            return id;
        };
        rest = left;
    }
    count
}

/// Fills a view with the first `count` commands, asks for the newest `limit` that match `rounds` times, and answers how
/// many hits there were: at most `limit`, and 0 where the text is none or there is no memory. `by` is the filter's number
/// with its text `within`; `mode` 0 is by prefix, else by substring; `unique` 0 shows equal commands again.
#[unsafe(no_mangle)]
pub extern "C" fn bench_search(
    alloc: Global,
    count: u64,
    history: &[u8],
    mode: u64,
    written: &[u8],
    by: u64,
    within: &[u8],
    unique: u64,
    limit: u32,
    rounds: u64,
) -> u64
    ensures { result ≤ limit }
{
    let (Some(text), Some(within)) = (short_text(alloc, written), short_text(alloc, within)) else {
        return 0;
    };
    if limit == 0 {
        return 0;
    }
    let query = Query {
        mode: if mode == 0 {
            Mode::Prefix
        } else {
            Mode::Substring
        },
        filter: filter(by, within),
        text,
        unique: unique != 0,
        offset: 0,
        limit,
    };
    let Ok(view) = filled(alloc, count, history) else {
        return 0;
    };
    match asked(alloc, &view, &query, rounds) {
        Ok(found) => found.min(u64::from(limit)),
        Err(_) => 0,
    }
}
