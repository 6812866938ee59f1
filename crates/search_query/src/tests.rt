use super::*;
use history_view::{HistoryView, ShownCommand};
use plain_types::{NoMemory, Text};
use record_model::{Filter, History, Mode, Query};
use std::process::Abort;
use std::test::*;

/// A short text.
fn text<R: AllocGlobal>(rt: &R, written: &str) -> Result<Text, NoMemory> {
    if written.len() > 100 {
        return Err(NoMemory);
    }
    Text::copied(rt.alloc(), written.as_bytes())
}

/// Adds a command that ended, in `/`, on `h:u`.
fn end<R: AllocGlobal>(
    rt: &R,
    view: &mut HistoryView,
    timestamp: u64,
    command: Text,
    session: Text,
) -> Result<(), NoMemory> {
    let h = History {
        id: timestamp as u128,
        timestamp,
        duration: 1000,
        exit: 0,
        command,
        cwd: text(rt, "/")?,
        session,
        hostname: text(rt, "h:u")?,
        deleted_at: None,
        author: None,
    };
    let room = view.reserve_creation(rt.alloc(), &h)?;
    view.add(2, timestamp, room);
    Ok(())
}

/// A search by prefix for all commands.
fn all(text: Text, limit: u32) -> Query {
    Query {
        mode: Mode::Prefix,
        filter: Filter::Global,
        text,
        unique: false,
        offset: 0,
        limit,
    }
}

/// The times of the first two hits, 0 where there are fewer, and how many hits there are.
fn times<R: AllocGlobal>(
    rt: &R,
    view: &HistoryView,
    query: &Query,
) -> Result<(u64, u64, usize), NoMemory> {
    if query.limit == 0 {
        return Err(NoMemory);
    }
    if view.bucket_len(&query.filter) == u64::MAX {
        return Err(NoMemory);
    }
    let mut steps = 0;
    let hits = search(rt.alloc(), view, query, &mut steps)?;
    Ok((time(&hits, 0), time(&hits, 1), hits.len()))
}

/// How many tests the search makes.
fn steps<R: AllocGlobal>(rt: &R, view: &HistoryView, query: &Query) -> Result<u64, NoMemory> {
    if query.limit == 0 {
        return Err(NoMemory);
    }
    if view.bucket_len(&query.filter) == u64::MAX {
        return Err(NoMemory);
    }
    let mut steps = 0;
    let hits = search(rt.alloc(), view, query, &mut steps)?;
    drop(hits);
    Ok(steps)
}

fn time(hits: &Vec<ShownCommand<'_>>, at: usize) -> u64 {
    match hits.get(at) {
        Some(h) => h.timestamp,
        None => 0,
    }
}

#[test]
fn equal_commands_are_shown_once(rt: HostRuntime) -> Result<(), Fail> {
    let mut view = HistoryView::new(rt.alloc());
    for (timestamp, written) in [(1, "a"), (2, "b"), (3, "a")] {
        end(
            &rt,
            &mut view,
            timestamp,
            text(&rt, written)?,
            text(&rt, "s1")?,
        )?;
    }
    let mut query = all(text(&rt, "")?, 10);
    assert_eq!(rt; times(&rt, &view, &query)?, (3, 2, 3));
    query.unique = true;
    assert_eq!(rt; times(&rt, &view, &query)?, (3, 2, 2));
    query.limit = 1;
    assert_eq!(rt; times(&rt, &view, &query)?, (3, 0, 1));
    query.offset = 1;
    assert_eq!(rt; times(&rt, &view, &query)?, (2, 0, 1));
    query.offset = 5;
    assert_eq!(rt; times(&rt, &view, &query)?, (0, 0, 0));
    query.offset = 0;
    query.filter = Filter::Session(text(&rt, "s2")?);
    assert_eq!(rt; times(&rt, &view, &query)?, (0, 0, 0));
    Ok(())
}

#[test]
fn a_capital_is_compared_exactly(rt: HostRuntime) -> Result<(), Fail> {
    let mut view = HistoryView::new(rt.alloc());
    for (timestamp, written) in [
        (1, "git status"),
        (2, "GIT LOG"),
        (3, "mañana Ñandú"),
        (4, "x\0y"),
    ] {
        end(
            &rt,
            &mut view,
            timestamp,
            text(&rt, written)?,
            text(&rt, "s1")?,
        )?;
    }
    for (mode, written, want) in [
        (Mode::Prefix, "git", (2, 1, 2)),
        (Mode::Prefix, "GIT", (2, 0, 1)),
        (Mode::Prefix, "status", (0, 0, 0)),
        (Mode::Substring, "status", (1, 0, 1)),
        (Mode::Substring, "STAT", (0, 0, 0)),
        (Mode::Substring, "log", (2, 0, 1)),
        (Mode::Substring, "Ñandú", (3, 0, 1)),
        (Mode::Substring, "ñandú", (0, 0, 0)),
        (Mode::Substring, "\0y", (4, 0, 1)),
        (Mode::Substring, "", (4, 3, 4)),
    ] {
        let mut query = all(text(&rt, written)?, 10);
        query.mode = mode;
        assert_eq!(rt; times(&rt, &view, &query)?, want, "{written}");
    }
    Ok(())
}

/// A decimal digit.
fn digit(number: u64) -> u8 {
    (number % 10) as u8 + b'0'
}

/// A text of four digits.
fn digits<R: AllocGlobal>(rt: &R, number: u64) -> Result<Text, NoMemory> {
    let written = [
        digit(number / 1000),
        digit(number / 100),
        digit(number / 10),
        digit(number),
    ];
    match str::from_utf8(&written) {
        Ok(written) => text(rt, written),
        Err(_) => Err(NoMemory),
    }
}

#[test]
fn a_session_of_many_is_searched_in_its_own_steps(rt: HostRuntime) -> Result<(), Fail> {
    let mut view = HistoryView::new(rt.alloc());
    for number in 1..10_001 {
        end(
            &rt,
            &mut view,
            number,
            digits(&rt, number)?,
            digits(&rt, number % 100)?,
        )?;
    }
    let mut query = all(text(&rt, "")?, 1000);
    query.filter = Filter::Session(digits(&rt, 42)?);
    assert_eq!(rt; view.bucket_len(&query.filter), 100);
    assert_eq!(rt; times(&rt, &view, &query)?, (9942, 9842, 100));
    assert!(rt; steps(&rt, &view, &query)? <= 100);
    Ok(())
}

/// A view of 4,999 commands in one session: `Far back` first, then 70 texts of four digits over and over.
fn far_back(rt: &HostRuntime) -> Result<HistoryView, NoMemory> {
    let mut view = HistoryView::new(rt.alloc());
    end(rt, &mut view, 1, text(rt, "Far back")?, text(rt, "s1")?)?;
    for number in 2..5000 {
        end(
            rt,
            &mut view,
            number,
            digits(rt, number % 70)?,
            text(rt, "s1")?,
        )?;
    }
    Ok(view)
}

#[test]
fn what_stands_far_back_is_found(rt: HostRuntime) -> Result<(), Fail> {
    let view = far_back(&rt)?;
    let mut query = all(text(&rt, "far")?, 10);
    assert_eq!(rt; times(&rt, &view, &query)?, (1, 0, 1));
    query.text = text(&rt, "Far")?;
    assert_eq!(rt; times(&rt, &view, &query)?, (1, 0, 1));
    query.text = text(&rt, "back")?;
    assert_eq!(rt; times(&rt, &view, &query)?, (0, 0, 0));
    query.mode = Mode::Substring;
    assert_eq!(rt; times(&rt, &view, &query)?, (1, 0, 1));
    Ok(())
}

#[test]
fn what_is_nowhere_is_not_found(rt: HostRuntime) -> Result<(), Fail> {
    let view = far_back(&rt)?;
    let mut query = all(text(&rt, "none")?, 10);
    assert_eq!(rt; times(&rt, &view, &query)?, (0, 0, 0));
    query.text = text(&rt, "0069")?;
    query.unique = true;
    assert_eq!(rt; times(&rt, &view, &query)?, (4969, 0, 1));
    query.offset = 1;
    assert_eq!(rt; times(&rt, &view, &query)?, (0, 0, 0));
    Ok(())
}
