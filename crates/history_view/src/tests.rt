use super::*;
use plain_types::{NoMemory, Text};
use record_model::{Filter, History};
use std::process::Abort;
use std::test::*;

/// A short text.
fn text<R: AllocGlobal>(rt: &R, written: &str) -> Result<Text, NoMemory> {
    if written.len() > 100 {
        return Err(NoMemory);
    }
    Text::copied(rt.alloc(), written.as_bytes())
}

/// A command that ended with status 2, in `/`, on `h:u`, run by `me`.
fn command<R: AllocGlobal>(
    rt: &R,
    id: u128,
    timestamp: u64,
    written: &str,
    session: &str,
) -> Result<History, NoMemory> {
    Ok(History {
        id,
        timestamp,
        duration: -1,
        exit: 2,
        command: text(rt, written)?,
        cwd: text(rt, "/")?,
        session: text(rt, session)?,
        hostname: text(rt, "h:u")?,
        deleted_at: None,
        author: Some(text(rt, "me")?),
    })
}

fn create<R: AllocGlobal>(
    rt: &R,
    view: &mut HistoryView,
    host: u128,
    idx: u64,
    h: &History,
) -> Result<(), NoMemory> {
    let room = view.reserve_creation(rt.alloc(), h)?;
    view.add(host, idx, room);
    Ok(())
}

fn delete(view: &mut HistoryView, host: u128, idx: u64, id: u128) -> Result<(), NoMemory> {
    let room = view.reserve_deletion(id)?;
    view.add(host, idx, room);
    Ok(())
}

/// How many commands a filter lets through; 1,000 where the walk and the count differ.
fn shown(view: &HistoryView, by: &Filter) -> u64 {
    let mut walked = 0;
    for _ in view.bucket(by) {
        if walked < 1000 {
            walked += 1;
        }
    }
    if walked == view.bucket_len(by) {
        walked
    } else {
        1000
    }
}

#[test]
fn a_deletion_hides_in_either_order(rt: HostRuntime) -> Result<(), Fail> {
    for deletes_first in [true, false] {
        let mut view = HistoryView::new(rt.alloc());
        for deletes in [deletes_first, !deletes_first] {
            if deletes {
                delete(&mut view, 3, 0, 7)?;
            } else {
                create(&rt, &mut view, 2, 0, &command(&rt, 7, 5, "ls", "s1")?)?;
            }
        }
        assert!(rt; view.is_dead(7));
        assert!(rt; view.get(7).is_none());
        assert_eq!(rt; shown(&view, &Filter::Global), 0);
    }
    Ok(())
}

#[test]
fn the_creation_at_the_least_host_is_shown(rt: HostRuntime) -> Result<(), Fail> {
    let mut view = HistoryView::new(rt.alloc());
    let second = Filter::Session(text(&rt, "s2")?);
    let third = Filter::Session(text(&rt, "s3")?);
    for (host, session, in_second, in_third) in [
        (3, "s3", 0, 1),
        (2, "s2", 1, 0),
        (4, "s3", 1, 0),
    ] {
        create(&rt, &mut view, host, 0, &command(&rt, 7, 5, "ls", session)?)?;
        assert_eq!(rt; shown(&view, &second), in_second);
        assert_eq!(rt; shown(&view, &third), in_third);
    }
    delete(&mut view, 1, 9, 7)?;
    assert_eq!(rt; shown(&view, &second), 0);
    Ok(())
}

#[test]
fn the_newest_comes_first_and_of_one_time_the_least_id(rt: HostRuntime) -> Result<(), Fail> {
    let mut view = HistoryView::new(rt.alloc());
    for (id, timestamp) in [(7, 5), (9, 6), (8, 5), (6, 4)] {
        create(
            &rt,
            &mut view,
            2,
            timestamp,
            &command(&rt, id, timestamp, "ls", "s1")?,
        )?;
    }
    let mut walk = view.newest();
    for want in [9, 7, 8, 6] {
        assert_eq!(rt; walk.next().map(|walked| walked.id), Some(want));
    }
    Ok(())
}
