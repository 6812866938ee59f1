use super::*;
use plain_types::Text;
use record_model::{Event, Record, Started};
use std::alloc::Global;
use std::test::Fail;

fn started(alloc: Global, id: u128) -> Result<Event, Fail> {
    Ok(Event::Started(Started {
        id,
        timestamp: 1,
        command: Text::copied(alloc, b"ls")?,
        cwd: Text::copied(alloc, b"/")?,
        session: Text::copied(alloc, b"s1")?,
        hostname: Text::copied(alloc, b"h:u")?,
    }))
}

fn record(alloc: Global, host: u128, idx: u64) -> Result<Record, Fail> {
    Ok(Record {
        id: u128::from(idx),
        idx,
        host,
        host_name: Text::copied(alloc, b"")?,
        timestamp: 2,
        version: Text::copied(alloc, b"v0")?,
        tag: Text::copied(alloc, b"history")?,
        sealed: Text::copied(alloc, b"s")?,
        wrapped: Text::copied(alloc, b"w")?,
    })
}

fn made(alloc: Global, host: u128, idx: u64, closes: Option<u128>) -> Result<Event, Fail> {
    Ok(Event::Local {
        rec: record(alloc, host, idx)?,
        closes,
    })
}

fn taken(alloc: Global, owner: u32, host: u128, idx: u64) -> Result<Event, Fail> {
    Ok(Event::Taken {
        owner,
        rec: record(alloc, host, idx)?,
    })
}

#[test]
fn a_journal_is_checked_entry_by_entry(rt: HostRuntime) -> Result<(), Fail> {
    let alloc = rt.alloc();
    let mut check = JournalCheck::new(alloc, 1);
    // A started id comes once, and a record closes only what runs.
    assert!(rt; check.take(alloc, &started(alloc, 7)?)?);
    assert!(rt; !check.take(alloc, &started(alloc, 7)?)?);
    assert!(rt; !check.take(alloc, &made(alloc, 1, 0, Some(8))?)?);
    assert!(rt; check.take(alloc, &made(alloc, 1, 0, Some(7))?)?);
    assert!(rt; !check.take(alloc, &made(alloc, 1, 1, Some(7))?)?);
    // A record is the next of its chain, and one that is made here has this host.
    assert!(rt; !check.take(alloc, &made(alloc, 1, 2, None)?)?);
    assert!(rt; !check.take(alloc, &made(alloc, 1, 0, None)?)?);
    assert!(rt; !check.take(alloc, &made(alloc, 2, 0, None)?)?);
    assert!(rt; check.take(alloc, &made(alloc, 1, 1, None)?)?);
    // Chains are apart by owner and by host.
    assert!(rt; !check.take(alloc, &taken(alloc, 5, 1, 2)?)?);
    assert!(rt; check.take(alloc, &taken(alloc, 5, 1, 0)?)?);
    assert!(rt; check.take(alloc, &taken(alloc, 0, 1, 2)?)?);
    assert!(rt; check.take(alloc, &taken(alloc, 5, 2, 0)?)?);
    assert!(rt; !check.take(alloc, &taken(alloc, 5, 2, 0)?)?);
    Ok(())
}
