use super::*;
use plain_types::{NoMemory, Text};
use record_model::{Chain, History};
use std::test::*;

/// A short text.
fn text<R: AllocGlobal>(rt: &R, written: &str) -> Result<Text, NoMemory> {
    if written.len() > 100 {
        return Err(NoMemory);
    }
    Text::copied(rt.alloc(), written.as_bytes())
}

fn ended<R: AllocGlobal>(
    rt: &R,
    timestamp: u64,
    exit: i64,
    command: &str,
) -> Result<History, NoMemory> {
    Ok(History {
        id: 1,
        timestamp,
        duration: 0,
        exit,
        command: text(rt, command)?,
        cwd: text(rt, "/")?,
        session: text(rt, "s1")?,
        hostname: text(rt, "h:u")?,
        deleted_at: None,
        author: None,
    })
}

#[test]
fn a_hit_is_one_line(rt: HostRuntime) -> Result<(), Fail> {
    let hits = [ended(&rt, 1_700_000_000_000_000_000, 0, "ls")?];
    let printed = hits_text(rt.alloc(), &hits)?;
    assert_eq!(rt;
        printed.as_slice(),
        b"2023-11-14T22:13:20Z\t0\tls\n".as_slice()
    );
    Ok(())
}

#[test]
fn the_last_time_and_a_command_of_two_lines(rt: HostRuntime) -> Result<(), Fail> {
    let hits = [
        ended(&rt, u64::MAX, -1, "a\tb\\\r\n")?,
        ended(&rt, 951_782_399_999_999_999, 127, "")?,
    ];
    let printed = hits_text(rt.alloc(), &hits)?;
    assert_eq!(rt;
        printed.as_slice(),
        b"2554-07-21T23:34:33Z\t-1\ta\\tb\\\\\\r\\n\n2000-02-28T23:59:59Z\t127\t\n".as_slice()
    );
    Ok(())
}

#[test]
fn a_chain_is_one_line(rt: HostRuntime) -> Result<(), Fail> {
    let chains = [
        Chain {
            host: 1,
            tag: text(&rt, "history")?,
            count: 1,
        },
        Chain {
            host: 2,
            tag: text(&rt, "a\tb")?,
            count: u64::MAX,
        },
    ];
    let printed = chains_text(rt.alloc(), &chains)?;
    assert_eq!(rt;
        printed.as_slice(),
        b"00000000-0000-0000-0000-000000000001 history 1\n00000000-0000-0000-0000-000000000002 a\\tb 18446744073709551615\n".as_slice()
    );
    Ok(())
}

#[test]
fn entries_are_counted(rt: HostRuntime) -> Result<(), Fail> {
    let printed = entries_text(rt.alloc(), 3)?;
    assert_eq!(rt; printed.as_slice(), b"entries 3\n".as_slice());
    Ok(())
}
