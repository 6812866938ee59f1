use super::*;
use plain_types::NoMemory;
use record_model::{Filter, Mode, Query};
use std::test::*;

/// The query of these words, which are few and short.
fn asked<R: AllocGlobal>(rt: &R, written: &[&str]) -> Result<Option<Query>, NoMemory> {
    let mut words = Vec::new(rt.alloc());
    for word in written {
        words.push(String::from_str(rt.alloc(), word)?)?;
    }
    read_query(rt.alloc(), &words)
}

#[test]
fn nothing_said_asks_for_all(rt: HostRuntime) -> Result<(), Fail> {
    let asked = asked(&rt, &[])?;
    assert!(rt; asked.is_some());
    if let Some(query) = asked {
        assert_eq!(rt; query.mode, Mode::Prefix);
        assert!(rt; matches!(query.filter, Filter::Global));
        assert!(rt; query.text.as_bytes().is_empty());
        assert!(rt; !query.unique);
        assert_eq!(rt; query.offset, 0);
        assert_eq!(rt; query.limit, 100);
    }
    Ok(())
}

#[test]
fn each_option_is_read(rt: HostRuntime) -> Result<(), Fail> {
    let words = [
        "--mode",
        "substring",
        "--filter=host:h:u",
        "--unique",
        "git",
        "--offset=05",
        "--limit",
        "1000",
    ];
    let asked = asked(&rt, &words)?;
    assert!(rt; asked.is_some());
    if let Some(query) = asked {
        assert_eq!(rt; query.mode, Mode::Substring);
        assert!(rt;
            matches!(&query.filter, Filter::Host(host) if host.as_bytes() == b"h:u".as_slice())
        );
        assert_eq!(rt; query.text.as_bytes(), b"git".as_slice());
        assert!(rt; query.unique);
        assert_eq!(rt; query.offset, 5);
        assert_eq!(rt; query.limit, 1000);
    }
    Ok(())
}

#[test]
fn other_words_are_refused(rt: HostRuntime) -> Result<(), Fail> {
    let refused: [&[&str]; 8] = [
        &["--mode", "fuzzy", "x"],
        &["--limit", "0"],
        &["--limit=1001"],
        &["--offset", "4294967296"],
        &["--unique", "--unique"],
        &["a", "b"],
        &["-x"],
        &["--mode"],
    ];
    for words in refused {
        assert!(rt; asked(&rt, words)?.is_none());
    }
    Ok(())
}

#[test]
fn a_text_may_begin_with_a_hyphen(rt: HostRuntime) -> Result<(), Fail> {
    let taken: [&[&str]; 3] = [&["--", "-x"], &["-"], &["--unique", "--"]];
    for words in taken {
        assert!(rt; asked(&rt, words)?.is_some());
    }
    Ok(())
}
