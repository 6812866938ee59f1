use super::*;
use plain_types::NoMemory;
use std::process::Abort;
use std::test::*;

/// `ls` in `/`, session `s1`, on `h:u`, run by `me`, that ended with status 2 and was deleted at 3.
fn ended<R: AllocGlobal>(rt: &R) -> Result<History, NoMemory> {
    Ok(History {
        id: 7,
        timestamp: 1,
        duration: -1,
        exit: 2,
        command: Text::copied(rt.alloc(), b"ls")?,
        cwd: Text::copied(rt.alloc(), b"/")?,
        session: Text::copied(rt.alloc(), b"s1")?,
        hostname: Text::copied(rt.alloc(), b"h:u")?,
        deleted_at: Some(3),
        author: Some(Text::copied(rt.alloc(), b"me")?),
    })
}

fn assert_texts<R: Abort>(rt: &R, texts: [&Text; 4]) {
    let wanted: [&[u8]; 4] = [b"ls", b"/", b"s1", b"h:u"];
    for (text, want) in texts.into_iter().zip(wanted) {
        assert_eq!(rt; text.as_bytes(), want);
    }
}

#[test]
fn a_command_is_copied_and_weighed(rt: HostRuntime) -> Result<(), Fail> {
    let h = ended(&rt)?.copy(rt.alloc())?;
    assert_eq!(rt;
        (h.id, h.timestamp, h.duration, h.exit, h.deleted_at),
        (7, 1, -1, 2, Some(3))
    );
    assert_texts(&rt, [&h.command, &h.cwd, &h.session, &h.hostname]);
    assert_eq!(rt; h.text_len(), 10);
    let author: &[u8] = match &h.author {
        Some(author) => author.as_bytes(),
        None => b"",
    };
    assert_eq!(rt; author, b"me".as_slice());
    let started = Started {
        id: h.id,
        timestamp: h.timestamp,
        command: h.command,
        cwd: h.cwd,
        session: h.session,
        hostname: h.hostname,
    };
    let s = started.copy(rt.alloc())?;
    assert_eq!(rt; (s.id, s.timestamp), (7, 1));
    assert_texts(&rt, [&s.command, &s.cwd, &s.session, &s.hostname]);
    assert_eq!(rt; s.weight(), 136);
    Ok(())
}

#[test]
fn a_record_is_copied_and_weighed(rt: HostRuntime) -> Result<(), Fail> {
    let alloc = rt.alloc();
    let kept = Record {
        id: 7,
        idx: 1,
        host: 2,
        host_name: Text::copied(alloc, b"ls")?,
        timestamp: 3,
        version: Text::copied(alloc, b"v1")?,
        tag: Text::copied(alloc, b"/")?,
        sealed: Text::copied(alloc, b"s1")?,
        wrapped: Text::copied(alloc, b"h:u")?,
    };
    let r = kept.copy(alloc)?;
    assert_eq!(rt; (r.id, r.idx, r.host, r.timestamp), (7, 1, 2, 3));
    assert_texts(&rt, [&r.host_name, &r.tag, &r.sealed, &r.wrapped]);
    assert_eq!(rt; r.version.as_bytes(), b"v1".as_slice());
    assert_eq!(rt; r.weight(), 138);
    Ok(())
}

#[test]
fn lists_keep_their_order(rt: HostRuntime) -> Result<(), Fail> {
    let alloc = rt.alloc();
    let mut inner = Vec::new(alloc);
    inner.push(Text::copied(alloc, b"b")?)?;
    inner.push(Text::copied(alloc, b"a")?)?;
    let texts = Texts::from_vec(inner);
    let wanted: [&[u8]; 2] = [b"b", b"a"];
    assert_eq!(rt; texts.len(), 2);
    for (text, want) in texts.as_slice().iter().zip(wanted) {
        assert_eq!(rt; text.as_bytes(), want);
    }
    Ok(())
}

#[test]
fn ids_are_made_and_print_and_are_read(rt: HostRuntime) {
    let id = new_id(1_700_000_000_000_000_000, &[0, 1, 2, 3, 4, 5, 6, 7, 8, 9]);
    let digits = history_id_text(id);
    assert_eq!(rt; digits, *b"018bcfe5680070018203040506070809");
    assert_eq!(rt; read_history_id(&digits), Some(id));
    let groups = record_id_text(id);
    assert_eq!(rt; groups, *b"018bcfe5-6800-7001-8203-040506070809");
    assert_eq!(rt; read_record_id(&groups), Some(id));
    assert_eq!(rt; record_id_text(1), *b"00000000-0000-0000-0000-000000000001");
}

#[test]
fn what_is_no_id_is_refused(rt: HostRuntime) {
    let refused: [&[u8]; 5] = [
        b"",
        b"018BCFE5680070018203040506070809",
        b"018bcfe568007001820304050607080",
        b"018bcfe56800700182030405060708090",
        b"018bcfe568007001820304050607080g",
    ];
    for text in refused {
        assert_eq!(rt; read_history_id(text), None);
    }
    let upper = read_record_id(b"018BCFE5680070018203040506070809");
    assert_eq!(rt; upper, read_history_id(b"018bcfe5680070018203040506070809"));
    assert_eq!(rt;
        read_record_id(b"018bcfe5-6800-7001-8203-04050607080"),
        None
    );
}
