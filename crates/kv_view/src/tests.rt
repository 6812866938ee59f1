use super::*;
use plain_types::{NoMemory, Text};
use std::process::Abort;
use std::test::*;

/// A short text.
fn text<R: AllocGlobal>(rt: &R, written: &str) -> Result<Text, NoMemory> {
    if written.len() > 100 {
        return Err(NoMemory);
    }
    Text::copied(rt.alloc(), written.as_bytes())
}

/// Sets a key of the namespace `n`, at host 2.
fn set<R: AllocGlobal>(
    rt: &R,
    view: &mut KvView,
    timestamp: u64,
    key: &str,
    value: &str,
) -> Result<(), NoMemory> {
    let (namespace, key, value) = (text(rt, "n")?, text(rt, key)?, text(rt, value)?);
    let room = view.reserve_set(rt.alloc(), &namespace, &key, &value)?;
    view.add(2, timestamp, timestamp, room);
    Ok(())
}

fn delete<R: AllocGlobal>(
    rt: &R,
    view: &mut KvView,
    timestamp: u64,
    key: &str,
) -> Result<(), NoMemory> {
    let (namespace, key) = (text(rt, "n")?, text(rt, key)?);
    let room = view.reserve_delete(rt.alloc(), &namespace, &key)?;
    view.add(2, timestamp, timestamp, room);
    Ok(())
}

/// The value of a key, a question mark where it has none.
fn value<'a>(view: &'a KvView, key: &str) -> &'a [u8] {
    match view.get(b"n", key.as_bytes()) {
        Some(value) => value.as_bytes(),
        None => b"?",
    }
}

#[test]
fn the_latest_counts_in_any_order(rt: HostRuntime) -> Result<(), Fail> {
    let mut view = KvView::new(rt.alloc());
    set(&rt, &mut view, 5, "k", "v")?;
    assert_eq!(rt; value(&view, "k"), b"v".as_slice());
    assert_eq!(rt; value(&view, "j"), b"?".as_slice());
    delete(&rt, &mut view, 4, "k")?;
    assert_eq!(rt; value(&view, "k"), b"v".as_slice());
    delete(&rt, &mut view, 6, "k")?;
    assert_eq!(rt; value(&view, "k"), b"?".as_slice());
    set(&rt, &mut view, 5, "k", "w")?;
    assert_eq!(rt; value(&view, "k"), b"?".as_slice());
    set(&rt, &mut view, 7, "k", "")?;
    assert_eq!(rt; value(&view, "k"), b"".as_slice());
    Ok(())
}

#[test]
fn keys_are_listed_in_pages(rt: HostRuntime) -> Result<(), Fail> {
    let mut view = KvView::new(rt.alloc());
    for key in ["b", "", "a", "gone"] {
        set(&rt, &mut view, 5, key, "v")?;
    }
    delete(&rt, &mut view, 6, "gone")?;
    for (after, limit, first, many) in [
        ("", 10, "", 3),
        ("", 1, "", 1),
        ("a", 10, "b", 1),
        ("A", 1, "a", 1),
    ] {
        let names = view.names(rt.alloc(), b"n", after.as_bytes(), limit)?;
        assert_eq!(rt; names.len(), many, "after {after}");
        let found = match names.as_slice().first() {
            Some(name) => name.as_bytes(),
            None => b"?",
        };
        assert_eq!(rt; found, first.as_bytes(), "after {after}");
    }
    assert_eq!(rt; view.names(rt.alloc(), b"n", b"b", 10)?.len(), 0);
    assert_eq!(rt; view.names(rt.alloc(), b"", b"", 10)?.len(), 0);
    Ok(())
}
