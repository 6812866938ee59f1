use super::*;
use plain_types::{NoMemory, Text};
use std::process::Abort;
use std::test::*;

/// A short text.
fn text<R: AllocGlobal>(rt: &R, written: &str) -> Result<Text, NoMemory> {
    if written.len() > 100 {
        return Err(NoMemory);
    }
    Text::copied(rt.alloc(), written.as_bytes())
}

/// Sets an alias at time 5.
fn set<R: AllocGlobal>(
    rt: &R,
    view: &mut AliasView,
    host: u128,
    name: &str,
    value: &str,
) -> Result<(), NoMemory> {
    let (name, value) = (text(rt, name)?, text(rt, value)?);
    let room = view.reserve_set(rt.alloc(), &name, &value)?;
    view.add(host, 0, 5, room);
    Ok(())
}

/// The value of an alias, a question mark where it has none.
fn value<'a>(view: &'a AliasView, name: &str) -> &'a [u8] {
    match view.get(name.as_bytes()) {
        Some(value) => value.as_bytes(),
        None => b"?",
    }
}

#[test]
fn of_one_time_the_greatest_host_counts(rt: HostRuntime) -> Result<(), Fail> {
    for hosts in [[2, 3], [3, 2]] {
        let mut view = AliasView::new(rt.alloc());
        for host in hosts {
            set(
                &rt,
                &mut view,
                host,
                "g",
                if host == 2 { "git" } else { "grep" },
            )?;
        }
        assert_eq!(rt; value(&view, "g"), b"grep".as_slice());
        assert_eq!(rt; value(&view, "zz"), b"?".as_slice());
    }
    Ok(())
}

#[test]
fn names_are_listed_with_their_values(rt: HostRuntime) -> Result<(), Fail> {
    let mut view = AliasView::new(rt.alloc());
    for (name, value) in [("b", "v"), ("", "w"), ("a", "x"), ("gone", "y")] {
        set(&rt, &mut view, 2, name, value)?;
    }
    let room = view.reserve_end(rt.alloc(), &text(&rt, "gone")?)?;
    view.add(2, 1, 5, room);
    for (after, first, many) in [("", "w", 3), ("a", "v", 1), ("b", "?", 0)] {
        let page = view.list(rt.alloc(), after.as_bytes(), 10)?;
        let found = match page.as_slice().first() {
            Some(item) => item.value.as_bytes(),
            None => b"?",
        };
        assert_eq!(rt; found, first.as_bytes(), "after {after}");
        assert_eq!(rt; page.len(), many, "after {after}");
    }
    assert_eq!(rt; view.list(rt.alloc(), b"", 2)?.len(), 2);
    Ok(())
}
