use super::*;
use std::test::*;

/// What the command of these words is called, which are few and short: nothing where they are none.
fn called<R: AllocGlobal>(rt: &R, written: &[&str]) -> Result<&'static str, NoMemory> {
    let mut words = Vec::new(rt.alloc());
    for word in written {
        words.push(String::from_str(rt.alloc(), word)?)?;
    }
    Ok(match read_command(rt.alloc(), &words)? {
        Some(Command::Init) => "init",
        Some(Command::Pipe) => "pipe",
        Some(Command::Status) => "status",
        Some(Command::Search(_)) => "search",
        Some(Command::Migrate) => "migrate",
        None => "",
    })
}

#[test]
fn each_command_is_read(rt: HostRuntime) -> Result<(), Fail> {
    for name in ["init", "pipe", "status", "search", "migrate"] {
        assert_eq!(rt; called(&rt, &["folder", name])?, name);
    }
    Ok(())
}

#[test]
fn other_words_are_no_command(rt: HostRuntime) -> Result<(), Fail> {
    let others: [&[&str]; 5] = [
        &[],
        &["folder"],
        &["folder", "Init"],
        &["folder", "pipe", "more"],
        &["folder", "search", "--mode", "fuzzy", "x"],
    ];
    for words in others {
        assert_eq!(rt; called(&rt, words)?, "");
    }
    Ok(())
}
