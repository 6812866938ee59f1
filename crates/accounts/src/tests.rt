use super::*;
use std::alloc::Global;
use std::test::*;

fn wrong_line(read: Result<Accounts, AccountsFail>) -> Option<u32> {
    match read {
        Err(AccountsFail::Wrong { line }) => Some(line),
        _ => None,
    }
}

const TEXT: &[u8] = b"0 abc\n1023 ~!\n0 abcd";

fn owner_of(alloc: Global, token: &[u8]) -> Option<u32> {
    match Accounts::read(alloc, TEXT) {
        Ok(accounts) => accounts.owner(token),
        Err(_) => None,
    }
}

#[test]
fn a_token_is_its_owners(rt: HostRuntime) -> Result<(), Fail> {
    let alloc = rt.alloc();
    assert_eq!(rt; owner_of(alloc, b"abc"), Some(0));
    assert_eq!(rt; owner_of(alloc, b"~!"), Some(1023));
    assert_eq!(rt; owner_of(alloc, b"abcd"), Some(0));
    assert_eq!(rt; owner_of(alloc, b"ab"), None);
    Ok(())
}

#[test]
fn the_first_wrong_line_is_told(rt: HostRuntime) -> Result<(), Fail> {
    let alloc = rt.alloc();
    assert_eq!(rt;
        wrong_line(Accounts::read(alloc, b"0 abc\n1 abc\n")),
        Some(2)
    );
    assert_eq!(rt; wrong_line(Accounts::read(alloc, b"\n")), Some(1));
    assert_eq!(rt;
        wrong_line(Accounts::read(alloc, b"0 a\n1024 b\n")),
        Some(2)
    );
    assert_eq!(rt; wrong_line(Accounts::read(alloc, b"0 a\r\n")), Some(1));
    assert_eq!(rt; wrong_line(Accounts::read(alloc, b"")), None);
    Ok(())
}
