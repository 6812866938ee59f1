use super::*;
use std::process::Abort;
use std::test::Fail;

/// Reads two bytes at a time and compares each answer, and the bytes that came with it.
fn assert_comes<L: Link>(rt: &impl Abort, link: &mut L, wanted: &[(Got, &[u8])]) {
    for (want, bytes) in wanted {
        let mut into = [0; 2];
        let got = link.read(&mut into);
        assert!(rt; got == *want);
        if let Got::Bytes(count) = got {
            assert!(rt; &into[..count] == *bytes);
        }
    }
}

#[test]
fn a_link_gives_one_response_a_start(rt: HostRuntime) -> Result<(), Fail> {
    let alloc = rt.alloc();
    let mut responses = Vec::new(alloc);
    responses.push(b"abc".as_slice().to_vec(alloc)?)?;
    responses.push(b"d".as_slice().to_vec(alloc)?)?;
    // The second start is to fail, which is the sixth call.
    let mut link = MemLink::new(alloc, responses, vec![in alloc; 6; 1]?);
    assert_comes(&rt, &mut link, &[(Got::End, b"".as_slice())]);
    assert!(rt; link.write(b"x") == Took::Failed);
    assert!(rt; link.start() == Ok(()));
    assert!(rt; link.write(b"first") == Took::Bytes(5));
    assert_comes(&rt, &mut link, &[(Got::Bytes(2), b"ab".as_slice())]);
    assert!(rt; link.start() == Err(LinkFault));
    assert!(rt; link.request() == b"first".as_slice());
    assert_comes(
        &rt,
        &mut link,
        &[(Got::Bytes(1), b"c".as_slice()), (Got::End, b"")],
    );
    assert!(rt; link.start() == Ok(()));
    assert!(rt; link.request() == b"".as_slice());
    assert!(rt; link.write(b"second") == Took::Bytes(6));
    assert_comes(
        &rt,
        &mut link,
        &[(Got::Bytes(1), b"d".as_slice()), (Got::End, b"")],
    );
    assert!(rt; link.request() == b"second".as_slice());
    Ok(())
}

#[test]
fn a_sure_link_goes_on_with_empty_responses(rt: HostRuntime) -> Result<(), Fail> {
    let alloc = rt.alloc();
    let mut responses = Vec::new(alloc);
    responses.push(b"ab".as_slice().to_vec(alloc)?)?;
    let mut link = SureLink::new(alloc, responses);
    assert!(rt; link.write(b"x") == Took::Failed);
    let expected: [(Got, &[u8]); 2] = [(Got::Bytes(2), b"ab"), (Got::End, b"")];
    for wanted in [&expected[..], &expected[1..]] {
        assert!(rt; link.start() == Ok(()));
        assert!(rt; link.write(b"y") == Took::Bytes(1));
        assert_comes(&rt, &mut link, wanted);
        assert!(rt; link.request() == b"y".as_slice());
    }
    Ok(())
}
