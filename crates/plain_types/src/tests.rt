use super::*;
use std::test::*;

#[test]
fn bytes_with_ample_memory(rt: HostRuntime) -> Result<(), Fail> {
    let mut bytes = Bytes::copied(rt.alloc(), b"ab")?;
    bytes.reserve(3)?;
    bytes.push(b'c')?;
    bytes.extend(b"de")?;
    assert_eq!(rt; bytes.as_slice(), b"abcde".as_slice());
    Ok(())
}

#[test]
fn texts_with_ample_memory(rt: HostRuntime) -> Result<(), Fail> {
    let text = Text::copied(rt.alloc(), "ä".as_bytes())?;
    let copy = text.copy(rt.alloc())?;
    assert_eq!(rt; copy.as_bytes(), [0xc3, 0xa4].as_slice());
    Ok(())
}
