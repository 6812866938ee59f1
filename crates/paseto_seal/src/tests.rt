use super::*;
use crate::hash::hash_encoded;
use blake2b_core::hash_pieces;
use std::test::*;

// The key, the second nonce, the message and the first two tokens are those of PASETO's test vectors 4-E-1 and 4-E-3,
// the ids those of PASERK's k4.lid-1 and k4.lid-2; bench/token_vectors.py computes all of them, and the rest.
const KEY: [u8; 32] = [
    0x70, 0x71, 0x72, 0x73, 0x74, 0x75, 0x76, 0x77, 0x78, 0x79, 0x7a, 0x7b, 0x7c, 0x7d, 0x7e, 0x7f,
    0x80, 0x81, 0x82, 0x83, 0x84, 0x85, 0x86, 0x87, 0x88, 0x89, 0x8a, 0x8b, 0x8c, 0x8d, 0x8e, 0x8f,
];

const NONCE: [u8; 32] = [
    0xdf, 0x65, 0x48, 0x12, 0xba, 0xc4, 0x92, 0x66, 0x38, 0x25, 0x52, 0x0b, 0xa2, 0xf6, 0xe6, 0x7c,
    0xf5, 0xca, 0x5b, 0xdc, 0x13, 0xd4, 0xe7, 0x50, 0x7a, 0x98, 0xcc, 0x4c, 0x2f, 0xcc, 0x3a, 0xd8,
];

const COUNTED_KEY: [u8; 32] = [
    0x00, 0x01, 0x02, 0x03, 0x04, 0x05, 0x06, 0x07, 0x08, 0x09, 0x0a, 0x0b, 0x0c, 0x0d, 0x0e, 0x0f,
    0x10, 0x11, 0x12, 0x13, 0x14, 0x15, 0x16, 0x17, 0x18, 0x19, 0x1a, 0x1b, 0x1c, 0x1d, 0x1e, 0x1f,
];

const SECRET: &[u8] =
    b"{\"data\":\"this is a secret message\",\"exp\":\"2022-01-01T00:00:00+00:00\"}";

const ASSERTION: &[u8] = b"{\"id\":\"0189\",\"idx\":1}";

const FIRST: &[u8] =
    b"v4.local.AAAAAAAAAAAAAAAAAAAAAAAAAAAAAAAAAAAAAAAAAAAQAr68PS4AXe7If_ZgesdkUMvSwscFlAl1pk5HC0e8kApeaqMfGo_7OpBnwJOAbY9V7WU6abu74MmcUE8YWAiaArVI8XJ5hOb_4v9RmDkneN0S92dx0OW4pgy7omxgf3S8c3LlQg";

const SECOND: &[u8] =
    b"v4.local.32VIErrEkmY4JVILovbmfPXKW9wT1OdQepjMTC_MOtjA4kiqw7_tcaOM5GNEcnTxl60WkwMsYXw6FSNb_UdJPXjpzm0KW9ojM5f4O2mRvE2IcweP-PRdoHjd5-RHCiExR1IK6t6-tyebyWG6Ov7kKvBdkrrAJ837lKP3iDag2hzUPHuMKA";

const ASSERTED: &[u8] =
    b"v4.local.32VIErrEkmY4JVILovbmfPXKW9wT1OdQepjMTC_MOtjA4kiqw7_tcaOM5GNEcnTxl60WkwMsYXw6FSNb_UdJPXjpzm0KW9ojM5f4O2mRvE2IcweP-PRdoHjd5-RHCiExR1IK6t5Yy1dD5hvOWGW5wSyCs6If8Qwbq0fyaIXwLi2ThvIBCg";

const EMPTY: &[u8] =
    b"v4.local.32VIErrEkmY4JVILovbmfPXKW9wT1OdQepjMTC_MOtjdzeGZ5NK4Z9gR74D9ifoEYJCWtMKFj2X1ijOmKROBrA";

const WRAP: &[u8] =
    b"k4.local-wrap.pie.-VJ-bOysXmie9GRAXeLMHV6U4-0bH0E-Zx7tM0kcxZTfZUgSusSSZjglUgui9uZ89cpb3BPU51B6mMxML8w62HJjutDkYqRo6CsVk4503F4--SZvSneVNBz0lj-WDxqn";

#[test]
fn tokens_both_ways(rt: HostRuntime) -> Result<(), Fail> {
    let zeros = [0u8; 32];
    for (nonce, message, implicit, token) in [
        (&zeros, SECRET, b"".as_slice(), FIRST),
        (&NONCE, SECRET, b"".as_slice(), SECOND),
        (&NONCE, SECRET, ASSERTION, ASSERTED),
        (&NONCE, b"".as_slice(), ASSERTION, EMPTY),
    ] {
        assert!(rt; message.len() < 100 && token.len() < 300);
        let locked = lock_token(rt.alloc(), &KEY, nonce, message, implicit)?;
        assert_eq!(rt; locked.as_bytes(), token);
        let opened = open_token(rt.alloc(), &KEY, token, implicit)?;
        assert_eq!(rt; opened.as_slice(), message);
    }
    Ok(())
}

#[test]
fn token_of_a_mebibyte(rt: HostRuntime) -> Result<(), Fail> {
    let message = vec![in rt.alloc(); 0x5au8; 1 << 20]?;
    assert!(rt; message.len() < 1 << 21);
    let locked = lock_token(rt.alloc(), &KEY, &NONCE, &message, ASSERTION)?;
    assert_eq!(rt; locked.len(), 9 + 1_398_187);
    let opened = open_token(rt.alloc(), &KEY, locked.as_bytes(), ASSERTION)?;
    assert_eq!(rt; opened.as_slice(), message.as_slice());
    Ok(())
}

// Texts that are no token under the key and the assertion, and what each is called.
const NO_TOKENS: [(&[u8], TokenFail); 10] = [
    // one of the four spare bits of the last digit set
    (
        b"v4.local.32VIErrEkmY4JVILovbmfPXKW9wT1OdQepjMTC_MOtjdzeGZ5NK4Z9gR74D9ifoEYJCWtMKFj2X1ijOmKROBrB",
        TokenFail::NotToken,
    ),
    // the first digit, in the nonce, and the two bits of the tag in the last
    (
        b"v4.local.42VIErrEkmY4JVILovbmfPXKW9wT1OdQepjMTC_MOtjdzeGZ5NK4Z9gR74D9ifoEYJCWtMKFj2X1ijOmKROBrA",
        TokenFail::BadTag,
    ),
    (
        b"v4.local.32VIErrEkmY4JVILovbmfPXKW9wT1OdQepjMTC_MOtjdzeGZ5NK4Z9gR74D9ifoEYJCWtMKFj2X1ijOmKROBrQ",
        TokenFail::BadTag,
    ),
    // padding, the other alphabet, a footer
    (
        b"v4.local.32VIErrEkmY4JVILovbmfPXKW9wT1OdQepjMTC_MOtjdzeGZ5NK4Z9gR74D9ifoEYJCWtMKFj2X1ijOmKROBrA==",
        TokenFail::NotToken,
    ),
    (
        b"v4.local.32VIErrEkmY4JVILovbmfPXKW9wT1OdQepjMTC/MOtjdzeGZ5NK4Z9gR74D9ifoEYJCWtMKFj2X1ijOmKROBrA",
        TokenFail::NotToken,
    ),
    (
        b"v4.local.32VIErrEkmY4JVILovbmfPXKW9wT1OdQepjMTC_MOtjdzeGZ5NK4Z9gR74D9ifoEYJCWtMKFj2X1ijOmKROBrA.Zm9v",
        TokenFail::NotToken,
    ),
    // 63 bytes, and other headers
    (
        b"v4.local.32VIErrEkmY4JVILovbmfPXKW9wT1OdQepjMTC_MOtjdzeGZ5NK4Z9gR74D9ifoEYJCWtMKFj2X1ijOmKROB",
        TokenFail::NotToken,
    ),
    (
        b"v3.local.32VIErrEkmY4JVILovbmfPXKW9wT1OdQepjMTC_MOtjdzeGZ5NK4Z9gR74D9ifoEYJCWtMKFj2X1ijOmKROBrA",
        TokenFail::NotToken,
    ),
    (b"v4.local", TokenFail::NotToken),
    // the token of another assertion
    (SECOND, TokenFail::BadTag),
];

#[test]
fn texts_that_are_no_token_of_the_key(rt: HostRuntime) {
    for &(token, fail) in &NO_TOKENS {
        assert!(rt; token.len() < 300);
        let answer = open_token(rt.alloc(), &KEY, token, ASSERTION);
        assert_eq!(rt; answer.err(), Some(fail));
    }
    let under_another_key = open_token(rt.alloc(), &COUNTED_KEY, EMPTY, ASSERTION);
    assert_eq!(rt; under_another_key.err(), Some(TokenFail::BadTag));
}

#[test]
fn wraps_both_ways(rt: HostRuntime) -> Result<(), Fail> {
    let wrapped = wrap_key(rt.alloc(), &KEY, &NONCE, &COUNTED_KEY)?;
    assert_eq!(rt; wrapped.as_bytes(), WRAP);
    assert_eq!(rt; unwrap_key(rt.alloc(), &KEY, WRAP), Ok(COUNTED_KEY));
    Ok(())
}

// Texts that are no wrap under the key, and what each is called.
const NO_WRAPS: [(&[u8], WrapFail); 5] = [
    // a character less, and four more
    (
        b"k4.local-wrap.pie.-VJ-bOysXmie9GRAXeLMHV6U4-0bH0E-Zx7tM0kcxZTfZUgSusSSZjglUgui9uZ89cpb3BPU51B6mMxML8w62HJjutDkYqRo6CsVk4503F4--SZvSneVNBz0lj-WDxq",
        WrapFail::NotWrapped,
    ),
    (
        b"k4.local-wrap.pie.-VJ-bOysXmie9GRAXeLMHV6U4-0bH0E-Zx7tM0kcxZTfZUgSusSSZjglUgui9uZ89cpb3BPU51B6mMxML8w62HJjutDkYqRo6CsVk4503F4--SZvSneVNBz0lj-WDxqnAAAA",
        WrapFail::NotWrapped,
    ),
    // another header
    (
        b"k4.local-wrap.pix.-VJ-bOysXmie9GRAXeLMHV6U4-0bH0E-Zx7tM0kcxZTfZUgSusSSZjglUgui9uZ89cpb3BPU51B6mMxML8w62HJjutDkYqRo6CsVk4503F4--SZvSneVNBz0lj-WDxqn",
        WrapFail::NotWrapped,
    ),
    // the first digit, in the tag, and the last, in the ciphertext
    (
        b"k4.local-wrap.pie.AVJ-bOysXmie9GRAXeLMHV6U4-0bH0E-Zx7tM0kcxZTfZUgSusSSZjglUgui9uZ89cpb3BPU51B6mMxML8w62HJjutDkYqRo6CsVk4503F4--SZvSneVNBz0lj-WDxqn",
        WrapFail::BadTag,
    ),
    (
        b"k4.local-wrap.pie.-VJ-bOysXmie9GRAXeLMHV6U4-0bH0E-Zx7tM0kcxZTfZUgSusSSZjglUgui9uZ89cpb3BPU51B6mMxML8w62HJjutDkYqRo6CsVk4503F4--SZvSneVNBz0lj-WDxqo",
        WrapFail::BadTag,
    ),
];

#[test]
fn texts_that_are_no_wrap_of_the_key(rt: HostRuntime) {
    for &(text, fail) in &NO_WRAPS {
        assert_eq!(rt; unwrap_key(rt.alloc(), &KEY, text), Err(fail));
    }
    assert_eq!(rt;
        unwrap_key(rt.alloc(), &COUNTED_KEY, WRAP),
        Err(WrapFail::BadTag)
    );
}

#[test]
fn ids_of_the_standard(rt: HostRuntime) -> Result<(), Fail> {
    let zeros = [0u8; 32];
    for (key, id) in [
        (
            &zeros,
            b"k4.lid.bqltbNc4JLUAmc9Xtpok-fBuI0dQN5_m3CD9W_nbh559",
        ),
        (&KEY, b"k4.lid.iVtYQDjr5gEijCSjJC3fQaJm7nCeQSeaty0Jixy8dbsk"),
    ] {
        assert_eq!(rt; key_id(rt.alloc(), key)?.as_bytes(), id.as_slice());
    }
    Ok(())
}

// PASETO, "Common implementation details": PAE of the one piece `test`.
#[test]
fn encoding_of_the_standard(rt: HostRuntime) {
    let encoded = [
        0x01, 0, 0, 0, 0, 0, 0, 0, 0x04, 0, 0, 0, 0, 0, 0, 0, 0x74, 0x65, 0x73, 0x74,
    ];
    let mut plain = [0u8; 32];
    hash_pieces(b"", &[encoded.as_slice()], &mut plain);
    let mut found = [0u8; 32];
    hash_encoded(b"", &[b"test"], &mut found);
    assert_eq!(rt; found, plain);
}
