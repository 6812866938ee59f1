use super::*;
use std::test::*;

const LOWER: &[u8] = b"00112233445566778899aabbccddeeff0123456789abcdef70717f80fe010203";

const UPPER: &[u8] = b"00112233445566778899AABBCCDDEEFF0123456789ABCDEF70717F80FE010203\r\n";

const KEY: [u8; 32] = [
    0x00, 0x11, 0x22, 0x33, 0x44, 0x55, 0x66, 0x77, 0x88, 0x99, 0xaa, 0xbb, 0xcc, 0xdd, 0xee, 0xff,
    0x01, 0x23, 0x45, 0x67, 0x89, 0xab, 0xcd, 0xef, 0x70, 0x71, 0x7f, 0x80, 0xfe, 0x01, 0x02, 0x03,
];

#[test]
fn either_case_is_read(rt: HostRuntime) -> Result<(), Fail> {
    assert_eq!(rt; read_key_text(LOWER), Some(KEY));
    assert_eq!(rt; read_key_text(UPPER), Some(KEY));
    Ok(())
}

#[test]
fn nothing_else_is_a_key(rt: HostRuntime) -> Result<(), Fail> {
    assert!(rt; read_key_text(&LOWER[1..]).is_none());
    assert!(rt; read_key_text(&UPPER[..65]).is_none());
    assert!(rt; read_key_text(b"").is_none());
    Ok(())
}
