//! The reply to a payload that spells no call, written without memory.

ghost use Rattle.std.specs.Prelude.{◌≡◌, ◌+◌, ◌≤◌, ◌++◌, length, take};
ghost use Rattle.definitions.specs.Replies.{written_number};
ghost use Rattle.step_rules.specs.Answers.{refused, bad_request};
ghost use Rattle.session_rules.specs.Bytes.{reply_bytes};

use byteorder::{BigEndian, ByteOrder};

/// The header of an array of three items, and the number of the refusal.
const HEAD: [u8; 2] = [0x93, 9];

/// Writes the payload of the reply BadRequest to the first bytes of `into`: that at `front` entries of the journal a
/// payload came whose first wrong item has its first byte at `place`. Returns how many bytes these are. It takes no
/// memory.
pub fn write_bad(front: u64, place: u32, into: &mut [u8; 32]) -> usize
    ensures written { take result into.new ≡ reply_bytes (record { front = front; answer = refused (bad_request place) }) }
    ensures short { result ≤ 32 }
{
    let at = put(into, 0, &HEAD);
    let at = put_number(into, at, front);
    put_number(into, at, u64::from(place))
}

/// Writes a number in its shortest spelling behind the first `at` bytes, and returns how many there are then.
fn put_number(into: &mut [u8; 32], at: usize, number: u64) -> usize
    requires { at + 9 ≤ 32 }
    ensures put { take result into.new ≡ take at into.old ++ written_number number }
    ensures short { result ≤ at + 9 }
{
    if number < 1 << 7 {
        put(into, at, &[number as u8])
    } else if number < 1 << 8 {
        put(into, at, &[0xcc, number as u8])
    } else if number < 1 << 16 {
        let mut bytes = [0xcd; 3];
        BigEndian::write_u16(&mut bytes[1..], number as u16);
        put(into, at, &bytes)
    } else if number < 1 << 32 {
        let mut bytes = [0xce; 5];
        BigEndian::write_u32(&mut bytes[1..], number as u32);
        put(into, at, &bytes)
    } else {
        let mut bytes = [0xcf; 9];
        BigEndian::write_u64(&mut bytes[1..], number);
        put(into, at, &bytes)
    }
}

/// Writes `bytes` behind the first `at` bytes, and returns how many there are then.
fn put(into: &mut [u8; 32], at: usize, bytes: &[u8]) -> usize
    requires { at + length bytes.now ≤ 32 }
    ensures put { take result into.new ≡ take at into.old ++ bytes.now }
    ensures end { result ≡ at + length bytes.now }
{
    let end = at + bytes.len();
    into[at..end].copy_from_slice(bytes);
    end
}
