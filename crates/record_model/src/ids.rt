//! Ids: how they are made, how they print, and how they are read.
//!
//! All are UUIDs of 128 bits. The id of a command prints as 32 lower-case hexadecimal digits, that of a record or a
//! host in groups with hyphens between them. No call takes memory.

ghost use Rattle.std.specs.Prelude.{◌≡◌, ℕ, ◌<◌, ◌^◌, true, false, Some, MatchOption};
ghost use Rattle.std.specs.Int.{w128, from_be_bytes};
ghost use Rattle.std.specs.List.{list_all};
ghost use Rattle.std.specs.Option.{option_map};
ghost use Rattle.std.specs.Str.{IsUtf8};
ghost use Rattle.definitions.specs.Ids.{made_id, id_text, hyphenated};
ghost use Rattle.definitions.specs.Reading.{is_lower_hex, is_id_text};
ghost use Rattle.definitions.specs.Spelling.{IsBytes};
ghost use Rattle.uuid.specs.Text.{parsed};

use uuid::Uuid;

/// The number of digits of a command's id.
const DIGITS: usize = 32;

/// The number of characters of a record's or a host's id.
const CHARACTERS: usize = 36;

/// A UUID of version 7 of the time `now`, in nanoseconds since 1970 began, and ten random bytes: RFC 9562, 5.7.
pub fn new_id(now: u64, random: &[u8; 10]) -> u128
    ensures made { result ≡ made_id now random.now }
    ensures random { IsBytes random.now }
{
    let [_, _, t0, t1, t2, t3, t4, t5] = (now / 1_000_000 % (1 << 48)).to_be_bytes();
    let [r0, r1, r2, r3, r4, r5, r6, r7, r8, r9] = *random;
    let version = 0x70 | (r0 & 0x0f);
    let variant = 0x80 | (r2 & 0x3f);
    u128::from_be_bytes([
        t0, t1, t2, t3, t4, t5, version, r1, variant, r3, r4, r5, r6, r7, r8, r9,
    ])
}

/// How the id of a command prints: 32 lower-case hexadecimal digits.
pub fn history_id_text(id: u128) -> [u8; DIGITS]
    ensures value { result ≡ id_text id }
    ensures utf8 { IsUtf8 result }
{
    let mut digits = [0u8; DIGITS];
    match hex::encode_to_slice(id.to_be_bytes(), &mut digits) {
        Ok(()) => digits,
        Err(_) => unreachable!(),
    }
}

/// The id of a command that prints so, if one does: 32 digits in lower case, and nothing else.
pub fn read_history_id(text: &[u8]) -> Option<u128>
    ensures { MatchOption result (is_id_text text.now ≡ false) (λ id. (is_id_text text.now ≡ true) × (id_text id ≡ text.now)) }
{
    if !is_printed(text) {
        return None;
    }
    Some(value_of(text))
}

fn is_printed(text: &[u8]) -> bool
    ensures { result ≡ is_id_text text.now }
{
    text.len() == DIGITS && are_digits(text)
}

fn are_digits(text: &[u8]) -> bool
    ensures { result ≡ list_all is_lower_hex text.now }
{
    text.iter().all(|byte| is_digit(*byte))
}

fn is_digit(byte: u8) -> bool
    ensures { result ≡ is_lower_hex byte }
{
    byte.is_ascii_digit() || (b'a'..=b'f').contains(&byte)
}

fn value_of(digits: &[u8]) -> u128
    requires { is_id_text digits.now ≡ true }
    ensures { id_text result ≡ digits.now }
{
    let mut bytes = [0u8; DIGITS / 2];
    match hex::decode_to_slice(digits, &mut bytes) {
        Ok(()) => u128::from_be_bytes(bytes),
        Err(_) => unreachable!(),
    }
}

/// How the id of a record or a host prints: lower-case hexadecimal digits in groups of 8, 4, 4, 4 and 12, with hyphens
/// between them (RFC 9562, 4).
pub fn record_id_text(id: u128) -> [u8; CHARACTERS]
    ensures value { result ≡ hyphenated id }
    ensures utf8 { IsUtf8 result }
{
    let mut buffer = [0u8; CHARACTERS];
    let text = Uuid::from_u128(id).hyphenated().encode_lower(&mut buffer);
    let mut characters = [0u8; CHARACTERS];
    characters.copy_from_slice(text.as_bytes());
    characters
}

/// The id of a record or a host in any of the forms of a UUID: digits of either case, alone, in groups with hyphens,
/// these in braces, or these behind `urn:uuid:`.
pub fn read_record_id(text: &[u8]) -> Option<u128>
    ensures value { result ≡ option_map (from_be_bytes w128) (parsed text.now) }
    ensures printed { (id : ℕ) → id < 2 ^ 128 → text.now ≡ hyphenated id → result ≡ Some id }
{
    match Uuid::try_parse_ascii(text) {
        Ok(id) => Some(id.as_u128()),
        Err(_) => None,
    }
}
