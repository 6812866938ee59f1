//! The header of a log: a magic, the host, eight zero bytes, and behind them the first gate.

ghost use Rattle.std.specs.Prelude.{◌≡◌, ◌≤◌, ◌++◌, [], ◌∷◌, length, take, replicate, bytes_eq, Some, None, IfNone};
ghost use Rattle.log_rules.specs.Log.{Form, current_form, old_form, header_bytes, magic_bytes, header_fault};
ghost use Rattle.log_format.specs.Headers.{ReadsHeader};

use crate::fails::FormatFail;
use byteorder::{BigEndian, ByteOrder};

/// The bytes of a header and the gate behind it.
pub const HEADER_BYTES: usize = 33;

/// The last byte of the magic in the current form, and in the old one.
const CURRENT_DIGIT: u8 = 0x32;

const OLD_DIGIT: u8 = 0x31;

/// The header of a log of this host in the current form, and a closed gate. It takes no memory.
pub fn write_header(host: u128) -> [u8; 33]
    ensures { result ≡ header_bytes current_form host ++ 0 ∷ [] }
{
    let mut bytes = [0u8; 33];
    bytes[..8].copy_from_slice(b"ATULOG02");
    bytes[8..24].copy_from_slice(&host.to_be_bytes());
    bytes
}

/// The first eight bytes, or all where there are fewer.
fn eight(bytes: &[u8]) -> &[u8]
    ensures { result.now ≡ take 8 bytes.now }
{
    if bytes.len() < 8 { bytes } else { &bytes[..8] }
}

/// Whether the bytes begin with the magic that ends with this digit.
fn has_magic(bytes: &[u8], digit: u8) -> bool
    ensures { (form : Form) → form.digit ≡ digit → result ≡ bytes_eq (take 8 bytes.now) (magic_bytes form) }
{
    let magic = [0x41, 0x54, 0x55, 0x4c, 0x4f, 0x47, 0x30, digit];
    eight(bytes) == &magic[..]
}

/// Whether the bytes begin with eight zeros.
fn has_zeros(bytes: &[u8]) -> bool
    ensures { result ≡ bytes_eq (take 8 bytes.now) (replicate 8 0) }
{
    eight(bytes) == &[0u8; 8][..]
}

/// The place of the first item that can't be read, in a header whose magic ends with this digit.
fn fault_of(bytes: &[u8], digit: u8) -> Option<u64>
    ensures fault { (form : Form) → form.digit ≡ digit → result ≡ header_fault form bytes.now }
    ensures whole { IfNone result (33 ≤ length bytes.now) }
{
    if has_magic(bytes, digit) {
        if bytes.len() < 24 {
            return Some(8);
        }
        if has_zeros(&bytes[24..]) {
            if bytes.len() < HEADER_BYTES {
                return Some(32);
            }
            return None;
        }
        return Some(24);
    }
    Some(0)
}

/// The host in a header whose magic ends with this digit.
fn read_with(bytes: &[u8], digit: u8) -> Result<u128, FormatFail>
    ensures { (form : Form) → form.digit ≡ digit → ReadsHeader form bytes.now result }
{
    match fault_of(bytes, digit) {
        Some(place) => Err(FormatFail::Wrong { place }),
        None => Ok(BigEndian::read_u128(&bytes[8..24])),
    }
}

/// The host whose header in the current form the bytes begin with. What stands from byte 32 on isn't looked at, but a
/// byte has to be there. It takes no memory.
///
/// # Errors
///
/// [`FormatFail::Wrong`] exactly where no such header stands there, with the place of its first item that can't be read:
/// 0 the magic, 8 the host, 24 the zeros, 32 the gate.
pub fn read_header(bytes: &[u8]) -> Result<u128, FormatFail>
    ensures { ReadsHeader current_form bytes.now result }
{
    read_with(bytes, CURRENT_DIGIT)
}

/// The same of a header in the old form.
///
/// # Errors
///
/// [`FormatFail::Wrong`] exactly where no such header stands there, as [`read_header`] says.
pub fn read_old_header(bytes: &[u8]) -> Result<u128, FormatFail>
    ensures { ReadsHeader old_form bytes.now result }
{
    read_with(bytes, OLD_DIGIT)
}
