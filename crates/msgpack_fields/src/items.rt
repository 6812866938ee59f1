//! The item at the front of some bytes, and the bytes behind it.
//!
//! What reads a number or a text is inlined: a slice that a call gives back through memory is read again in one piece
//! while its two words are still on their way there, which costs more than reading the item.

ghost use Rattle.std.specs.Prelude.{◌≡◌, ◌<◌, ◌≤◌, ◌^◌, length, option_map, IfSome, IfNone};
ghost use Rattle.std.specs.Int.{w8, w16, w32, w64};
ghost use Rattle.std.specs.Str.{is_utf8, IsUtf8};
ghost use Rattle.definitions.specs.Spelling.{SpellsInteger, IsInteger, IsSpellable, SpellsText, IsText, TextFits, SpellsArray, IsArray};
ghost use Rattle.definitions.specs.Reading.{wide_at, integer_at, text_head_at, text_at, array_at};
ghost use Rattle.definitions.specs.Calls.{NoPrefix};
ghost use Rattle.payload_rules.specs.Items.{SpellsBin};
ghost use Rattle.payload_rules.specs.Reading.{bin_head_at, bin_at};
ghost use Rattle.msgpack_fields.specs.Reading.{BeginsWith, IsBin, SpellsNilOr, SpellsNumber, IsNilOr, number_at, nil_or_at};

use byteorder::{BigEndian, ByteOrder};

/// The one spelling of nil.
const NIL: u8 = 0xc0;

fn u8_of(bytes: &[u8]) -> Option<(u8, &[u8])>
    ensures value { option_map (λ x. (x.0, x.1.now)) result ≡ wide_at w8 bytes.now }
    ensures shorter { IfSome result (λ x. length x.1.now ≤ length bytes.now) }
{
    let (number, rest) = bytes.split_first_chunk::<1>()?;
    Some((number[0], rest))
}

fn u16_of(bytes: &[u8]) -> Option<(u16, &[u8])>
    ensures value { option_map (λ x. (x.0, x.1.now)) result ≡ wide_at w16 bytes.now }
    ensures shorter { IfSome result (λ x. length x.1.now ≤ length bytes.now) }
{
    let (number, rest) = bytes.split_first_chunk::<2>()?;
    Some((BigEndian::read_u16(number), rest))
}

fn u32_of(bytes: &[u8]) -> Option<(u32, &[u8])>
    ensures value { option_map (λ x. (x.0, x.1.now)) result ≡ wide_at w32 bytes.now }
    ensures shorter { IfSome result (λ x. length x.1.now ≤ length bytes.now) }
{
    let (number, rest) = bytes.split_first_chunk::<4>()?;
    Some((BigEndian::read_u32(number), rest))
}

fn u64_of(bytes: &[u8]) -> Option<(u64, &[u8])>
    ensures value { option_map (λ x. (x.0, x.1.now)) result ≡ wide_at w64 bytes.now }
    ensures shorter { IfSome result (λ x. length x.1.now ≤ length bytes.now) }
{
    let (number, rest) = bytes.split_first_chunk::<8>()?;
    Some((BigEndian::read_u64(number), rest))
}

/// Whether the bytes are UTF-8.
fn is_text(bytes: &[u8]) -> bool
    ensures { result ≡ is_utf8 bytes.now }
{
    std::str::from_utf8(bytes).is_ok()
}

#[tactic(auto, unfolding(definitions::specs::Reading::integer_at))]
#[inline(always)]
fn leading_integer(bytes: &[u8]) -> Option<(i128, &[u8])>
    ensures value { option_map (λ x. (x.0, x.1.now)) result ≡ integer_at bytes.now }
    ensures shorter { IfSome result (λ x. length x.1.now ≤ length bytes.now) }
{
    let (first, rest) = bytes.split_first()?;
    match *first {
        0x00..=0x7f => Some((i128::from(*first), rest)),
        0xe0..=0xff => Some((i128::from(*first) - 256, rest)),
        0xcc => u8_of(rest).map(|(number, rest)| (i128::from(number), rest)),
        0xcd => u16_of(rest).map(|(number, rest)| (i128::from(number), rest)),
        0xce => u32_of(rest).map(|(number, rest)| (i128::from(number), rest)),
        0xcf => u64_of(rest).map(|(number, rest)| (i128::from(number), rest)),
        0xd0 => u8_of(rest).map(|(number, rest)| (i128::from(number.cast_signed()), rest)),
        0xd1 => u16_of(rest).map(|(number, rest)| (i128::from(number.cast_signed()), rest)),
        0xd2 => u32_of(rest).map(|(number, rest)| (i128::from(number.cast_signed()), rest)),
        0xd3 => u64_of(rest).map(|(number, rest)| (i128::from(number.cast_signed()), rest)),
        _ => None,
    }
}

/// The length in the head of a text, and what stands behind the head.
#[tactic(auto, unfolding(definitions::specs::Reading::text_head_at))]
#[inline(always)]
fn text_head_of(bytes: &[u8]) -> Option<(u32, &[u8])>
    ensures value { option_map (λ x. (x.0, x.1.now)) result ≡ text_head_at bytes.now }
    ensures shorter { IfSome result (λ x. length x.1.now ≤ length bytes.now) }
{
    let (first, rest) = bytes.split_first()?;
    match *first {
        0xa0..=0xbf => Some((u32::from(*first - 0xa0), rest)),
        0xd9 => u8_of(rest).map(|(length, rest)| (u32::from(length), rest)),
        0xda => u16_of(rest).map(|(length, rest)| (u32::from(length), rest)),
        0xdb => u32_of(rest),
        _ => None,
    }
}

#[tactic(auto, unfolding(definitions::specs::Reading::text_at))]
#[inline(always)]
fn leading_text(bytes: &[u8]) -> Option<(&[u8], &[u8])>
    ensures value { option_map (λ x. (x.0.now, x.1.now)) result ≡ text_at bytes.now }
    ensures shorter { IfSome result (λ x. length x.1.now ≤ length bytes.now) }
{
    let (length, rest) = text_head_of(bytes)?;
    let length = length as usize;
    if rest.len() < length {
        return None;
    }
    let (text, rest) = rest.split_at(length);
    if is_text(text) {
        Some((text, rest))
    } else {
        None
    }
}

/// The length in the head of a bin, and what stands behind the head.
#[tactic(auto, unfolding(payload_rules::specs::Reading::bin_head_at))]
fn bin_head_of(bytes: &[u8]) -> Option<(u32, &[u8])>
    ensures value { option_map (λ x. (x.0, x.1.now)) result ≡ bin_head_at bytes.now }
    ensures shorter { IfSome result (λ x. length x.1.now ≤ length bytes.now) }
{
    let (first, rest) = bytes.split_first()?;
    match *first {
        0xc4 => u8_of(rest).map(|(length, rest)| (u32::from(length), rest)),
        0xc5 => u16_of(rest).map(|(length, rest)| (u32::from(length), rest)),
        0xc6 => u32_of(rest),
        _ => None,
    }
}

#[tactic(auto, unfolding(payload_rules::specs::Reading::bin_at))]
fn leading_bin(bytes: &[u8]) -> Option<(&[u8], &[u8])>
    ensures value { option_map (λ x. (x.0.now, x.1.now)) result ≡ bin_at bytes.now }
    ensures shorter { IfSome result (λ x. length x.1.now ≤ length bytes.now) }
{
    let (length, rest) = bin_head_of(bytes)?;
    let length = length as usize;
    if rest.len() < length {
        return None;
    }
    Some(rest.split_at(length))
}

#[tactic(auto, unfolding(definitions::specs::Reading::array_at))]
fn leading_array(bytes: &[u8]) -> Option<(u32, &[u8])>
    ensures value { option_map (λ x. (x.0, x.1.now)) result ≡ array_at bytes.now }
    ensures shorter { IfSome result (λ x. length x.1.now ≤ length bytes.now) }
{
    let (first, rest) = bytes.split_first()?;
    match *first {
        0x90..=0x9f => Some((u32::from(*first - 0x90), rest)),
        0xdc => u16_of(rest).map(|(count, rest)| (u32::from(count), rest)),
        0xdd => u32_of(rest),
        _ => None,
    }
}

/// The integer at the front, in any of its spellings, and what stands behind it.
#[inline(always)]
pub fn integer_of(bytes: &[u8]) -> Option<(i128, &[u8])>
    ensures spelled { IfSome result (λ x. BeginsWith (SpellsInteger x.0) bytes.now x.1.now) }
    ensures none { IfNone result (NoPrefix IsInteger bytes.now) }
    ensures range { IfSome result (λ x. IsSpellable x.0) }
    ensures value { option_map (λ x. (x.0, x.1.now)) result ≡ integer_at bytes.now }
    ensures shorter { IfSome result (λ x. length x.1.now ≤ length bytes.now) }
{
    leading_integer(bytes)
}

/// The text at the front, in any of its spellings, and what stands behind it.
#[inline(always)]
pub fn text_of(bytes: &[u8]) -> Option<(&[u8], &[u8])>
    ensures spelled { IfSome result (λ x. BeginsWith (SpellsText x.0.now) bytes.now x.1.now) }
    ensures none { IfNone result (NoPrefix IsText bytes.now) }
    ensures utf8 { IfSome result (λ x. IsUtf8 x.0.now) }
    ensures short { IfSome result (λ x. length x.0.now < 2 ^ 32) }
    ensures value { option_map (λ x. (x.0.now, x.1.now)) result ≡ text_at bytes.now }
    ensures shorter { IfSome result (λ x. length x.1.now ≤ length bytes.now) }
{
    leading_text(bytes)
}

/// The number of items in the header of an array at the front, in any of its spellings, and what stands behind it.
pub fn array_of(bytes: &[u8]) -> Option<(u32, &[u8])>
    ensures spelled { IfSome result (λ x. BeginsWith (SpellsArray x.0) bytes.now x.1.now) }
    ensures none { IfNone result (NoPrefix IsArray bytes.now) }
    ensures value { option_map (λ x. (x.0, x.1.now)) result ≡ array_at bytes.now }
    ensures shorter { IfSome result (λ x. length x.1.now ≤ length bytes.now) }
{
    leading_array(bytes)
}

/// What the bin at the front holds, in any of its spellings, and what stands behind it.
pub fn bin_of(bytes: &[u8]) -> Option<(&[u8], &[u8])>
    ensures spelled { IfSome result (λ x. BeginsWith (SpellsBin x.0.now) bytes.now x.1.now) }
    ensures none { IfNone result (NoPrefix IsBin bytes.now) }
    ensures value { option_map (λ x. (x.0.now, x.1.now)) result ≡ bin_at bytes.now }
    ensures shorter { IfSome result (λ x. length x.1.now ≤ length bytes.now) }
{
    leading_bin(bytes)
}

/// The number at the front that isn't negative, in any of its spellings, and what stands behind it.
#[tactic(auto, unfolding(crate::specs::Reading::number_at))]
#[inline(always)]
fn number_of(bytes: &[u8]) -> Option<(u64, &[u8])>
    ensures value { option_map (λ x. (x.0, x.1.now)) result ≡ number_at bytes.now }
    ensures shorter { IfSome result (λ x. length x.1.now ≤ length bytes.now) }
{
    let (value, rest) = integer_of(bytes)?;
    if value < 0 {
        None
    } else {
        Some((value as u64, rest))
    }
}

#[tactic(auto, unfolding(crate::specs::Reading::nil_or_at))]
#[inline(always)]
fn leading_nil_or_u64(bytes: &[u8]) -> Option<(Option<u64>, &[u8])>
    ensures value { option_map (λ x. (x.0, x.1.now)) result ≡ nil_or_at number_at bytes.now }
    ensures shorter { IfSome result (λ x. length x.1.now ≤ length bytes.now) }
{
    let (first, rest) = bytes.split_first()?;
    if *first == NIL {
        return Some((None, rest));
    }
    let (number, rest) = number_of(bytes)?;
    Some((Some(number), rest))
}

#[tactic(auto, unfolding(crate::specs::Reading::nil_or_at))]
fn leading_nil_or_text(bytes: &[u8]) -> Option<(Option<&[u8]>, &[u8])>
    ensures value { option_map (λ x. (option_map (λ t. t.now) x.0, x.1.now)) result ≡ nil_or_at text_at bytes.now }
    ensures shorter { IfSome result (λ x. length x.1.now ≤ length bytes.now) }
{
    let (first, rest) = bytes.split_first()?;
    if *first == NIL {
        return Some((None, rest));
    }
    let (text, rest) = leading_text(bytes)?;
    Some((Some(text), rest))
}

/// Nil, or the number at the front that isn't negative, in any of its spellings, and what stands behind it.
#[inline(always)]
pub fn nil_or_u64_of(bytes: &[u8]) -> Option<(Option<u64>, &[u8])>
    ensures spelled { IfSome result (λ x. BeginsWith (SpellsNilOr SpellsNumber x.0) bytes.now x.1.now) }
    ensures none { IfNone result (NoPrefix (IsNilOr SpellsNumber) bytes.now) }
    ensures value { option_map (λ x. (x.0, x.1.now)) result ≡ nil_or_at number_at bytes.now }
    ensures shorter { IfSome result (λ x. length x.1.now ≤ length bytes.now) }
{
    leading_nil_or_u64(bytes)
}

/// Nil, or the text at the front, in any of its spellings, and what stands behind it.
pub fn nil_or_text_of(bytes: &[u8]) -> Option<(Option<&[u8]>, &[u8])>
    ensures spelled { IfSome result (λ x. BeginsWith (SpellsNilOr SpellsText (option_map (λ t. t.now) x.0)) bytes.now x.1.now) }
    ensures none { IfNone result (NoPrefix (IsNilOr SpellsText) bytes.now) }
    ensures text { IfSome result (λ x. IfSome x.0 (λ t. TextFits t.now)) }
    ensures value { option_map (λ x. (option_map (λ t. t.now) x.0, x.1.now)) result ≡ nil_or_at text_at bytes.now }
    ensures shorter { IfSome result (λ x. length x.1.now ≤ length bytes.now) }
{
    leading_nil_or_text(bytes)
}
