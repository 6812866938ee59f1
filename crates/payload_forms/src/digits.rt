//! The digits of a command's id. Half the bytes of a short payload are these, so each is looked at once, where
//! `record_model` tests them all before it decodes them.

ghost use Rattle.std.specs.Prelude.{◌≡◌, ◌<◌, length, true, false, Some, None, IfSome, MatchOption, if◌then◌else◌};
ghost use Rattle.std.specs.Char.{digit_value};
ghost use Rattle.std.specs.List.{list_all};
ghost use Rattle.definitions.specs.Reading.{is_lower_hex, is_id_text, id_value};

/// Half the number of digits of a command's id: so many write a number of 64 bits.
const HALF: usize = 16;

/// What a hexadecimal digit in lower case counts.
fn digit_value(byte: u8) -> Option<u8>
    ensures value { MatchOption result (is_lower_hex byte ≡ false) (λ value. (is_lower_hex byte ≡ true) × (value ≡ digit_value byte)) }
    ensures below { IfSome result (λ value. value < 16) }
{
    match byte {
        b'0'..=b'9' => Some(byte - b'0'),
        b'a'..=b'f' => Some(byte - b'a' + 10),
        _ => None,
    }
}

/// The number that so many digits write, if all are in lower case.
fn half_value(digits: &[u8]) -> Option<u64>
    requires { length digits.now ≡ 16 }
    ensures { MatchOption result (list_all is_lower_hex digits.now ≡ false) (λ value. (list_all is_lower_hex digits.now ≡ true) × (value ≡ id_value digits.now)) }
{
    let mut value: u64 = 0;
    for digit in digits {
        value = value * 16 + u64::from(digit_value(*digit)?);
    }
    Some(value)
}

/// The id of a command that prints so, if one does.
pub(crate) fn id_of(text: &[u8]) -> Option<u128>
    ensures { result ≡ (if is_id_text text.now then Some (id_value text.now) else None) }
{
    if text.len() != 2 * HALF {
        return None;
    }
    let (front, back) = text.split_at(HALF);
    let high = half_value(front)?;
    let low = half_value(back)?;
    Some(u128::from(high) * (1 << 64) + u128::from(low))
}
