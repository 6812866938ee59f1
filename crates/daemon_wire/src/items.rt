//! The items of a payload, read one after another.

ghost use Rattle.std.specs.Prelude.{◌≡◌, ℕ, ℤ, pos, ◌<◌, ◌≤◌, ◌^◌, length, IfOk};
ghost use Rattle.std.specs.Str.{IsUtf8};
ghost use Rattle.definitions.specs.Calls.{a_text, an_integer, any_text, id_digits, signed_64, from_to};
ghost use Rattle.definitions.specs.Ids.{id_text};
ghost use Rattle.definitions.specs.Reading.{argument_at, id_value};
ghost use Rattle.daemon_wire.specs.Reading.{Gives};

use msgpack_fields::{Reader, Wrong};
use record_model::read_history_id;

/// A text, as a part of the payload.
#[tactic(auto, unfolding(definitions::specs::Reading::argument_at))]
pub(crate) fn text<'a>(reader: &mut Reader<'a>) -> Result<&'a [u8], Wrong>
    ensures read { Gives (λ t. a_text t.now) reader.old reader.new result (argument_at any_text reader.old.rest) }
    ensures utf8 { IfOk result (λ t. IsUtf8 t.now) }
    ensures short { IfOk result (λ t. length t.now < 2 ^ 32) }
{
    reader.text()
}

/// An id, from its 32 digits.
#[tactic(auto, unfolding(definitions::specs::Reading::argument_at))]
pub(crate) fn id(reader: &mut Reader<'_>) -> Result<u128, Wrong>
    ensures read { Gives (λ id. a_text (id_text id)) reader.old reader.new result (argument_at id_digits reader.old.rest) }
    ensures fits { IfOk result (λ id. id < 2 ^ 128) }
    ensures value { IfOk result (λ id. id_value (id_text id) ≡ id) }
{
    let place = reader.place();
    let digits = reader.text()?;
    match read_history_id(digits) {
        Some(id) => Ok(id),
        None => Err(Wrong { place }),
    }
}

/// An integer of 64 bits with a sign.
#[tactic(auto, unfolding(definitions::specs::Reading::argument_at))]
pub(crate) fn signed(reader: &mut Reader<'_>) -> Result<i64, Wrong>
    ensures { Gives (λ z. an_integer z) reader.old reader.new result (argument_at signed_64 reader.old.rest) }
{
    let place = reader.place();
    let value = reader.int()?;
    match i64::try_from(value) {
        Ok(value) => Ok(value),
        Err(_) => Err(Wrong { place }),
    }
}

/// A number from `low` to `high`.
#[tactic(auto, unfolding(definitions::specs::Reading::argument_at))]
pub(crate) fn number(reader: &mut Reader<'_>, low: u32, high: u32) -> Result<u32, Wrong>
    ensures { Gives (λ n. an_integer (pos n)) reader.old reader.new result (argument_at (from_to low high) reader.old.rest) }
{
    let place = reader.place();
    let value = reader.int()?;
    if value < i128::from(low) || value > i128::from(high) {
        return Err(Wrong { place });
    }
    Ok(value as u32)
}
