//! Calls, read from the payloads that spell them.

ghost use Rattle.std.specs.Prelude.{◌≡◌, ◌≤◌, ◌+◌, pos, length, IfOk};
ghost use Rattle.definitions.specs.Limits.{most_payload_bytes};
ghost use Rattle.definitions.specs.Reading.{integer_at, array_at, item_at, is_call_length, is_call_number};
ghost use Rattle.request_rules.specs.Requests.{call_kinds};
ghost use Rattle.step_rules.specs.Calls.{CallFits};
ghost use Rattle.model_words.specs.Seen.{call_seen};
ghost use Rattle.daemon_wire.specs.Names.{number_of, kinds_named};
ghost use Rattle.daemon_wire.specs.Reading.{Gives, GivesCall};
ghost use Rattle.daemon_wire.specs.Calls.{IsRead};

use crate::calls::arguments;
use crate::fail::CallFail;
use crate::names::{CallName, call_numbered};
use msgpack_fields::{Reader, Wrong};
use record_model::Call;
use std::alloc::Global;

/// Reads the payload of a request, of at most 1,048,576 bytes, to its last byte.
///
/// # Errors
///
/// - [`CallFail::BadRequest`] exactly where the payload spells no call, with the place of the first item that is wrong:
///   the header of the array (1 to 8 items), then the number (1 to 13), then the header again, at place 0, where the
///   array's length doesn't fit the call, then each argument (its kind, range or digits), then the first byte behind the
///   call. An item that is cut is wrong at its first byte;
/// - [`CallFail::NoMemory`], only for a payload that spells a call.
pub fn read_call(alloc: Global, payload: &[u8]) -> Result<Call, CallFail>
    requires short { length payload.now ≤ most_payload_bytes }
    ensures read { IsRead payload.now result }
    ensures fits { IfOk result (λ call. CallFits (call_seen call)) }
{
    call_in(alloc, payload)
}

#[tactic(auto, unfolding(definitions::specs::Reading::call_at))]
fn call_in(alloc: Global, payload: &[u8]) -> Result<Call, CallFail>
    ensures { GivesCall payload.now result }
{
    let mut reader = Reader::new(payload);
    let count = call_length(&mut reader)?;
    let (name, items) = call_name(&mut reader)?;
    if count != items {
        return Err(CallFail::BadRequest { place: 0 });
    }
    arguments(alloc, name, &mut reader)
}

/// The header of a call's array, which has 1 to 8 items.
fn call_length(reader: &mut Reader<'_>) -> Result<u32, Wrong>
    ensures { Gives (λ n. n) reader.old reader.new result (item_at (array_at reader.old.rest) is_call_length reader.old.rest) }
{
    let place = reader.place();
    let count = reader.array()?;
    if count < 1 || count > 8 {
        return Err(Wrong { place });
    }
    Ok(count)
}

/// The number of a call: which call it is, and how many items its array has.
fn call_name(reader: &mut Reader<'_>) -> Result<(CallName, u32), Wrong>
    ensures read { Gives (λ call. pos (number_of call.0)) reader.old reader.new result (item_at (integer_at reader.old.rest) (is_call_number call_kinds) reader.old.rest) }
    ensures items { IfOk result (λ call. call.1 ≡ 1 + length (kinds_named call.0)) }
{
    let place = reader.place();
    match call_numbered(reader.int()?) {
        Some(call) => Ok(call),
        None => Err(Wrong { place }),
    }
}
