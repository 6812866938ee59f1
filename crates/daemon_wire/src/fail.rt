//! Why a payload gave no call.

use msgpack_fields::Wrong;
use plain_types::NoMemory;

/// Why a payload gave no call.
#[derive(Clone, Copy, Debug, PartialEq, Eq)]
pub enum CallFail {
    /// The payload spells no call. Read from the left, its first wrong item has its first byte at `place`, from 0.
    BadRequest { place: u32 },
    /// The payload spells a call, and there was no memory for its texts.
    NoMemory,
}

impl From<Wrong> for CallFail {
    ghost use Rattle.std.specs.Prelude.{◌≡◌};
    ghost use Rattle.daemon_wire.specs.Fails.{in_four_bytes};
    ghost use Rattle.daemon_wire.specs.declared.fail.CallFail.TheVariants.{BadRequest as bad_request};

    ghost from_gives = { λ wrong fail. fail ≡ bad_request (in_four_bytes wrong.place) };

    /// A payload is far shorter than 2^32 bytes, and so is the place of each of its items.
    fn from(wrong: Wrong) -> CallFail {
        CallFail::BadRequest {
            place: u32::try_from(wrong.place).unwrap_or(u32::MAX),
        }
    }
}

impl From<NoMemory> for CallFail {
    ghost use Rattle.std.specs.Prelude.{◌≡◌};
    ghost use Rattle.daemon_wire.specs.declared.fail.CallFail.TheVariants.{NoMemory as no_memory};

    ghost from_gives = { λ _ fail. fail ≡ no_memory };

    fn from(_error: NoMemory) -> CallFail {
        CallFail::NoMemory
    }
}
