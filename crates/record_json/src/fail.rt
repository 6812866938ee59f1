//! Why bytes were not read.

ghost use Rattle.std.specs.Prelude.{◌≡◌};
ghost use Rattle.record_json.specs.Fail.{memory_wanted};

use plain_types::NoMemory;

/// Why bytes were not read.
#[derive(Clone, Copy, Debug, PartialEq, Eq)]
pub enum JsonFail {
    /// They are no JSON.
    NotJson,
    /// They are JSON that isn't of the form: the item at this place, from 0, is the first wrong one; 0 where there are no
    /// items.
    NotRecords { position: u32 },
    /// Memory was wanted and there was none.
    NoMemory,
}

impl From<NoMemory> for JsonFail {
    ghost from_gives = { λ e f. f ≡ memory_wanted };

    fn from(_error: NoMemory) -> JsonFail {
        JsonFail::NoMemory
    }
}
