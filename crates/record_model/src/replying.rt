//! What a client is answered.

use crate::ended::Histories;
use crate::names::{NamedTexts, Texts};
use crate::places::Chains;
use plain_types::{NoMemory, Text};

/// The answer to a call that was not refused.
#[derive(Debug, Drop)]
pub enum Answer {
    /// The command runs under this id.
    Begun { id: u128 },
    /// The record was stored at this index of its chain, counted from 0.
    Stored { idx: u64 },
    /// The commands that a search shows, in its order.
    Hits(Histories),
    /// The value of a key, if it has one.
    Value(Option<Text>),
    /// Keys of a namespace, in the order of their bytes.
    Names(Texts),
    /// Aliases with their values, in the order of the names' bytes.
    Aliases(NamedTexts),
    /// The chains that aren't empty, in the order of host, then tag.
    Places(Chains),
}

/// Why a call was refused. A refused call adds nothing of its own.
#[derive(Debug, Drop)]
pub enum Refusal {
    /// The argument of the number `field`, from 1, has `length` bytes, more than it may have.
    TooLong { field: u8, length: u64 },
    /// No running command has this id, or no shown one where a command is deleted.
    UnknownId { id: u128 },
    /// No alias has this name, or no value stands under this key.
    UnknownName { name: Text },
    /// A limit of the owner would be passed: of entries (`what` is 1), of their weight in bytes (2) or of chains (3).
    /// So much of it is held.
    Full { what: u8, held: u64 },
    /// No random bytes could be drawn.
    RandFault,
    /// A command was begun, or a record stands, under the id that was drawn.
    IdTaken { id: u128 },
    /// The disk failed.
    DiskFault,
    /// Memory was wanted and there was none.
    NoMemory,
}

impl From<NoMemory> for Refusal {
    ghost use Rattle.std.specs.Prelude.{◌≡◌};
    ghost use Rattle.record_model.specs.declared.replying.Refusal.TheVariants.{NoMemory as no_memory};

    ghost from_gives = { λ _ refusal. refusal ≡ no_memory };

    fn from(_error: NoMemory) -> Refusal {
        Refusal::NoMemory
    }
}

/// The reply to a call.
#[derive(Debug, Drop)]
pub struct Reply {
    /// The number of entries that the journal had when the call was answered, its own entries counted.
    pub front: u64,
    pub result: Result<Answer, Refusal>,
}
