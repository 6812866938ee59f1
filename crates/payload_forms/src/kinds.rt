//! The kinds of payloads.

ghost use Rattle.std.specs.Prelude.{◌≡◌};
ghost use Rattle.payload_rules.specs.Payloads as rules;
ghost use Rattle.payload_forms.specs.Seen.{payload_seen, version_number};

use msgpack_fields::Wrong;
use plain_types::{NoMemory, Text};
use record_model::History;

/// What a record holds once it is opened.
#[derive(Debug, Drop)]
pub enum Payload {
    /// A command ended. Tag `history`.
    HistoryCreate(History),
    /// The command with this id is deleted. Tag `history`.
    HistoryDelete(u128),
    /// The key of the namespace has this value. Tag `kv`.
    KvSet {
        namespace: Text,
        key: Text,
        value: Text,
    },
    /// The key of the namespace has no value. Tag `kv`.
    KvDelete {
        namespace: Text,
        key: Text,
    },
    /// The name stands for this value. Tag `dotfiles-shell-alias`.
    AliasSet {
        name: Text,
        value: Text,
    },
    /// The name stands for nothing. Tag `dotfiles-shell-alias`.
    AliasDelete {
        name: Text,
    },
}

/// Why bytes were not read as a payload.
#[derive(Clone, Copy, Debug, PartialEq, Eq)]
pub enum PayloadFail {
    /// They spell no payload under this tag and version.
    Unread,
    /// Memory was wanted and there was none.
    NoMemory,
}

impl From<Wrong> for PayloadFail {
    ghost use Rattle.std.specs.Prelude.{◌≡◌};
    ghost use Rattle.payload_forms.specs.declared.kinds.PayloadFail.TheVariants.{Unread as unread};

    ghost from_gives = { λ _ fail. fail ≡ unread };

    fn from(_wrong: Wrong) -> PayloadFail {
        PayloadFail::Unread
    }
}

impl From<NoMemory> for PayloadFail {
    ghost use Rattle.std.specs.Prelude.{◌≡◌};
    ghost use Rattle.payload_forms.specs.declared.kinds.PayloadFail.TheVariants.{NoMemory as no_memory};

    ghost from_gives = { λ _ fail. fail ≡ no_memory };

    fn from(_error: NoMemory) -> PayloadFail {
        PayloadFail::NoMemory
    }
}

/// The version in which a payload is written: 1, `v1`, for a command with an author and for a key without a value; else
/// 0, `v0`. It takes no memory.
pub fn payload_version(payload: &Payload) -> u8
    ensures { result ≡ version_number (rules.payload_version (payload_seen payload.now)) }
{
    match payload {
        Payload::HistoryCreate(history) => author_version(history),
        Payload::KvDelete { .. } => 1,
        Payload::HistoryDelete(_)
        | Payload::KvSet { .. }
        | Payload::AliasSet { .. }
        | Payload::AliasDelete { .. } => 0,
    }
}

fn author_version(history: &History) -> u8
    ensures { result ≡ version_number (rules.author_version history.now.author) }
{
    match history.author {
        Some(_) => 1,
        None => 0,
    }
}
