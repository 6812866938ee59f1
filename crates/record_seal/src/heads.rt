//! What a payload is sealed to, and what it is sealed into.

use plain_types::Text;

/// What a record says in the open, to which its payload is bound.
#[derive(Debug, Drop)]
pub struct Head {
    /// The record's own id.
    pub id: u128,
    /// Its index in the chain of its host and tag, from 0.
    pub idx: u64,
    /// The version of the payload, `v0` or `v1`.
    pub version: Text,
    /// What the payload is of: `history`, `kv` or `dotfiles-shell-alias`.
    pub tag: Text,
    /// The id of the host that makes the record.
    pub host: u128,
}

/// A sealed payload.
#[derive(Debug, Drop)]
pub struct Sealed {
    /// The token of the payload under a content key.
    pub sealed: Text,
    /// The key text: that content key, wrapped under the key, and the key's id.
    pub wrapped: Text,
}
