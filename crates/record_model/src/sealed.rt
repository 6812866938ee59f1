//! Records as they are kept and sent: sealed, with what tells where they stand.

ghost use Rattle.std.specs.Prelude.{◌≡◌, ◌<◌, ◌^◌, IfOk};
ghost use Rattle.record_rules.specs.Records.{record_weight};
ghost use Rattle.record_model.specs.Seen.{record_seen};

use plain_types::{NoMemory, Text};
use std::alloc::Global;

/// What a record or a command that was begun weighs beside its texts, in bytes.
pub(crate) const FIXED_WEIGHT: u64 = 128;

/// A sealed record.
#[derive(Debug, Drop)]
pub struct Record {
    /// Its own id, a UUID of version 7.
    pub id: u128,
    /// Its index in the chain of its host and tag, from 0.
    pub idx: u64,
    /// The id of the host that made it.
    pub host: u128,
    /// The name of that host, which may be empty.
    pub host_name: Text,
    /// When it was made, in nanoseconds since 1970 began, in UTC.
    pub timestamp: u64,
    /// The version of what it holds: `v0` or `v1`, or what another program wrote.
    pub version: Text,
    /// What it holds: `history`, `kv`, or what another program wrote.
    pub tag: Text,
    /// What it holds, sealed with a key of its own.
    pub sealed: Text,
    /// That key, wrapped with the store's.
    pub wrapped: Text,
}

impl Record {
    /// What it weighs, in bytes: 128 and the lengths of host name, version, tag, sealed and wrapped text. It takes no
    /// memory.
    pub fn weight(&self) -> u64
        ensures value { result ≡ record_weight (record_seen self.now) }
        ensures below { result < 2 ^ 35 }
    {
        FIXED_WEIGHT
            + self.host_name.len() as u64
            + self.version.len() as u64
            + self.tag.len() as u64
            + self.sealed.len() as u64
            + self.wrapped.len() as u64
    }

    /// An equal value.
    ///
    /// # Errors
    ///
    /// [`NoMemory`].
    pub fn copy(&self, alloc: Global) -> Result<Record, NoMemory>
        ensures { IfOk result (λ r. r ≡ self.now) }
    {
        Ok(Record {
            id: self.id,
            idx: self.idx,
            host: self.host,
            host_name: self.host_name.copy(alloc)?,
            timestamp: self.timestamp,
            version: self.version.copy(alloc)?,
            tag: self.tag.copy(alloc)?,
            sealed: self.sealed.copy(alloc)?,
            wrapped: self.wrapped.copy(alloc)?,
        })
    }
}
