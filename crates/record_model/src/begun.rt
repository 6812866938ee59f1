//! Commands that were begun.

ghost use Rattle.std.specs.Prelude.{◌≡◌, ◌<◌, ◌^◌, IfOk};
ghost use Rattle.record_rules.specs.Records.{started_weight};
ghost use Rattle.record_model.specs.Seen.{started_seen};

use crate::sealed::FIXED_WEIGHT;
use plain_types::{NoMemory, Text};
use std::alloc::Global;

/// A command that was begun.
#[derive(Debug, Drop)]
pub struct Started {
    /// The id under which it runs.
    pub id: u128,
    /// When it began, in nanoseconds since 1970 began, in UTC.
    pub timestamp: u64,
    pub command: Text,
    /// The working directory.
    pub cwd: Text,
    pub session: Text,
    pub hostname: Text,
}

impl Started {
    /// What it weighs, in bytes: 128 and the lengths of its four texts. It takes no memory.
    pub fn weight(&self) -> u64
        ensures value { result ≡ started_weight (started_seen self.now) }
        ensures below { result < 2 ^ 35 }
    {
        FIXED_WEIGHT
            + self.command.len() as u64
            + self.cwd.len() as u64
            + self.session.len() as u64
            + self.hostname.len() as u64
    }

    /// An equal value.
    ///
    /// # Errors
    ///
    /// [`NoMemory`].
    pub fn copy(&self, alloc: Global) -> Result<Started, NoMemory>
        ensures { IfOk result (λ s. s ≡ self.now) }
    {
        Ok(Started {
            id: self.id,
            timestamp: self.timestamp,
            command: self.command.copy(alloc)?,
            cwd: self.cwd.copy(alloc)?,
            session: self.session.copy(alloc)?,
            hostname: self.hostname.copy(alloc)?,
        })
    }
}
