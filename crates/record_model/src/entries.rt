//! Entries of a journal: what one says, and whose call it came by.

use crate::begun::Started;
use crate::sealed::Record;

/// Whose call an entry came by. An entry that was read when its log was opened has three zeros, since callers aren't
/// stored.
#[derive(Clone, Copy, Debug, PartialEq, Eq)]
pub struct Caller {
    /// The number of the pass that made the call, from 1; 0 where the entry was settled in another pass's call.
    pub number: u32,
    /// The number of the call in its pass.
    pub call: u64,
    /// The number of the pass for which a commit in doubt was settled, or 0.
    pub settled_for: u32,
}

/// What an entry says.
#[derive(Debug, Drop)]
pub enum Event {
    /// A command was begun here.
    Started(Started),
    /// This store made a record, which may close a command that was begun under the id `closes`.
    Local { rec: Record, closes: Option<u128> },
    /// A record was taken in for an owner.
    Taken { owner: u32, rec: Record },
}

/// One entry of a journal.
#[derive(Debug, Drop)]
pub struct Entry {
    pub caller: Caller,
    pub event: Event,
}
