//! What a store keeps of its journal beside the log, all of it told by one list of entries with their spots.
//!
//! An [`EntryTable`] keeps of each entry whose call it came by and where it stands in the log, and an index of the places of
//! their records. [`Tables`] are that and what the entries show. Room for a [`Batch`] is made with memory
//! ([`Tables::ready`]), and the batch is added without ([`Tables::add`]): so nothing can fail once it is on the disk. A room
//! that is never used shows nowhere.
//!
//! Contracts say by `TablesOf` of which host, key and entries tables are. What may be added is told by the rules of the
//! journal alone: events with which it is sound.
//!
//! Stands on `chain_index` for the index, on `kept_views` for what events show, and on `record_log` for spots.
#![tactic(auto)]

mod entries;
mod indexing;
mod tables;

pub use entries::{EntryTable, KeptEntry};
pub use tables::{Batch, Tables};

#[cfg(test)]
mod tests;
