//! Where the records of a journal stand, and what each owner holds.
//!
//! A [`ChainIndex`] is told of a log's entries one by one, and keeps no text of them but tags: for each owner, host and
//! tag the ids of the chain's records with the spots of their batches, for each owner what counts against its limits, and
//! the ids of all records. The maps are ordered, so that a status is read off them.
//!
//! A record is made room for with memory ([`ChainIndex::reserve`]) and added without ([`ChainIndex::add_reserved`]), so
//! that nothing can fail once its batch is on the disk. A room that is never used shows nowhere, and no later call undoes
//! one that is ready.
//!
//! Contracts say by `IsIndexOf` of which entries it is, each with its spot and its number in the batch; what the calls
//! answer is then told in the words of `record_rules` over the journal of those entries: `chain`, `held`, `status`.
//!
//! Stands on `record_model` for records and chains, and on `record_log` for spots.
#![tactic(auto)]

mod ids;
mod index;
mod links;
mod others;
mod owner;
mod tags;

pub use index::{ChainIndex, IndexRoom};
pub use links::Link;
pub use owner::Held;

#[cfg(test)]
mod tests;
