//! Pages of a chain's records, read back from a log.
//!
//! The index of a log's entries tells where each record of a chain stands, and [`read_page`] reads them one by one,
//! from an idx on, until there are as many as were asked for or a page may hold. Nothing of the log or the index
//! changes.
//!
//! Contracts are told in the words of `record_rules`, for the journal of whatever entries the index is of that stand
//! on the log's disk: what is read is its `page`. Over a disk that doesn't tell the call is safe, and each fault that it
//! answers was counted.
//!
//! Stands on `record_log` for the log, and on `chain_index` for where its records stand.
#![tactic(auto)]

mod reading;

pub use reading::read_page;

#[cfg(test)]
mod tests;
