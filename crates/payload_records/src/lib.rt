//! Payloads sealed as the next record of a chain.
//!
//! A payload decides its record's tag and version ([`tag_of`], [`version_of`]) and, whatever the key and the host, its
//! weight ([`weight`]), which is told before anything is drawn or sealed. [`seal_payload`] makes the record of a
//! [`Stamp`]: its id, its place in the host's chain, and its time.
//!
//! Contracts are told in the words of `step_rules` for the store of a host under a key: the record is the one that such
//! a store makes of the payload (`record_for`), it is within the limits of a record, and it opens to the payload again.
//!
//! Stands on `record_seal` for seals, on `payload_forms` for the bytes of payloads, and on `record_model` for records.
#![tactic(auto)]

mod fitting;
mod kinds;
mod sealing;
mod weighing;

pub use kinds::{tag_of, version_of};
pub use sealing::{Stamp, seal_payload};
pub use weighing::weight;

#[cfg(test)]
mod tests;
