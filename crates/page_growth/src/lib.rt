//! Whether a page of records may be taken for an owner, before anything is written.
//!
//! [`check_page`] goes over a page record by record, beside a [`ChainIndex`] and never in it, and tells which records are
//! fresh, so that they are appended, or why the page is refused as a whole. [`limit_passed`] tells the first limit
//! that one more entry of an owner would pass.
//!
//! Contracts are told in the words of `record_rules`, for the journal of whatever entries the index is of: `grow` for a
//! page, `limit_passed` for a limit. A page takes memory for a mark a record alone.
//!
//! Stands on `chain_index` for the journal, and on `record_model` for records.
//!
//! [`ChainIndex`]: chain_index::ChainIndex
#![tactic(auto)]

mod earlier;
mod limits;
mod pages;

pub use limits::{PassedLimit, limit_passed};
pub use pages::{PageFail, PageRefusal, check_page};

#[cfg(test)]
mod tests;
