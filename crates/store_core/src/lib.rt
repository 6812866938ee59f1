//! The store: a log, and what is kept beside it of the journal that the log means.
//!
//! It is made on an empty disk ([`Store::create`]), or opened on one that has a log: its batches are read once more, and
//! what they say is kept ([`Store::open_on`]).
//!
//! A batch comes to the disk on one path: what is in doubt is settled ([`Store::settle`]), room is made for all that the
//! batch adds ([`Store::ready`]), and it is committed ([`Store::commit`]). So all memory is taken before the batch's own
//! first write, and nothing can fail behind its last sync.
//!
//! A call is one turn ([`Store::ask`]). What only asks is answered from what is kept. A writing call is drafted, its command
//! starts or its payload is recorded, and it is committed on that path.
//!
//! Contracts say by `IsStoreOf` what a store means: a journal, each of whose entries the log's disk shows where it is said
//! to stand, and the entries in doubt behind it.
//!
//! Stands on `record_log` for the log, on `store_tables` for what is kept, on `call_drafts`, `payload_records` and
//! `call_answers` for what calls add and show, and on `page_growth` and `page_reading` for pages of records.
#![tactic(auto)]

mod answering;
mod asking;
mod committing;
mod opening;
mod pages;
mod recording;
mod starting;
mod store;
mod writing;

pub use pages::TakeFail;
pub use record_log::{CreateFail, OpenFail, ReadFail};
pub use store::Store;

#[cfg(test)]
mod asking_tests;
#[cfg(test)]
mod opening_tests;
#[cfg(test)]
mod recording_tests;
#[cfg(test)]
mod tests;
