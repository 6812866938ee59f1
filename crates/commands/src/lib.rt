//! What each command of the program does, over the outside that is handed in.
//!
//! [`init`] makes the log of a new host on an empty disk; [`migrate`] copies a log in the old form to a new one on a second
//! disk. Each command hands the disks back as they then are, and says how it ended; its `Status` is what the system is told
//! of that.
//!
//! Promise: for each end the contract says what it comes from and what then stands on the disks, what was printed, and what
//! was drawn and read.
//!
//! Stands on `record_log` for logs, on `printing` for what is printed, on `statuses`, and on `at_edge` for
//! the outside.
#![tactic(auto)]

mod initializing;
mod migrating;

pub use initializing::{Initialized, init};
pub use migrating::{MigrateFail, Migrated, migrate};

#[cfg(test)]
mod tests;
