//! Checking a log that stands on a disk, from its header to its closed gate.
//!
//! A batch's body is read in pieces, and each event is checked as soon as its bytes are there and dropped then, so that no
//! more than a piece and an event is kept, beside what the next entry is checked by. A batch is good where its length, its
//! body, its digest and the next gate lie inside the file, the digest is that of the body, the body is one of the grammar,
//! and the journal is sound with it. [`find_closed_gate`] answers the offset of the closed gate, or of the first batch that is
//! no good one: its contract says `IsLogPrefix` and `DamagedAt` of what the disk shows, in either form of a log.
//!
//! Stands on `at_edge` for disks, `log_format` for bodies, `journal_check` for soundness, and the words of `log_rules`.
#![tactic(auto)]

mod batch_check;
mod body_check;
mod checking;
mod forms;
mod walk;

pub use forms::LogForm;
pub use walk::{WalkFail, find_closed_gate};

#[cfg(test)]
mod tests;
