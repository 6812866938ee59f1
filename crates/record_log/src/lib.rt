//! The log over a disk: a journal that a crash at any moment leaves as it was, with every batch that was acknowledged and at
//! most the one under way.
//!
//! A [`RecordLog`] is a disk, the host that its header names, and the offset of the closed gate at its end. A batch is made
//! [`Ready`] and then appended: its bytes and a new closed gate are written behind that gate and synced, and then the gate is
//! opened and synced. So one byte decides whether the batch counts. Where the second half fails the batch is in doubt: a crash
//! may leave it or not, and nothing else can be appended before it is settled, by opening the gate once more.
//!
//! Contracts see a log as its disk, its host, its gate and what is in doubt; `HasJournal` says that a crash now leaves that
//! journal alone, and `HasDoubt` that it leaves the journal with the batch in doubt or without it. Both, and what a call
//! leaves at each moment, hold where the disk tells; over any other disk each call is safe and gives its named answers.
//!
//! A batch that was appended stands at a [`Spot`], from which its events are read back, and batches are read one behind the other
//! by the offsets of their gates. Bytes there that are no such batch can come only from a disk that doesn't tell; they are
//! answered as a fault of that disk, which counts it. The laws of [`walk_begins`] and its kin say that such a walk, from the
//! first gate to the closed one, meets the events of the journal, each once and in order.
//!
//! A log that stands on a disk is opened by a sync and a walk over its batches, each of which is checked; a disk that shows no
//! sound log is refused, with the cause. A log in the old form, without digests, is opened as an [`OldLog`], which is only read;
//! [`copy_log`] appends its batches to a new log, one by one, which then stands for the same journal.
//!
//! Stands on `at_edge` for disks, `log_format` for bytes, `log_check` for the walk, and the words of `log_rules` and
//! `crash_rules`.
#![tactic(auto)]

mod copying;
mod create;
mod halves;
mod headers;
mod laws;
mod old_log;
mod opening;
mod reading;
mod ready;
mod record_log;
mod spots;

pub use copying::{CopyFail, copy_log};
pub use create::CreateFail;
pub use laws::{walk_begins, walk_ends, walk_goes_on, walk_is_at_a_gate};
pub use old_log::{OldFail, OldLog};
pub use opening::OpenFail;
pub use reading::ReadFail;
pub use ready::Ready;
pub use record_log::RecordLog;
pub use spots::Spot;

#[cfg(test)]
mod copy_tests;
#[cfg(test)]
mod tests;
