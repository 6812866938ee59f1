//! What the program prints: the hits of a search, the chains of a status, and how many entries a log had that was moved
//! over.
//!
//! The model is the bytes: `specs/Lines` says each line. A printed text stands on one line and in one column, whatever
//! bytes it has, since a backslash, a TAB, a LF and a CR are told by a backslash and a letter; so a line can be cut at its
//! TABs, and nothing is lost. A time is told in UTC, in whole seconds.
//!
//! Stands on `record_model` for commands and chains, and on the kit's `jiff` for the calendar.
#![tactic(auto)]

mod chains;
mod escapes;
mod hits;
mod moved;
mod times;

pub use chains::chains_text;
pub use hits::hits_text;
pub use moved::entries_text;

#[cfg(test)]
mod tests;
