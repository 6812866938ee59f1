//! A store that many callers share, each by a pass of its own, in whatever threads they run.
//!
//! The store is the book of a lock ([`SharedStore`]): each call takes the turn of its pass, asks the store while it holds
//! it, and gives the store back. So the calls of all passes have one order, and each is one turn from the journal that it
//! finds, which begins with all that its pass had seen, to the journal that the pass then has seen. Its reply names that
//! journal by its front.
//!
//! Contracts speak of the pass alone: the store's host and key stand in its fixed part, and a call adds one item to its
//! turns. What others do shows as entries between those that the pass had seen and its own.
//!
//! Whoever closes the store gets its disk, which holds the log of a journal that begins with all that the pass had seen.
//!
//! Stands on `told_store` for the store, on `book_lock` for the lock, and on `session_seats` for what a session asks.
#![tactic(auto)]

mod book;
mod caller;
mod shared;

pub use book::{SharedBook, the_fixed_part_tells_host_and_key};
pub use book_lock::SplitFail;
pub use caller::SharedCaller;
pub use shared::{Pass, SharedStore};

#[cfg(test)]
mod tests;
