//! What each command of the program does that opens a store, over the outside that is handed in.
//!
//! [`status`] prints the chains of owner 0, and [`search`] the commands that a query finds. Both open the store that stands on
//! the disk, write nothing to it, and hand the disk back; [`CommandFail`] says why nothing, or not all, was printed.
//! [`pipe`] opens it to serve the requests of a source, and hands the disk back with what the session leaves; [`PipeFail`]
//! says why it wasn't held to the end of its source.
//!
//! Promise: what is printed is the words of `printing` for the journal that the disk shows, which it then still holds; and each
//! refusal comes from what the contract says, with what stands after it. A session begins at the journal that the disk shows,
//! and is one run of the store's turns to the journal that the disk then holds.
//!
//! Stands on `store_core`, `key_text`, `printing`, `statuses`, on `lone_store`, `told_store` and `session_seats` for sessions, and
//! on `at_edge` for the outside.
#![tactic(auto)]

mod ends;
mod finding;
mod piping;
mod telling;

pub use ends::{CommandFail, Told};
pub use finding::search;
pub use piping::{PipeFail, Piped, pipe};
pub use telling::status;

#[cfg(test)]
mod pipe_tests;
#[cfg(test)]
mod tests;
