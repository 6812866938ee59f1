//! A node of a world of replicas: a store over a disk in memory, with random bytes of its own.
//!
//! Model: contracts see of a node its host and key, its journal, what is in doubt behind that, its disk's moments, and the
//! state of its generator. `specs/Nodes` says what a node is between two events, and what each event makes of it.
//!
//! Promise: an event at a node is what the words for worlds say. A call is a step with the clock's next readings and the
//! node's next random bytes; a page is grown by or refused; a page that is sent is of a chain as it stands; and a crash
//! leaves the journal, whichever image of the disk it leaves.
//!
//! All calls are nobody's, as those of a log that was opened are, so a crash leaves the journal to the letter. A fault of
//! the disk is a want of memory, since that alone makes it fail, and is told so.
//!
//! Stands on `told_store` for the store, on `rehearsal_rules` for what a run reads and draws, and on `rand_xoshiro`.
#![tactic(auto)]

mod fails;
mod node;
mod pages;
mod random;

pub use fails::{CallFail, DeliverFail};
pub use node::Node;
pub use random::{readings_of, words_of};

#[cfg(test)]
mod tests;
