//! The view of the values under keys: for each namespace and key the value that was last set or deleted,
//! by timestamp, host and idx.
//!
//! A setting and a deletion of a pair are made ready with memory and added without. The view means what
//! its changes say in whatever order they came; the words are those of `view_rules`. Each namespace has a
//! map of its own keys (`latest_values`), so that a pair is found by two slices.
#![tactic(auto)]

mod spaces;
mod view;

pub use view::{KvView, Room};

#[cfg(test)]
mod tests;
