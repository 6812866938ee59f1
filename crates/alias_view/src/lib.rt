//! The view of the aliases: for each name the value that was last said of it, by timestamp, host and idx.
//!
//! A setting and an ending are made ready with memory and added without. The view means what its changes
//! say in whatever order they came; the words are those of `view_rules`. It stands on `latest_values`.
#![tactic(auto)]

mod view;

pub use view::{AliasView, Room};

#[cfg(test)]
mod tests;
