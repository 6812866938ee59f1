//! Names, and the last that was said of each: a value, or that it has none.
//!
//! What is said comes in any order, and the latest by time, host and idx counts. A place is made for a
//! name with memory, and filled without; places are never taken out, so one that was made stays, and no
//! reading call shows an empty one. The views of keys and of aliases stand on it (`kv_view`,
//! `alias_view`); the words are those of `view_rules`.
#![tactic(auto)]

mod latest;
mod listing;
mod names;
mod setting;

pub use latest::LatestValues;
pub use listing::Showing;
pub use setting::Setting;
