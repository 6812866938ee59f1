//! Notes that proofs alone read: of which journal a store is, and what a value was. They take no memory, and nothing is done
//! for them at run time.
//!
//! A store over a disk that doesn't tell what it holds is of some journal, but none of its fields names it. A
//! [`NotedStore`] names it, with the turns so far: it is chosen where some note is known to fit ([`Choice`]), and from then
//! on contracts speak of that one. [`Noted`] keeps what a value was before a call changed it, so that a choice can speak of both.
//!
//! Stands on `session_rules` for the state of a store.
#![tactic(auto)]

mod noted;
mod state;

pub use noted::Noted;
pub use state::{Choice, NotedStore};
