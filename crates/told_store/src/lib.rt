//! A store that carries of which journal it is.
//!
//! What a store's calls do is told of whatever journal it is of; over a disk that doesn't tell what it holds, nothing in
//! the store names one. A [`ToldStore`] carries it as a note that proofs alone read, with the turns so far: each call is
//! one turn from the state that the turn before left, and what a crash may leave on the way is told of the same journal.
//!
//! Stands on `store_core` for the store, and on `state_notes` for notes.
#![tactic(auto)]

mod choices;
mod opening;
mod pages;
mod told;

pub use told::ToldStore;

#[cfg(test)]
mod tests;
