//! The answer of a server to one request, over a store.
//!
//! The model is the request, the accounts, and what is seen of the store before and behind. `specs/Serving` says how a
//! request is answered: refused before the store is asked anything, or asked in one turn of the store, whose answer the
//! response tells. The promise: exactly so, with the first refusal that fits; a page that was committed is told as one; and
//! where memory was wanting for a page, the turn says what it left. A store that one caller has, and one that callers
//! share by passes, are asked alike.
//!
//! An owner's responses depend on what that owner holds alone, and its requests leave what others hold (`laws`).
//!
//! It stands on `request_routes` and `response_texts` for requests and responses, on `lone_store` and `shared_store` for
//! stores, and on `accounts`.
#![tactic(auto)]

mod answering;
mod laws;
mod lone;
mod shared;
mod store;
mod telling;

pub use answering::answer;
pub use laws::{a_store_alone_serves, owners_are_served_alike, owners_keep_what_they_hold};
pub use store::ServedStore;

#[cfg(test)]
mod tests;
