//! A store that one caller alone has: what a session asks where nobody else has turns.
//!
//! A [`LoneStore`] answers the calls of a session one after the other. Its calls are those of pass 1, nobody's entries
//! come between, and it tells of its turns. When the session is over it is given back with all that it is known to be of.
//!
//! Stands on `told_store` for the store, and on `session_seats` for what a session asks.
#![tactic(auto)]

mod lone;

pub use lone::LoneStore;

#[cfg(test)]
mod tests;
