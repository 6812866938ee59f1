//! The accounts of a server: which owner's a request is, by its token.
//!
//! The model is the list of accounts, each an owner and a token. `specs/Accounts` says what a text of accounts is, a line
//! an account, and whose a token is. The promise: exactly the accounts of the text are read, or the number of its first
//! wrong line is told; and a token is the owner's that its line names, or no one's.
//!
//! It stands on `definitions` and `plain_types`.
#![tactic(auto)]

mod accounts;
mod fail;
mod lines;

pub use accounts::Accounts;
pub use fail::AccountsFail;

#[cfg(test)]
mod tests;
