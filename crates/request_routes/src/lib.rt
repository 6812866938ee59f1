//! What a request over HTTP asks the store, or why it is refused before.
//!
//! The model is the request, a record of bytes, and the accounts. `specs/Routing` says which request asks what (`route_of`),
//! `specs/Queries` and `specs/Bodies` what a query and a body say. The promise: exactly that is asked, and each refusal is
//! the first that fits: the path, the method, the token, then the query or the body. No store is needed.
//!
//! It stands on `accounts`, `http_wire`, `record_json`, `record_model`, and the kit's `form_urlencoded`; its words are those
//! of `session_rules`.
#![tactic(auto)]

mod actions;
mod fail;
mod laws;
mod owners;
mod queries;
mod routing;

pub use fail::RouteFail;
pub use laws::what_is_asked_is_of_http;
pub use routing::{Asked, route};

#[cfg(test)]
mod tests;
