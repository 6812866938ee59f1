//! The responses to what a server is asked over HTTP.
//!
//! The model is the response, a code, a body, and whether the connection ends. `specs/Bodies` says for each answer of the
//! words for sessions which body tells it: a JSON object, or the text of a status or of records. Its code is that of the
//! words. The promise: exactly that response; only a status and a page of records take memory, and where there is none for
//! them that is told in their place.
//!
//! It stands on `http_wire`, `record_json`, `record_model`, `session_rules`, and the kit's `arrayvec` and `itoa`.
#![tactic(auto)]

mod pages;
mod reads;
mod reasons;
mod short;

pub use pages::{added, forked, full, gap, too_long};
pub use reads::{page_told, status_told};
pub use reasons::coded;

#[cfg(test)]
mod tests;
