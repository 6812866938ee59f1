//! The exchanges of a sync with its peer: what is asked, as a request that is written over a link, and the reply that is
//! read from it.
//!
//! The model is the bytes of each exchange, in the words of `at_edge`. `specs/Requests` says the exact bytes of a request,
//! `specs/Replies` what the body of a reply says, and `specs/Exchanging` how an exchange ends. The promise: each call
//! begins one exchange at most, sends in it exactly the request that it is for, or a prefix of it where the link failed,
//! and answers what the response says that came; each refusal has its cause in the bytes received, or in the link's count
//! of faults.
//!
//! It stands on `http_wire` for messages, `record_json` for bodies, `at_edge` for links, and the kit's `form_urlencoded`
//! and `itoa`.
#![tactic(auto)]

mod added;
mod asking;
mod exchange;
mod fail;
mod peer;
mod requests;
mod targets;
mod texts;

pub use asking::{ask_page, ask_status, post_page};
pub use fail::AskFail;
pub use peer::Peer;

#[cfg(test)]
mod tests;
