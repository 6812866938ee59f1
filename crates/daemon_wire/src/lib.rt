//! The daemon's calls and replies as bytes: what a request's payload asks, and the payload of a reply.
//!
//! Model: a payload is an array, of a call's number and its arguments, or of a reply's number, the front and what is
//! answered. Contracts see a [`Call`](record_model::Call) and a [`Reply`](record_model::Reply) as the words that
//! `model_words` gives for them, and cite those of `request_rules` for which payload spells which call and where a payload
//! that spells none goes wrong, and those of `session_rules` for a reply's bytes.
//!
//! Promise: [`read_call`] answers with the one call that the payload spells, in any of the spellings of MessagePack, or
//! with the one place at which it is wrong, whatever memory there is. Texts are copied only once the whole payload is read,
//! so want of memory comes only for a payload that spells a call. [`write_reply`] puts the bytes of a reply behind those
//! that stand in a buffer, each item in its shortest spelling, or leaves them as they were. A reply that tells an id, an
//! index, or a refusal without a text has at most 64 bytes, and takes no memory where there is room for so many.
//! [`write_bad`] tells that a payload was wrong, in 32 bytes that the caller has.
//!
//! One table names the calls, their numbers and the lengths of their arrays. Stands on `msgpack_fields` (items of bytes),
//! `record_model` (calls and replies), `model_words`, `request_rules`, `session_rules`, `step_rules`, `definitions`,
//! `plain_types`, and the kit's `byteorder`.
#![tactic(auto)]

mod bad;
mod calls;
mod fail;
mod hits;
mod items;
mod limits;
mod lists;
mod names;
mod reading;
mod replies;

pub use bad::write_bad;
pub use fail::CallFail;
pub use reading::read_call;
pub use replies::write_reply;

#[cfg(test)]
mod tests;
