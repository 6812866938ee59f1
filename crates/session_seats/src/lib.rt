//! Sessions: requests come in frames from a source, and the replies go out in frames to a sink, over one store.
//!
//! Model: a [`CallStore`] shows what was last seen of it, and answers a call in one turn, in the words of `step_rules`
//! and `session_rules`. Nothing more is asked of a store, so one that is lent alone and one that many share by turns
//! serve alike, each under its own number. Contracts see the source and the sink as one pipe, and the random source
//! and the clock as the supplies of calls.
//!
//! Promise: [`serve_frames`] answers each frame that it reads by exactly one reply, in order; the calls' numbers begin
//! at 1. A payload that spells no call is told its place, and the session goes on. What was asked and replied is the
//! session of the store's number; over a store that is lent alone, to [`serve_alone`], it is a run of the store's
//! turns too, which leaves one list. Each end has its cause, with what was taken and written up to there: the end of
//! the source, a failed read or write, a frame that is cut or too long, the last request. Want of memory ends a
//! session only before its first byte, since the room for a payload and for a short reply is taken then; later it is
//! told as a reply.
//!
//! Stands on `daemon_wire` (calls and replies as bytes), `at_edge` (the outside), `record_model`, `model_words`, the
//! words of `session_rules` and below, `definitions`, and `plain_types`.
#![tactic(auto)]

mod answering;
mod frames;
mod serving;
mod session;
mod store;

pub use serving::{MOST_REQUESTS, serve_alone, serve_frames};
pub use store::CallStore;

#[cfg(test)]
mod tests;
