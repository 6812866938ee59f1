//! What a record holds once it is opened: payloads, read from bytes and written.
//!
//! A [`Payload`] says that a command ended or is deleted, that a key has a value or none, or what an alias stands for.
//! Under a tag and a version its bytes are spellings of items of MessagePack, to the last one. Version `v0` is the
//! older; `v1` has in addition the author of a command and the deletion of a key.
//!
//! Promise: [`read_payload`] answers a payload exactly where the bytes spell it under the tag and the version, and
//! [`PayloadFail::Unread`] exactly where they spell none. It reads from the left over the slice, and copies only the
//! texts that it keeps. [`write_payload`] writes the one spelling that is written, in the version that
//! [`payload_version`] tells, in as much memory as [`payload_len`] counts. Which bytes are which payload is said in
//! `payload_rules`. Stands on `msgpack_fields`, `record_model`, `payload_rules`, `definitions` and `plain_types`.
#![tactic(auto)]

mod commands;
mod digits;
mod items;
mod kinds;
mod lengths;
mod reading;
mod writing;

pub use kinds::{Payload, PayloadFail, payload_version};
pub use lengths::payload_len;
pub use reading::read_payload;
pub use writing::write_payload;

#[cfg(test)]
mod tests;
