//! Batches and headers of a log as bytes.
//!
//! A header is a magic, the host and eight zero bytes. A batch has a body, which is the number of its events and each
//! event as a byte for its kind and its fields, and a digest of the body, by which changed bytes are found. The words are
//! those of `log_rules`: what [`write_batch`] writes is `body_bytes`, and what [`read_batch`] and a [`BodyReader`] read is
//! `body_at`, with the offset of the first field that can't be read.
//!
//! A [`BodyReader`] is given a body in pieces and gives its events one by one, so that no more than a piece and an event is
//! kept. Stands on `plain_types`, `record_model`, `log_rules`, `blake2b_core` and the kit's `byteorder`.
#![tactic(auto)]

mod batches;
mod bodies;
mod digests;
mod fails;
mod headers;
mod reader;

pub use batches::{read_batch, write_batch};
pub use bodies::BodyReader;
pub use digests::{BatchDigest, batch_digest};
pub use fails::FormatFail;
pub use headers::{HEADER_BYTES, read_header, read_old_header, write_header};

#[cfg(test)]
mod tests;
