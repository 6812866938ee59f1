//! HChaCha20 and XChaCha20 (RFC 8439, draft-irtf-cfrg-xchacha-03), for encryption with a nonce that is
//! long enough to be drawn at random.
//!
//! The model is the standard's own: `specs/ChaCha.antt` has the quarter round, the rounds and the
//! block, `specs/Stream.antt` has HChaCha20, the key stream byte by byte, and a text xored with it.
//!
//! The promise: `hchacha20` gives HChaCha20 of its key and nonce, and `xchacha20_xor` leaves in the
//! buffer XChaCha20 of what was there, for every length below 2^32. Both are total and take no memory.
//! Nothing is said of the time that a call takes.
//!
//! Blocks are made in vectors: four at once while 256 bytes are left, and then as many as the rest needs.
//! `specs/Rows.antt` says where the words of their states stand.
//!
//! It stands on nothing but std.
#![tactic(auto)]

mod four_blocks;
mod one_block;
mod rows;
mod stream;
mod two_blocks;

pub use stream::{hchacha20, xchacha20_xor};

#[cfg(test)]
mod tests;
