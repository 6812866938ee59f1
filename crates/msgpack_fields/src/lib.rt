//! Reading and writing the items of MessagePack that payloads are made of: integers, texts, bins, nil and the headers of
//! arrays.
//!
//! Contracts see a [`Reader`] as the bytes that are left beside the number of bytes that were read, and a [`Writer`] as
//! its bytes beside the number of bytes that it has memory for. A read answers with a value exactly where a spelling of
//! that value stands at the front of the bytes that are left, whatever its width, and with [`Wrong`] exactly where no
//! spelling of the kind stands there; a refused read leaves the reader as it was. Reading takes no memory, however much
//! a header promises. A write appends the shortest spelling, or the one that it is named for, or leaves the bytes as they
//! were. What spells what is said in `definitions` and `payload_rules`, and that no spelling begins another is proved
//! there. Stands on both, on `plain_types`, and on the kit's `byteorder` for numbers of several bytes.
#![tactic(auto)]

mod items;
mod reader;
mod writer;

pub use plain_types::Bytes;
pub use reader::{Reader, Wrong};
pub use writer::Writer;

#[cfg(test)]
mod tests;
