//! The three small types that every layer shares: want of memory, a growing run of bytes, and a text.
//!
//! Contracts see a [`Text`] as the list of its bytes, and a [`Bytes`] as that list beside the number of bytes that it
//! has memory for. A call that needs memory is handed `alloc`, or grows what holds one already, and answers
//! [`NoMemory`] where there is none; it then leaves what it was given as it was. Stands on std alone.
#![tactic(auto)]

mod bytes;
mod no_memory;
mod text;

pub use bytes::Bytes;
pub use no_memory::NoMemory;
pub use text::Text;

#[cfg(test)]
mod tests;
