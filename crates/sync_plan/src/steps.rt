//! One transfer.

use plain_types::Text;

/// A transfer of the records of one host and tag.
#[derive(Debug, Drop)]
pub struct Step {
    pub host: u128,
    pub tag: Text,
    /// Whether this store sends the records; else it takes them.
    pub upload: bool,
    /// The index of the first record, which is how many of the chain the receiver has.
    pub from: u64,
    /// The index behind the last record, which is how many of the chain the sender has; above `from`.
    pub to: u64,
}
