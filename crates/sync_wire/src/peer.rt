//! The other side of a sync.

use plain_types::Text;

/// A server that keeps records: how it is named in requests, and what it knows the one who asks by.
#[derive(Debug, Drop)]
pub struct Peer {
    /// The value of the `Host` field.
    pub host: Text,
    /// What stands behind `Token ` in the `Authorization` field.
    pub token: Text,
}
