// Connections.

/// A connection: a source of what the peer sends, and a sink of what it is sent. One thread uses both.
#[derive(Drop)]
pub struct Duplex<S, K> {
    pub source: S,
    pub sink: K,
}
