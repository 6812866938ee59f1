//! How much a call may ask for.

/// Hits, keys or aliases that a call may ask for at most; at least 1.
pub(crate) const MOST_LISTED: u32 = 1_000;
