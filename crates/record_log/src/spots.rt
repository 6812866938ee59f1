//! Where a batch stands.

/// Where a batch stands in a log: the offset of its gate, and the length of its body in bytes.
#[derive(Clone, Copy, Debug, PartialEq, Eq)]
pub struct Spot {
    pub offset: u64,
    pub count: u32,
}
