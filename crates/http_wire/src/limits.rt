//! Limits of messages that are read.

/// The most bytes of a head.
pub const MOST_HEAD_BYTES: usize = 65_536;

/// The most lines of a head, with its first line and the empty one that ends it.
pub const MOST_HEAD_LINES: usize = 102;

/// The most bytes of a body.
pub const MOST_BODY_BYTES: u64 = 33_554_432;

/// The most digits of a body's length.
pub const MOST_LENGTH_DIGITS: usize = 10;

/// The most bytes that one read takes.
pub const READ_BYTES: usize = 4096;
