//! The two forms of a log.

/// How a log's batches are written.
#[derive(Clone, Copy, Debug, PartialEq, Eq)]
pub enum LogForm {
    /// With a digest of 16 bytes behind each body.
    Current,
    /// Without one, as older logs are.
    Old,
}
