//! Requests and responses.

use crate::body::Body;
use plain_types::{Bytes, Text};

/// A request.
#[derive(Drop)]
pub struct Request {
    pub method: Text,
    /// The target as it stands in the request's first line.
    pub target: Text,
    /// The value of the one `Authorization` field.
    pub authorization: Option<Text>,
    /// Whether the connection ends with the response.
    pub close: bool,
    pub body: Bytes,
}

/// A response.
#[derive(Drop)]
pub struct Response {
    pub code: u16,
    /// Whether the connection ends with it.
    pub close: bool,
    pub body: Body,
}
