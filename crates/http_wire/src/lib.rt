//! Messages of HTTP/1.1, as they are written to any sink and read from any source.
//!
//! The model is the bytes. `specs/Written` says the text of a request and of a response, line by line, and `specs/Messages`
//! which bytes are one. The promise: what is written is exactly that text, without memory, and where the sink fails it has
//! taken a proper prefix of it; a message of at most 1,024 bytes is one write. What is read are the next bytes of the source,
//! a head of the kit's grammar that lies in the first 65,536 bytes and 102 lines, and as many bytes as it tells of its body;
//! bytes that came behind stay for the next message. Each refusal has its cause in the bytes that were taken, as
//! `specs/Reading` says, or in the source's count of faults.
//!
//! It stands on `at_edge`, `plain_types`, and the kit's `arrayvec`, `httparse` and `itoa`.
#![tactic(auto)]

mod announced;
mod body;
mod fail;
mod fields;
mod finding;
mod fronts;
mod gathered;
mod lengths;
mod limits;
mod messages;
mod phrases;
mod pieces;
mod request_writing;
mod taking;
mod wire;
mod writing;

pub use body::Body;
pub use fail::HttpFail;
pub use messages::{Request, Response};
pub use request_writing::write_request;
pub use wire::Wire;
pub use writing::write_response;

#[cfg(test)]
mod reading_tests;
#[cfg(test)]
mod tests;
