//! Records and statuses as JSON, both ways.
//!
//! The model is the bytes. `specs/` says which value of JSON stands for which record (`record_in`) and which status (`status_in`),
//! where JSON is read as the kit's `serde_json` reads it, and how both are written (`records_text`, `status_text`). The
//! promise: what is read is exactly the records of an array each of whose items stands for one, or the status that the value
//! stands for, and each refusal has its cause, with the place of the first item that stands for none; what is written is
//! exactly that text. Other JSON is read by `read_json` and `number_under`.
//!
//! It stands on `record_model`, `record_rules`, and the kit's `serde_json`, `json` and `uuid`.
#![tactic(auto)]

mod fail;
mod looking;
mod members;
mod record_reading;
mod record_writing;
mod status_reading;
mod status_writing;

pub use fail::JsonFail;
pub use looking::{number_under, read_json};
pub use record_reading::read_records;
pub use record_writing::write_records;
pub use status_reading::read_status;
pub use status_writing::write_status;

#[cfg(test)]
mod tests;
