//! The words of a search: options and a text, read into a query.
//!
//! The model is the list of the words' bytes. `specs/Words` says what such a list says, read from the left: which
//! option has which value, each at most once, and the text; `specs/Queries` says which values each option may have, and
//! what holds where nothing is said of it. Exactly where the words are of that form a query is answered, and it is that
//! one. The words are taken apart by the kit's `clap`, whose part `specs/Parsing` says; stands on `record_model` for the
//! query.
#![tactic(auto)]

mod parsing;
mod queries;
mod values;

pub use queries::read_query;

#[cfg(test)]
mod tests;
