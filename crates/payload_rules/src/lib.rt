//! The words for what a record holds once it is opened: which bytes spell which payload, and the
//! laws that hold of these words alone.
//!
//! `specs/` says what spells a bin and nil (`Items`), and which items, one behind the other, spell the
//! payload of a tag and version (`Payloads`). A reader takes every width of every item; a writer takes
//! the shortest, or the one that is named. `Reading` reads items from left to right and computes what
//! a record holds; nothing rests on it alone. What spells an integer, a text and the header of an array, how an id
//! prints, and what is told of a command that ended are words of the crate `definitions`.
//!
//! Each function has an empty body, and its contract is the law that its name says.
#![tactic(auto)]

mod payload_laws;

pub use payload_laws::{
    a_payload_is_spelled_as_one, an_item_is_of_one_kind, bins_are_read_as_spelled,
    no_payload_begins_another, reading_finds_the_payload, what_is_written_is_spelled,
    worked_creation, worked_items, worked_payloads, worked_ranges,
};
