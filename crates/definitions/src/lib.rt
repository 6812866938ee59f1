//! The words that the crates above cite in their contracts, with the laws that speak of these words alone.
//!
//! `specs/` says what bytes spell which integer, text and array (`Spelling`), what payload spells a call of any table and
//! where one that spells none goes wrong (`Calls`), how a stream is cut into frames (`Frames`), how an id is made and
//! printed (`Ids`), what is told of a command (`Journal`), how a search matches, orders and cuts (`Search`), which prefix
//! of some items weighs so much (`Pages`), which limits hold (`Limits`), what a reply's bytes are (`Replies`), what a call
//! uses of the outside (`Uses`), how a count of faults moves (`Counts`), and how one list begins another (`Prefixes`).
//! `Reading` reads from left to right, as code does; nothing rests on it alone.
//! `Examples` works the words out.
//! No word names a type of the crates above: each mirrors what it needs by a small record of numbers and lists.
#![tactic(auto)]

mod frame_laws;
mod id_laws;
mod page_laws;
mod spelling_laws;
mod worked;

pub use frame_laws::{
    a_limited_stream_is_cut_in_one_way, a_stream_is_cut_in_one_way, a_whole_input_ends_in_one_way,
};
pub use id_laws::{a_made_id_is_of_version_7, an_id_prints_and_is_read_back};
pub use page_laws::{
    a_page_is_cut_by_counting, a_page_is_one_as_it_is_seen,
    a_prefix_within_a_weight_is_the_longest, a_search_has_one_answer,
};
pub use spelling_laws::{
    no_kind_begins_another, no_spelling_begins_another,
    no_spelling_is_shorter_than_the_written_one, what_is_read_is_spelled, what_is_spelled_is_read,
    what_is_written_is_spelled,
};
pub use worked::{
    worked_arrays, worked_commands, worked_frames, worked_ids, worked_integers, worked_matches,
    worked_no_items, worked_replies, worked_searches, worked_streams, worked_texts, worked_uses,
};
