//! Searches over the view of the commands that ended.
//!
//! `search` answers what `view_rules` says of a query over the commands that the view shows: those that
//! pass the filter and match, the newest first, of equal commands only the first where they are to be
//! unique, without the first ones, and as many as one reply may show. It walks the view's order from the
//! newest on; what is known of a text is remembered by its number, so that each text is tested once and
//! equal commands are known without comparing them. Where the newest commands don't tell the answer, all texts are looked
//! through, many at once where none of them matches; then it is known which match, and the walk goes on between the earliest
//! and the latest time at which a command with one of them began, or ends there where there is none.
//! It stands on `history_view`, and on `memchr` for substrings.
#![tactic(auto)]

mod matching;
mod memo;
mod page;
mod searching;

pub use searching::search;

#[cfg(test)]
mod tests;
