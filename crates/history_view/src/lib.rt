//! The view of the commands that ended: those that were created and not deleted, and of several creations of
//! one id the one at the least host and idx.
//!
//! Contracts see a view as texts with numbers, how often each text is shown, how each id stands, and the order of
//! what is shown. `Means` says of which changes a view is, in the words of `view_rules`: one change more is one
//! `add`, in whatever order changes come, and `a_view_shows_the_history` that what is shown is what the whole list
//! says. Each text is kept once, in a dictionary; a map tells how each id stands, in numbers, and an ordered map
//! has what is shown, the newest first. Places in both are made with memory by a `reserve_..`, and never taken out,
//! so that `add` takes none and a room stays ready whatever comes between.
//!
//! The texts stand also folded to lower case, those of 64 numbers end to end in a block, so that one look at a block tells a
//! search what stands in none of them.
//!
//! Beside each text stands the span of the times at which commands with it began, which only grows, so that a search that
//! knows which texts match walks between two times alone.
//!
//! The commands of a host, a session or a working directory are the walk over the order that passes by numbers; how
//! many there are is counted beside each text. A text that was numbered and a place that was made stay, also where
//! nothing of them is shown any more.
//!
//! It stands on `view_rules`, on `record_model` for commands and filters, and on `indexmap`.
#![tactic(auto)]

mod bucket;
mod dictionary;
mod folded;
mod laws;
mod places;
mod room;
mod rows;
mod shown;
mod spans;
mod tallies;
mod view;
mod walk;

pub use bucket::{Bucket, ScopeNumber};
pub use dictionary::Dictionary;
pub use laws::a_view_shows_the_history;
pub use room::Room;
pub use rows::{Creation, Held, TextNumbers};
pub use shown::ShownCommand;
pub use spans::Span;
pub use view::HistoryView;
pub use walk::{Newest, Walked};

#[cfg(test)]
mod tests;
