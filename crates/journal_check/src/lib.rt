//! What has to be kept of a journal to tell whether an entry may come next.
//!
//! A [`JournalCheck`] is handed the entries of a journal one by one. It keeps the ids of started commands and which of them
//! run, the length of each chain, and what each owner holds, in hash maps; so it costs the same for each entry however long
//! the journal is, and keeps no text but tags. Contracts say by `Keeps` of which journal it is, and by `MayFollow` of
//! `record_rules` when the next entry is taken: exactly where the journal is sound with it.
//!
//! Stands on `record_rules` for the words, and on `record_model` for entries.
#![tactic(auto)]

mod check;
mod limits;
mod owner_totals;
mod tallies;

pub use check::JournalCheck;
pub use owner_totals::OwnerTotals;

#[cfg(test)]
mod tests;
