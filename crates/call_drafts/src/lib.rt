//! What a writing call is to append, or why it can't be: the part of a call that is decided before anything is drawn,
//! sealed or written.
//!
//! [`too_long`] tells the first text of a call that is longer than it may be. [`draft`] makes of a writing call its
//! [`Draft`]: the texts of a command that starts, or a payload that is to be sealed, which may close a running command. It
//! is refused where what the call names isn't there: a command that runs, one that is shown, a key or a name that has a
//! value. What is there is looked up in what the store keeps beside its log ([`Kept`]).
//!
//! Contracts say by `IsKeptOf` of which store and journal that is, and by `Drafts` and `Unknown` of `step_rules` what is
//! answered. Stands on `started_commands`, on the views, and on `payload_forms` for payloads.
#![tactic(auto)]

mod drafting;
mod drafts;
mod kept;
mod lengths;

pub use drafting::draft;
pub use drafts::Draft;
pub use kept::Kept;
pub use lengths::{LongText, too_long};

#[cfg(test)]
mod tests;
