//! The commands that were started, and those of them that run.
//!
//! A [`StartedCommands`] is told of a journal's entries one by one. It keeps the id of each command that was started, so
//! that no id is given twice, and of those that still run what their start told, from which an end makes a command's
//! record. Of a command that has ended it keeps the id alone.
//!
//! An id is made room for with memory and a command is started without, so that nothing can fail once its entry is on the
//! disk. An id that is only expected shows nowhere.
//!
//! Contracts say by `IsOf` of which journal it is: it knows the ids of that journal's started commands, and shows what runs
//! there. Stands on `record_rules` and `step_rules` for the words, and on `record_model` for commands.
#![tactic(auto)]

mod commands;
mod laws;

pub use commands::{Standing, StartedCommands};
pub use laws::taken_record_changes_nothing;

#[cfg(test)]
mod tests;
