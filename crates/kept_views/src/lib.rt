//! What a store keeps beside its log, event by event: the commands that run, and the three views.
//!
//! Room for an event is made with memory ([`reserve_event`], or [`reserve_payload`] for a payload that isn't sealed
//! yet), and the event is added without ([`add_event`]), so that nothing can fail once it is on the disk. Several rooms
//! may be open at once, for the events of a batch, and each stays ready whatever is reserved and added between.
//!
//! A record is opened under the store's key and its payload read. What doesn't open or can't be read shows nothing, nor
//! do records of other owners than 0. Contracts say by `KeepsFor` of what host, key and journal it is kept; without a
//! key that is the commands that run alone.
//!
//! Stands on `started_commands`, the views and `call_drafts` for what is kept, on `record_seal` for opening records and
//! on `payload_forms` for reading what they hold.
#![tactic(auto)]

mod adding;
mod nothing;
mod opening;
mod reserving;
mod rooms;

pub use adding::add_event;
pub use nothing::nothing_kept;
pub use reserving::{reserve_event, reserve_payload};
pub use rooms::EventRoom;

#[cfg(test)]
mod tests;
