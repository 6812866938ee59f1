//! What a reading call is answered from what a store keeps beside its log: the part of a store that neither draws nor
//! writes.
//!
//! [`answer`] shows the hits of a search, the value of a key, keys and aliases by the store's views ([`Kept`]), and the
//! lengths of the chains by its index. What is shown is copied, so that an answer outlives what is kept.
//!
//! Contracts say by `IsKeptOf` and `IsIndexOf` of which store and journal that is, and by `Shows` of `step_rules` what is
//! answered. Only want of memory leaves a call without its answer. Stands on `call_drafts` for what is kept, on
//! `search_query` and the views, and on `chain_index` for chains.
//!
//! [`Kept`]: call_drafts::Kept
#![tactic(auto)]

mod answering;
mod hits;

pub use answering::answer;

#[cfg(test)]
mod tests;
