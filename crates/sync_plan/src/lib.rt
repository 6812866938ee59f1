//! The plan of a sync: which chains this store sends to the other one, and which it takes.
//!
//! The model is `plan_rules`: a status is a list of places with the lengths of their chains, and `plan` is the list of the
//! steps that make two stores hold the same, from their statuses. The promise: of two statuses that are in order,
//! [`plan`] gives exactly that list, in one pass over both.
//!
//! Stands on `plan_rules` for the words and their laws, and on `record_model` for chains.
#![tactic(auto)]

mod pages;
mod places;
mod planning;
mod steps;

pub use pages::page_len;
pub use planning::plan;
pub use steps::Step;

#[cfg(test)]
mod tests;
