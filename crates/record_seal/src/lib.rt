//! Sealed records: a payload is sealed to what its record says in the open, and opened again.
//!
//! The model is the texts themselves. `specs/` defines the seal of a payload (`seal_of`), which payload a record opens to
//! (`OpensToBytes`), where JSON is read as the kit's `serde_json` reads it, and what opening answers, by cases (`Unseals`):
//! the payload, the id of the key that a record was sealed under, no seal of this key, or want of memory. Heads and
//! records are those of `step_rules` and `record_rules`.
//!
//! The promise, both ways: what is sealed is exactly `seal_of`, and opens to its payload; what is opened is exactly what
//! the record stands for under the key, which is one payload at most, and a record that stands for none is refused by
//! the cause that it has. A record's weight is known before it is sealed. Many records are opened in several threads,
//! each as it is opened alone.
//!
//! It stands on `paseto_seal`, `record_model`, `plain_types` and the kit's `serde_json`, `json`, `uuid` and `rayon`.
#![tactic(auto)]

ghost use Rattle.record_seal.specs.Laws.{SealOpens, OpensToOne, PayloadIsComputed, UnsealsAsComputed, MeetsSealing};

mod asserted;
mod fail;
mod group;
mod heads;
mod json_text;
mod keys;
mod messages;
mod named;
mod sealing;
mod unsealing;
mod weighing;

pub use fail::SealFail;
pub use group::{Opened, unseal_all};
pub use heads::{Head, Sealed};
pub use sealing::seal;
pub use unsealing::unseal;
pub use weighing::sealed_weight;

/// What is sealed under a key opens under it to its payload, in a record of the same head.
pub fn seal_opens()
    ensures { SealOpens }
{}

/// A record opens to one payload at most.
pub fn opens_to_one()
    ensures { OpensToOne }
{}

/// Computing finds the payload that a record opens to, and none where it opens to none.
pub fn payload_is_computed()
    ensures { PayloadIsComputed }
{}

/// What [`unseal`] answers is the payload that is computed, or a refusal where there is none.
pub fn unseals_as_computed()
    ensures { UnsealsAsComputed }
{}

/// All that a store asks of what seals and opens holds of these seals. The value that shows it is `record_sealing` of
/// `proofs/StoreSealing.antt`, from which a store is made.
pub fn meets_sealing()
    ensures { MeetsSealing }
{}

#[cfg(test)]
mod tests;
