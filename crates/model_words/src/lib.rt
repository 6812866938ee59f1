//! Which word of the rules a call or a reply of `record_model` stands for: `specs/Seen.antt`. Contracts of the layers
//! that read calls, do them, and write replies cite these words, so that all of them speak of the same call.
//!
//! There is no code here. Stands on `record_model` for the types, and on `step_rules`, `view_rules` and `record_rules`
//! for the words.
#![tactic(auto)]
