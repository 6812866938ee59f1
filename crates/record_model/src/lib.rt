//! The types that the layers of the store, the daemon and the program hand to one another.
//!
//! A [`Started`] is a command that runs, a [`History`] one that ended, a [`Record`] what is kept and sent of either,
//! sealed, and an [`Entry`] one event of a journal with the [`Caller`] by whose call it came. A [`Call`] is what a
//! client asks and a [`Reply`] what it is answered. Contracts see the fields, a [`Text`] as the list of its bytes, and
//! the types that hold many as lists; `specs/Seen.antt` says which word of the definitions a type stands for. A copy is
//! an equal value, a weight is counted without memory, and a type that holds many is made from a `Vec` and given back
//! without memory.
//! Ids are numbers of 128 bits, which are made, printed and read here. Stands on `plain_types`, `definitions`,
//! `record_rules`, and the kit's `uuid` and `hex` for the texts of ids.
#![tactic(auto)]

mod asking;
mod begun;
mod ended;
mod entries;
mod ids;
mod names;
mod places;
mod replying;
mod sealed;

pub use asking::{Call, Filter, Mode, Query};
pub use begun::Started;
pub use ended::{Histories, History};
pub use entries::{Caller, Entry, Event};
pub use ids::{history_id_text, new_id, read_history_id, read_record_id, record_id_text};
pub use names::{NamedText, NamedTexts, Texts};
pub use places::{Chain, Chains, Place};
pub use plain_types::Text;
pub use replying::{Answer, Refusal, Reply};
pub use sealed::Record;

#[cfg(test)]
mod tests;
