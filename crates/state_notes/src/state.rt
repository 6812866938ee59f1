//! Of which journal a store is.

ghost use Rattle.std.specs.Borrow.{ftrue};
ghost use Rattle.state_notes.specs.Notes.{StoreNote};
ghost use Rattle.state_notes.specs.Codes.{note_code};

use std::marker::{Model, PhantomData};

/// What a note has to say that is chosen by this value.
pub trait Choice {
    ghost use Rattle.state_notes.specs.Notes.{StoreNote};

    ghost fits: { Self → StoreNote → Type 0 };
}

/// The state of a store, which is its journal, the entries in doubt and its count of faults, and its turns so far. Contracts
/// read them as `note`.
#[derive(Drop)]
pub struct NotedStore {
    of: PhantomData<()>,
    pub ghost note: { StoreNote } by { note_code },
}

impl Model for NotedStore {
    ghost also_owns = { λ _. ftrue };
}

impl NotedStore {
    /// A note that fits, where there is one. It takes no memory.
    pub fn chosen<K: Choice>(choice: &K) -> NotedStore
        requires { (note : StoreNote) × K.fits choice.now note }
        ensures { K.fits choice.now result.note }
    {
        let _ = choice;
        NotedStore { of: PhantomData }
    }
}
