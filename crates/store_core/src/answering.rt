//! What a store shows of its journal.

ghost use Rattle.std.specs.Prelude.{◌≡◌, ℕ, List, true, Some, IfOk};
ghost use Rattle.record_rules.specs.Records.{Entry};
ghost use Rattle.model_words.specs.Seen.{call_seen, answer_seen};
ghost use Rattle.step_rules.specs.Calls.{CallFits, is_read};
ghost use Rattle.step_rules.specs.Step.{Shows};
ghost use Rattle.step_rules.specs.Sealing.{keyed_store};
ghost use Rattle.record_seal.proofs.StoreSealing.{record_sealing};
ghost use Rattle.store_core.specs.Store.{IsStoreOf};

use crate::store::Store;
use at_edge::Disk;
use call_answers::answer;
use plain_types::NoMemory;
use record_model::{Answer, Call};
use std::alloc::Global;

impl<D: Disk> Store<D> {
    /// What a call that only asks is answered from the journal, without what is in doubt. The store has a key.
    ///
    /// # Errors
    ///
    /// [`NoMemory`].
    pub fn answer(&self, alloc: Global, call: &Call) -> Result<Answer, NoMemory>
        requires asks { is_read (call_seen call.now) ≡ true }
        requires fits { CallFits (call_seen call.now) }
        ensures { IfOk result (λ answer. (key : List ℕ) (journal doubt : List Entry) → self.now.key ≡ Some key → IsStoreOf self.now journal doubt → Shows (keyed_store record_sealing self.now.log.host key) journal (call_seen call.now) (answer_seen answer)) }
    {
        match answer(alloc, &self.tables.kept, self.tables.entries.index(), call) {
            Ok(shown) => Ok(shown),
            Err(NoMemory) => Err(NoMemory),
        }
    }
}
