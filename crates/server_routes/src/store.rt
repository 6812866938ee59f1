//! The store that a server asks.

use plain_types::NoMemory;
use record_model::{Chains, Record};
use store_core::{ReadFail, TakeFail};

/// A store that answers what owners ask, each in a turn of its own.
pub trait ServedStore {
    ghost use Rattle.record_model.specs.Seen.{records_seen};
    ghost use Rattle.step_rules.specs.ReadTurns.{status_read, page_read};
    ghost use Rattle.session_rules.specs.Sessions.{a_page, to_page};
    ghost use Rattle.session_seats.specs.Stores.{StoreSeen};
    ghost use Rattle.store_core.specs.Pages.{page_answer_seen};
    ghost use Rattle.told_store.specs.Asked.{status_answer_seen, read_answer_seen};
    ghost use Rattle.server_routes.specs.Asking.{AnswersAsked, AnswersRead};

    /// What never changes of it, what was last seen of it, and its turns so far.
    ghost store: { Self → StoreSeen };

    /// The owner's status: host, tag and length of each of its chains that has records.
    ///
    /// # Errors
    ///
    /// [`NoMemory`].
    fn status(&mut self, owner: u32) -> Result<Chains, NoMemory>
        ensures { AnswersRead (store self.old) (store self.new) (status_read owner) (status_answer_seen result) };

    /// The records of the owner's chain of this host and tag, from the idx `start` on, at most `count`. What they say is
    /// known of a store that tells what its disk holds.
    ///
    /// # Errors
    ///
    /// [`ReadFail::DiskFault`], only where the disk's count rose; [`ReadFail::NoMemory`].
    fn page(
        &mut self,
        owner: u32,
        host: u128,
        tag: &[u8],
        start: u64,
        count: u32,
    ) -> Result<Vec<Record>, ReadFail>
        ensures { AnswersRead (store self.old) (store self.new) (page_read owner host tag.now start count) (read_answer_seen result) };

    /// Takes a page of records in for the owner, in the call of this number. How many were added, 0 to 100.
    ///
    /// # Errors
    ///
    /// Each, and what stands after it, is as the words for turns say; [`TakeFail::DiskFault`] only where the disk's count
    /// rose.
    fn take_page(&mut self, number: u64, owner: u32, page: &[Record]) -> Result<u32, TakeFail>
        ensures { AnswersAsked (store self.old) (store self.new) number (a_page owner (records_seen page.now)) (to_page (page_answer_seen result)) };
}
