//! The store that a session asks.

use at_edge::{Clock, Entropy};
use record_model::{Call, Reply};

/// A store that answers one call after the other, each in a turn of its own.
pub trait CallStore {
    ghost use Rattle.std.specs.Prelude.{◌≡◌, true};
    ghost use Rattle.step_rules.specs.Calls.{CallFits};
    ghost use Rattle.model_words.specs.Seen.{call_seen, reply_seen};
    ghost use Rattle.session_rules.specs.Within.{ShowsWithin};
    ghost use Rattle.session_seats.specs.Stores.{StoreSeen, FrontTold};
    ghost use Rattle.call_supplies.specs.Supplies.{supplies};
    ghost use Rattle.session_seats.specs.Answering.{AnswersCall};

    /// What never changes of it, what was last seen of it, and its turns so far.
    ghost store: { Self → StoreSeen };

    /// Answers the call of this number in one turn. The store has a key, and the call is one that a payload can spell.
    /// The clock and the random source are used as the step says, and the answer shows so little that its reply fits a
    /// frame.
    fn ask<E: Entropy, C: Clock>(
        &mut self,
        number: u64,
        call: &Call,
        rand: &mut E,
        clock: &mut C,
    ) -> Reply
        requires key { (store self.old).fixed.has_key ≡ true }
        requires fits { CallFits (call_seen call.now) }
        ensures answers { AnswersCall (store self.old) (store self.new) (supplies (E.entropy rand.old) (C.clock clock.old)) (supplies (E.entropy rand.new) (C.clock clock.new)) number (call_seen call.now) (reply_seen result) }
        ensures within { ShowsWithin (reply_seen result).answer };

    /// The number of entries, in one turn that asks nothing else. It takes no memory.
    fn front(&mut self) -> u64
        ensures { FrontTold (store self.old) (store self.new) result };
}
