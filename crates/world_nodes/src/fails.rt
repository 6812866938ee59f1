//! Why an event at a node stops.

ghost use Rattle.std.specs.Prelude.{◌≡◌};
ghost use Rattle.model_words.specs.Seen.{refusal_seen};
ghost use Rattle.world_nodes.specs.Events.{Grants};
ghost use Rattle.world_nodes.specs.Faults as words;

use page_growth::PageRefusal;
use record_model::{Answer, Refusal};

/// Why a call wasn't answered what it asks for.
#[derive(Drop)]
pub enum CallFail {
    /// Its step refuses it.
    Refused(Refusal),
    NoMemory,
}

/// Why a page wasn't taken.
#[derive(Clone, Copy, Debug, PartialEq, Eq)]
pub enum DeliverFail {
    /// It is refused as a whole.
    Refused(PageRefusal),
    NoMemory,
}

/// Whether the refusal tells of a fault or of want of memory, which no step gives.
fn is_fault(refusal: &Refusal) -> bool
    ensures { result ≡ words.is_fault (refusal_seen refusal.now) }
{
    match refusal {
        Refusal::RandFault => true,
        Refusal::DiskFault => true,
        Refusal::NoMemory => true,
        _ => false,
    }
}

/// What a node's call is answered: a fault of its disk is a want of memory.
pub(crate) fn granted(asked: Result<Answer, Refusal>) -> Result<Answer, CallFail>
    ensures { Grants asked result }
{
    match asked {
        Ok(answer) => Ok(answer),
        Err(refusal) => {
            if is_fault(&refusal) {
                Err(CallFail::NoMemory)
            } else {
                Err(CallFail::Refused(refusal))
            }
        }
    }
}
