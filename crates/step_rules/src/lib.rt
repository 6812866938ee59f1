//! What one call does to a journal, and its answer: the calls with their limits, the step, and the
//! turn, which is a step on a disk that may fail; pages that are taken in and what is read beside a
//! session, in turns of their own; and the laws that hold of these words alone.
//!
//! A call is refused, or appends one entry, or shows something. What seals and opens bytes under a key
//! is a parameter, `Sealing`, with what has to hold of it. The words for journals are those of
//! `record_rules`, those for what records hold and show those of `payload_rules` and `view_rules`.
//!
//! Each function has an empty body, and its contract is the law that its name says.
#![tactic(auto)]

ghost use Rattle.step_rules.specs.Laws.{KeyedStoresHold, StepKeepsSound, StepNumbersChains, StepAddsOne, RefusalLeaves, ReadLeaves, StepHasOutcome, WriteHasOneOutcome, StepHasOneOutcome, TurnKeepsSound, TurnTellsFront, TurnOnlyAdds, ReadCallStays, PageTurnKeepsSound, PageTurnOnlyAdds, ReadTurnLeaves};
ghost use Rattle.step_rules.specs.Examples.{WorkedStore, WorkedCommand, WorkedTexts, WorkedViews, WorkedDrafts, WorkedRun, WorkedAsked, WorkedDoubt, WorkedPageTurns, WorkedReadTurns};

/// The store of a host under a key is one value, made of what seals and opens bytes. It seals well, opens
/// what it sealed, opens a record to one payload at most, and to none whose texts weigh more than the
/// record; and the changes that it shows are those of the records that open.
pub fn keyed_store_holds()
    ensures { KeyedStoresHold }
{}

/// A step from a sound journal leaves a sound journal.
pub fn step_keeps_sound()
    ensures { StepKeepsSound }
{}

/// After a step each chain, of every owner, is numbered from 0 without gaps.
pub fn step_numbers_chains()
    ensures { StepNumbersChains }
{}

/// A step keeps the journal as the beginning of what it leaves, and adds at most one entry, which has the
/// caller of the call.
pub fn step_adds_one()
    ensures { StepAddsOne }
{}

/// A call that is refused leaves the journal as it was.
pub fn refusal_leaves()
    ensures { RefusalLeaves }
{}

/// A call that only asks leaves the journal as it was.
pub fn read_leaves()
    ensures { ReadLeaves }
{}

/// Every call has an outcome at every journal whose views have answers, whatever the clock says and
/// whichever bytes are drawn: it uses nothing, that reading alone, or with it those bytes.
pub fn step_has_outcome()
    ensures { StepHasOutcome }
{}

/// A call that writes has one outcome, given what it used of the clock and the random bytes.
pub fn write_has_one_outcome()
    ensures { WriteHasOneOutcome }
{}

/// At a sound journal, where records open by their tag, every call has one outcome: what is appended and
/// what is shown.
pub fn step_has_one_outcome()
    ensures { StepHasOneOutcome }
{}

/// A turn leaves a sound journal, which stays sound when what is in doubt is settled.
pub fn turn_keeps_sound()
    ensures { TurnKeepsSound }
{}

/// A turn's reply tells the length of the journal that the turn leaves.
pub fn turn_tells_front()
    ensures { TurnTellsFront }
{}

/// A turn keeps the journal as the beginning of what it leaves.
pub fn turn_only_adds()
    ensures { TurnOnlyAdds }
{}

/// A turn of a call that only asks uses nothing, and leaves the journal and what is in doubt.
pub fn read_call_stays()
    ensures { ReadCallStays }
{}

/// A turn with a page leaves a sound journal, which stays sound when what is in doubt is settled.
pub fn page_turn_keeps_sound()
    ensures { PageTurnKeepsSound }
{}

/// A turn with a page keeps the journal as the beginning of what it leaves.
pub fn page_turn_only_adds()
    ensures { PageTurnOnlyAdds }
{}

/// A turn with a read of a status, a page or the front leaves the journal, and what is in doubt.
pub fn read_turn_leaves()
    ensures { ReadTurnLeaves }
{}

/// What is asked of a store can be met, by one that seals to zeros.
pub fn worked_store()
    ensures { WorkedStore }
{}

/// A command, worked out: its start and its end, the same again, and an end of what never ran.
pub fn worked_command()
    ensures { WorkedCommand }
{}

/// Texts at their limits, and one byte above.
pub fn worked_texts()
    ensures { WorkedTexts }
{}

/// Reads and deletions, worked out: an alias that was never set, the value of a key, and none of another.
pub fn worked_views()
    ensures { WorkedViews }
{}

/// What calls that set or delete are to append, worked out: what isn't there is not deleted.
pub fn worked_drafts()
    ensures { WorkedDrafts }
{}

/// A command that is started, ended and found by a search, reply by reply.
pub fn worked_run()
    ensures { WorkedRun }
{}

/// What a store may be asked, at each bound and past it, and the bytes of the texts of each call.
pub fn worked_asked()
    ensures { WorkedAsked }
{}

/// A commit that fails, worked out: in doubt and lost, then settled, and made again. And memory that is
/// wanting.
pub fn worked_doubt()
    ensures { WorkedDoubt }
{}

/// A page at a disk that may fail, worked out: taken whole, refused, in doubt and lost, with what was in
/// doubt settled first; and memory that is wanting.
pub fn worked_page_turns()
    ensures { WorkedPageTurns }
{}

/// Reads of a status, a page and the front, worked out: with a commit in doubt and after it, and where the
/// disk fails or memory is wanting.
pub fn worked_read_turns()
    ensures { WorkedReadTurns }
{}
