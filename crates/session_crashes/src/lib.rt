//! What a crash leaves of a store while it answers one request after the other: at each moment of a turn the store as the
//! turn found it, or as the turn leaves it, and from its end on that. So what was answered before a crash stays, and of
//! the turn under way a crash leaves all that it committed, or nothing.
//!
//! The words are those for runs of turns (`session_rules`) and for crashes of a log (`crash_rules`), which this crate joins.
//!
//! Each function has an empty body, and its contract is the law that its name says.
#![tactic(auto)]

ghost use Rattle.session_crashes.specs.Laws.{RunEndsWithItsStore, RunIsBetween, WhatWasAnsweredStays};
ghost use Rattle.session_crashes.specs.Examples.{WorkedCrashes};

/// At the end of a run whatever a crash may leave is of the store that its last turn left.
pub fn run_ends_with_its_store()
    ensures { RunEndsWithItsStore }
{}

/// What is of a run begins with what stood first, and goes no further than what stands and is in doubt at its end.
pub fn run_is_between()
    ensures { RunIsBetween }
{}

/// Wherever a run is cut in two, whatever a crash may have left since the first turns were answered has each entry that
/// they left, and of the later ones those of some turns, in order, none skipped and none in part.
pub fn what_was_answered_stays()
    ensures { WhatWasAnsweredStays }
{}

/// The worked examples come out.
pub fn worked_crashes()
    ensures { WorkedCrashes }
{}
