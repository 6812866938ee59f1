//! What calls use of the outside beside the disk: readings of a clock and random bytes. `specs/Supplies.antt` has the
//! words, which whoever answers calls and whoever asks them cite.
//!
//! Each function has an empty body, and its contract is the law that its name says.
//!
//! Stands on `at_edge` for clocks and random sources, and on `definitions` for what a call uses.
#![tactic(auto)]

ghost use Rattle.call_supplies.specs.Laws.{NothingIsUsed, ReadingDrawsNothing, DrawIsUsed, FailedDrawIsCounted, ReadingsJoinDraws};

/// Where the supplies are as before, nothing was used.
pub fn nothing_is_used()
    ensures { NothingIsUsed }
{}

/// Where the clock alone was read, no bytes were drawn.
pub fn reading_draws_nothing()
    ensures { ReadingDrawsNothing }
{}

/// Bytes that were drawn behind the reading are used.
pub fn draw_is_used()
    ensures { DrawIsUsed }
{}

/// Where the draw behind the reading failed, no bytes are used, and one fault is counted.
pub fn failed_draw_is_counted()
    ensures { FailedDrawIsCounted }
{}

/// What was used of the random source and what the clock told are together what was used.
pub fn readings_join_draws()
    ensures { ReadingsJoinDraws }
{}
