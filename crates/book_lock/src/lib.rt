//! A lock that lends one book to many callers, turn by turn, in whatever threads they run.
//!
//! The model is that of `session_rules`: a book is a list of entries, a count of faults and a fixed part; each caller
//! has a pass, with a number of its own and what it has seen. The lock is a table of three words and a slot (word 0: 1
//! while a turn is out; word 1: how many entries there are; word 2: the next number; slot 0: the book while no turn is
//! out), under one rule over words, slot and what all passes have seen (`specs/Rule.antt`), which each step keeps.
//!
//! The promise, by the contracts of `BookLock`, `Turn` and `Pass`: a turn finds what its pass had seen, and behind that
//! only entries of others; a pass gives back only what it may leave; passes that are split off one pass have numbers that
//! rise; a join forgets nothing. `take` and `give` together are one turn of the pass as `session_rules` has it, so its
//! laws hold of any run of turns. No clause says that a turn is ever got. A thread that waits tries a bounded number of
//! times, then sleeps until a turn is given.
//!
//! A turn has to be given: it can't be let go otherwise. It stands on the kit's `atomic_table`.
#![tactic(auto)]

mod lock;
mod rule;
mod seats;
mod turn;

pub use lock::{BookLock, Pass, SplitFail, Turn, TurnAt};
pub use rule::{Booked, SeatView};

#[cfg(test)]
mod tests;
