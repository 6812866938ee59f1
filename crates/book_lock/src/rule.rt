//! The rule of the lock's table, what a seat has seen, and what each kind of step tells the seat that makes it.
ghost use Rattle.std.specs.Prelude.{◌≡◌, ◌<◌, ◌^◌, length};
ghost use Rattle.session_rules.specs.Books.{Book};
ghost use Rattle.book_lock.specs.Views.{PassView, first_view, split_view, both_views, spent_view};
ghost use Rattle.book_lock.specs.Rule.{LockKept};
ghost use Rattle.book_lock.specs.Steps.{Tries, Learns, Commits, Frees, Looks, Names};

use atomic_table::{Join, Play, Split, TableRule};
use std::marker::{Model, PhantomData};
use std::snapshot::Snapshot;

/// What passes share by turns. Contracts see it as a list of entries, a count of faults that never falls, and a fixed
/// part.
pub trait Booked {
    ghost book: { Self → Book };

    /// How many entries it has, below 2^64. The lock keeps it beside the book, as the count that a turn raises.
    fn entry_count(&self) -> u64
        requires { length (book self.now).entries < 2 ^ 64 }
        ensures { result ≡ length (book self.now).entries };
}

/// What a seat of the table has seen. No value of it is made.
pub struct SeatView {
    marker: PhantomData<()>,
}

impl Model for SeatView {
    ghost use Rattle.std.specs.Prelude.{[]};
    ghost use Rattle.book_lock.specs.Views.{PassView, spent_view};

    ghost Value = { PassView };

    ghost view = { λ _. spent_view };
}

/// What holds of the table between any two steps. The first seat has seen the very book that the table was made with:
/// the key is a snapshot of it.
pub struct LockRule<B> {
    marker: PhantomData<B>,
}

impl<B: Booked> TableRule<Option<B>, SeatView, Snapshot<B>> for LockRule<B> {
    ghost holds = { λ _. LockKept B.book };

    ghost first = { λ key. first_view (B.book key.value) };
}

/// To take the turn: at word 0, from 0 to 1.
pub struct TakeTurn<B> {
    marker: PhantomData<B>,
}

impl<B: Booked> Play<Option<B>, SeatView> for TakeTurn<B> {
    ghost then = { Tries B.book };
}

/// To see the book in hand: a load of word 1.
pub struct LearnBook;

impl<B> Play<Option<B>, SeatView> for LearnBook {
    ghost then = { Learns };
}

/// To let the others find the book that lies in the slot: an addition at word 1.
pub struct CommitBook<B> {
    marker: PhantomData<B>,
}

impl<B: Booked> Play<Option<B>, SeatView> for CommitBook<B> {
    ghost then = { Commits B.book };
}

/// To free the turn: at word 0, to 0.
pub struct FreeTurn;

impl<B> Play<Option<B>, SeatView> for FreeTurn {
    ghost then = { Frees };
}

/// To see how many numbers were given: a load of word 2.
pub struct LookUp;

impl<B> Play<Option<B>, SeatView> for LookUp {
    ghost then = { Looks };
}

/// To get a number: at word 2, to one more.
pub struct GetNumber;

impl<B> Play<Option<B>, SeatView> for GetNumber {
    ghost then = { Names };
}

/// To split a seat off: it has seen as much, and has no number yet.
pub struct SplitSeat;

impl Split<SeatView> for SplitSeat {
    ghost left = { λ v. v };

    ghost right = { split_view };
}

/// To join a seat to another one, which has then seen what both have.
pub struct JoinSeats;

impl Join<SeatView> for JoinSeats {
    ghost both = { both_views };

    ghost spent = { spent_view };
}
