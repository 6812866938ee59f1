//! The lock, its passes and its turns.
ghost use Rattle.std.specs.Prelude.{◌≡◌, ◌<◌, ◌^◌, length, All, Some, None, IfOk, IfErr, IfSome};
ghost use Rattle.session_rules.specs.Passes.{SplitsOff, IsSpent, most_passes, Joins};
ghost use Rattle.session_rules.specs.Books.{Book, MayGive, Finds, PassTakes, PassGives};
ghost use Rattle.book_lock.specs.LockPasses.{LockPass, IsIdleAt, opened, with_turn, IsTurnOf};

use crate::rule::{Booked, LockRule, SeatView};
use crate::seats::{
    Seat, find_number, give_book, learn_book, look_up, split_off, take_in, win_book,
};
use atomic_table::{Refused, Table};
use plain_types::NoMemory;
use std::alloc::Global;
use std::marker::Model;
use std::snapshot::Snapshot;
use std::sync::Wait;

/// A book that passes share by turns. Contracts see the lock as the name of its table.
pub struct BookLock<B: Booked> {
    pub(crate) table: Table<Option<B>, SeatView, Snapshot<B>, LockRule<B>, Global>,
}

impl<B: Booked> Model for BookLock<B> {
    ghost use Rattle.std.specs.Prelude.{◌≡◌};
    ghost use Rattle.atomic_table.specs.Seated.{TableId, table_id_coded};

    ghost Value = { TableId };

    ghost coded = { table_id_coded };

    ghost view = { λ l. l.table.shared.table_id };

    ghost invariant = { λ l. (l.table.shared.table_id.words ≡ 3) × (l.table.shared.table_id.slots ≡ 1) };
}

/// One of the callers, with its number and what it has seen. It has at most one turn out. Contracts see of which lock it
/// is, the pass as `session_rules` has it, and the book that it found where its turn is out.
#[derive(Drop)]
pub struct Pass<B> {
    pub(crate) seat: Seat<B>,
    number: u32,
}

impl<B> Model for Pass<B> {
    ghost use Rattle.std.specs.Prelude.{◌≡◌};
    ghost use Rattle.book_lock.specs.LockPasses.{LockPass, found_of, IsPassSeat};

    ghost Value = { LockPass };

    ghost view = { λ p. record { lock = p.seat.table_id; pass = p.seat.me.0.pass; out = found_of p.seat.me.0 } };

    ghost invariant = { λ p. IsPassSeat p.seat.me × (p.number ≡ p.seat.me.0.pass.number) };
}

/// Why no pass was split off.
#[derive(Drop)]
pub enum SplitFail {
    /// All 65,535 numbers were given, as many as this says.
    Spent { given: u32 },
    /// No memory was to be had. A table's seats take none today, so this doesn't come.
    NoMemory,
}

/// The book of a turn, at a lock that `L` refers to.
pub struct TurnAt<L, B> {
    pub(crate) lock: L,
    pub(crate) book: B,
    // how many entries the book had when it was taken
    pub(crate) count: u64,
}

/// A turn: the book in hand, until it is given. That the lock's lifetime stands in a type parameter lets `book` be lent
/// with its clause.
pub type Turn<'a, B> = TurnAt<&'a BookLock<B>, B>;

impl<B: Booked> BookLock<B> {
    /// A lock over the book, with the first pass: it has number 1, no other number was given, and it has seen the whole
    /// book. The book has fewer than 2^64 entries, none with the number of a pass. Where memory is wanting the book comes
    /// back.
    pub fn new(alloc: Global, book: B) -> Result<(BookLock<B>, Pass<B>), (NoMemory, B)>
        requires room { length (B.book book).entries < 2 ^ 64 }
        requires of_none { All (λ e. e.caller.number ≡ 0) (B.book book).entries }
        ensures ok { IfOk result (λ r. r.1 ≡ opened r.0 (B.book book)) }
        ensures err { IfErr result (λ e. e.1 ≡ book) }
    {
        let count = book.entry_count();
        let key = Snapshot::of(&book);
        let Ok(mut slots) = Vec::with_capacity(alloc, 1) else {
            return Err((NoMemory, book));
        };
        slots.push_reserved(Some(book));
        match Table::new(alloc, &[0, count, 2], slots, &key) {
            Ok((table, seat)) => Ok((BookLock { table }, Pass { seat, number: 1 })),
            Err(Refused { mut slots }) => {
                let Some(Some(book)) = slots.pop() else {
                    unreachable!()
                };
                slots.destroy_empty();
                Err((NoMemory, book))
            }
        }
    }

    /// Waits for the turn. The pass then has seen the whole book, which has what it had seen, only entries of others
    /// behind that, no fewer faults, and the pass's fixed part.
    pub fn take<R: Wait>(&self, rt: &R, pass: &mut Pass<B>) -> Turn<'_, B>
        requires { IsIdleAt self.now pass.old }
        ensures turn { IsTurnOf result.lock.now result.count pass.new }
        ensures takes { PassTakes pass.old.pass (B.book result.book) pass.new.pass }
        ensures out { pass.new ≡ with_turn pass.old (B.book result.book) }
    {
        let words = &self.table.shared;
        let book = win_book(rt, words, &mut pass.seat);
        let count = learn_book(words, &mut pass.seat);
        TurnAt {
            lock: self,
            book,
            count,
        }
    }

    /// A pass with a number of its own, above all that the old one knew of, from 2 to 65,535. It has seen what the old
    /// one has, and has neither commits nor turns. Or `Spent`, exactly where all 65,535 numbers were given. May wait.
    pub fn split<R: Wait>(&self, rt: &R, pass: &mut Pass<B>) -> Result<Pass<B>, SplitFail>
        requires { IsIdleAt self.now pass.old }
        ensures idle { IsIdleAt self.now pass.new }
        ensures ok { IfOk result (λ part. IsIdleAt self.now part × SplitsOff pass.old.pass pass.new.pass part.pass) }
        ensures spent { IfErr result (λ e. (e ≡ SplitFail.Spent most_passes) × IsSpent pass.old.pass pass.new.pass most_passes) }
    {
        let words = &self.table.shared;
        let mut part = split_off(words, &mut pass.seat);
        match find_number(rt, words, &mut pass.seat, &mut part) {
            Some(number) => {
                // the old pass learns of the number by a note of the new one
                let note = split_off(words, &mut part);
                take_in(words, &mut pass.seat, note);
                Ok(Pass {
                    seat: part,
                    number: number as u32,
                })
            }
            None => {
                take_in(words, &mut pass.seat, part);
                Err(SplitFail::Spent { given: 65_535 })
            }
        }
    }

    /// The pass has then seen the longer of what both had seen, which the shorter begins, and has counted as many faults
    /// as the one that had counted more. Its turns are its own alone.
    pub fn join(&self, pass: &mut Pass<B>, other: Pass<B>)
        requires idle { IsIdleAt self.now pass.old }
        requires other { IsIdleAt self.now other }
        ensures idle { IsIdleAt self.now pass.new }
        ensures joins { Joins pass.old.pass other.pass pass.new.pass }
    {
        let words = &self.table.shared;
        let Pass {
            seat: part,
            number: _,
        } = other;
        take_in(words, &mut pass.seat, part);
        look_up(words, &mut pass.seat);
    }
}

impl<B> Pass<B> {
    /// The number of the pass, from 1 to 65,535.
    pub fn number(&self) -> u32
        ensures { result ≡ self.now.pass.number }
    {
        self.number
    }
}

impl<B: Booked + Drop> BookLock<B> {
    /// Waits for the turn, and gives the book as the pass then finds it.
    pub fn close<R: Wait>(self, rt: &R, mut pass: Pass<B>) -> B
        requires { IsIdleAt self pass }
        ensures { Finds pass.pass (B.book result) }
    {
        let TurnAt {
            lock: _,
            book,
            count: _,
        } = self.take(rt, &mut pass);
        let BookLock { table } = self;
        drop(table);
        book
    }
}

impl<B: Booked> TurnAt<&BookLock<B>, B> {
    /// Gives the book back as it is now. It begins with the list that was found; each new entry has the pass's number or is
    /// a settled one, of number 0; there are fewer than 2^64; the count of faults hasn't fallen; the fixed part is the
    /// pass's. The turn is this pass's. Takes no memory.
    pub fn give(self, pass: &mut Pass<B>)
        requires turn { IsTurnOf self.lock.now self.count pass.old }
        requires leave { IfSome pass.old.out (λ found. MayGive pass.old.pass.number found (B.book self.book)) }
        ensures idle { IsIdleAt self.entry.lock.now pass.new }
        ensures gives { IfSome pass.old.out (λ found. PassGives pass.old.pass found (B.book self.entry.book) pass.new.pass) }
    {
        let TurnAt { lock, book, count } = self;
        give_book(&lock.table.shared, &mut pass.seat, book, count);
    }
}
