//! The steps of a seat at the table, each with what it tells.
ghost use Rattle.std.specs.Prelude.{◌≡◌, ◌≢◌, ◌<◌, All, IfSome, IfNone, ◌-◌, ◌≤◌, ◌+◌, ◌%◌, ◌^◌, [], ◌∷◌, length, Some, None, MatchBool, IsTrue};
ghost use Rattle.definitions.specs.Prefixes.{IsPrefix};
ghost use Rattle.session_rules.specs.Passes.{most_passes};
ghost use Rattle.session_rules.specs.Books.{Book, MayGive};
ghost use Rattle.book_lock.specs.Views.{HeldBook, unnamed, named, learned, committed, freed, looked, split_view, both_views, spent};
ghost use Rattle.book_lock.specs.Rule.{LockKept};
ghost use Rattle.book_lock.specs.Steps.{TakesBook, GetsNumber};
ghost use Rattle.book_lock.specs.LockPasses.{given_before, PickedUp, GivesBack, left_by, out_with};

use crate::rule::{
    Booked, CommitBook, FreeTurn, GetNumber, JoinSeats, LearnBook, LockRule, LookUp, SeatView,
    SplitSeat, TakeTurn,
};
use atomic_table::Shared;
use std::snapshot::Snapshot;
use std::sync::Wait;

pub(crate) type Seat<B> = atomic_table::Seat<Option<B>, SeatView>;

pub(crate) type LockWords<B> = Shared<Option<B>, SeatView, Snapshot<B>, LockRule<B>>;

// how often the turn is asked for before the thread sleeps
const TRIES: u32 = 64;

// the numbers that a lock gives go from 1 to this
const MOST_PASSES: u64 = 65_535;

// Whether the turn was got.
fn try_take<B: Booked>(words: &LockWords<B>, seat: &mut Seat<B>) -> bool
    requires table { (seat.old.table_id ≡ words.now.table_id) × (words.now.table_id.words ≡ 3) }
    requires seat { (seat.old.me.0.stage ≡ named) × (seat.old.me.1 ≡ []) }
    ensures seat { (seat.new.table_id ≡ seat.old.table_id) × (seat.new.id ≡ seat.old.id) }
    ensures got { MatchBool result (TakesBook B.book seat.old.me.0 seat.new.me) (seat.new.me ≡ seat.old.me) }
{
    words.compare_exchange::<TakeTurn<B>>(seat, 0, 0, 1) == 0
}

// The same, in a bounded number of tries.
fn try_often<B: Booked>(words: &LockWords<B>, seat: &mut Seat<B>) -> bool
    requires table { (seat.old.table_id ≡ words.now.table_id) × (words.now.table_id.words ≡ 3) }
    requires seat { (seat.old.me.0.stage ≡ named) × (seat.old.me.1 ≡ []) }
    ensures seat { (seat.new.table_id ≡ seat.old.table_id) × (seat.new.id ≡ seat.old.id) }
    ensures got { MatchBool result (TakesBook B.book seat.old.me.0 seat.new.me) (seat.new.me ≡ seat.old.me) }
{
    for _tried in 0..TRIES {
        if try_take(words, seat) {
            return true;
        }
    }
    false
}

// Sleeps between the tries, and is woken where a turn is given.
fn win_turn<B: Booked, R: Wait>(rt: &R, words: &LockWords<B>, seat: &mut Seat<B>)
    requires table { (seat.old.table_id ≡ words.now.table_id) × (words.now.table_id.words ≡ 3) }
    requires seat { (seat.old.me.0.stage ≡ named) × (seat.old.me.1 ≡ []) }
    ensures seat { (seat.new.table_id ≡ seat.old.table_id) × (seat.new.id ≡ seat.old.id) }
    ensures got { TakesBook B.book seat.old.me.0 seat.new.me }
{
    for _ in rt.forever() {
        if try_often(words, seat) {
            return;
        }
        words.park(rt, 0, 1);
    }
}

// The book that lies in the slot that the seat took.
fn pick_up<B: Booked>(words: &LockWords<B>, seat: &mut Seat<B>) -> B
    requires table { seat.old.table_id ≡ words.now.table_id }
    requires seat { (b : B) × (seat.old.me.1 ≡ (0, Some b) ∷ []) }
    ensures seat { (seat.new.table_id ≡ seat.old.table_id) × (seat.new.id ≡ seat.old.id) }
    ensures book { seat.old.me.1 ≡ (0, Some result) ∷ [] }
    ensures empty { seat.new.me ≡ (seat.old.me.0, (0, None) ∷ []) }
{
    words.exchange(seat, 0, None).unwrap()
}

// Waits for the turn, and picks up the book.
pub(crate) fn win_book<B: Booked, R: Wait>(rt: &R, words: &LockWords<B>, seat: &mut Seat<B>) -> B
    requires table { (seat.old.table_id ≡ words.now.table_id) × (words.now.table_id.words ≡ 3) }
    requires seat { (seat.old.me.0.stage ≡ named) × (seat.old.me.1 ≡ []) }
    ensures seat { (seat.new.table_id ≡ seat.old.table_id) × (seat.new.id ≡ seat.old.id) }
    ensures picked { PickedUp B.book seat.old.me.0 result seat.new.me }
{
    win_turn(rt, words, seat);
    pick_up(words, seat)
}

// The view learns the book in hand. Answers how many entries it had.
pub(crate) fn learn_book<B: Booked>(words: &LockWords<B>, seat: &mut Seat<B>) -> u64
    requires table { (seat.old.table_id ≡ words.now.table_id) × (words.now.table_id.words ≡ 3) }
    requires seat { (seat.old.me.0.stage ≡ named) × ((h : HeldBook) × (seat.old.me.0.held ≡ Some h)) }
    ensures seat { (seat.new.table_id ≡ seat.old.table_id) × (seat.new.id ≡ seat.old.id) }
    ensures learned { (h : HeldBook) → seat.old.me.0.held ≡ Some h → (seat.new.me ≡ (learned h seat.old.me.0, seat.old.me.1)) × (result ≡ length h.now.entries) }
{
    words.load::<LearnBook>(seat, 1)
}

// Lays the book back into the slot.
pub(crate) fn put_down<B: Booked>(words: &LockWords<B>, seat: &mut Seat<B>, book: B)
    requires table { seat.old.table_id ≡ words.now.table_id }
    requires seat { seat.old.me.1 ≡ (0, None) ∷ [] }
    ensures seat { (seat.new.table_id ≡ seat.old.table_id) × (seat.new.id ≡ seat.old.id) }
    ensures full { seat.new.me ≡ (seat.old.me.0, (0, Some book) ∷ []) }
{
    let before = words.exchange(seat, 0, Some(book));
    let None = before else { unreachable!() };
}

// Shows the others the book in the slot, which has so many more entries than it had.
pub(crate) fn commit_book<B: Booked>(words: &LockWords<B>, seat: &mut Seat<B>, more: u64)
    requires table { (seat.old.table_id ≡ words.now.table_id) × (words.now.table_id.words ≡ 3) }
    requires seat { (seat.old.me.0.stage ≡ named) × ((h : HeldBook) × (b : B) × (seat.old.me.0.held ≡ Some h) × (seat.old.me.1 ≡ (0, Some b) ∷ []) × MayGive seat.old.me.0.pass.number h.now (B.book b) × (length h.now.entries + more ≡ length (B.book b).entries)) }
    ensures seat { (seat.new.table_id ≡ seat.old.table_id) × (seat.new.id ≡ seat.old.id) }
    ensures committed { (h : HeldBook) (b : B) → seat.old.me.0.held ≡ Some h → seat.old.me.1 ≡ (0, Some b) ∷ [] → seat.new.me ≡ (committed h (B.book b) seat.old.me.0, seat.old.me.1) }
{
    words.fetch_add::<CommitBook<B>>(seat, 1, more);
}

// Gives the slot back, and wakes one thread that waits for the turn.
pub(crate) fn free_turn<B: Booked>(words: &LockWords<B>, seat: &mut Seat<B>)
    requires table { (seat.old.table_id ≡ words.now.table_id) × (words.now.table_id.words ≡ 3) }
    requires seat { (seat.old.me.0.stage ≡ named) × ((h : HeldBook) × (b : B) × (seat.old.me.0.held ≡ Some h) × (seat.old.me.1 ≡ (0, Some b) ∷ []) × (B.book b ≡ h.now)) }
    ensures seat { (seat.new.table_id ≡ seat.old.table_id) × (seat.new.id ≡ seat.old.id) }
    ensures freed { (h : HeldBook) → seat.old.me.0.held ≡ Some h → seat.new.me ≡ (freed h seat.old.me.0, []) }
{
    words.swap::<FreeTurn>(seat, 0, 0);
    words.wake_one(0);
}

// Puts the book into the slot, shows it to the others, and gives the turn.
pub(crate) fn give_book<B: Booked>(words: &LockWords<B>, seat: &mut Seat<B>, book: B, count: u64)
    requires table { (seat.old.table_id ≡ words.now.table_id) × (words.now.table_id.words ≡ 3) }
    requires seat { GivesBack B.book seat.old.me book count }
    ensures seat { (seat.new.table_id ≡ seat.old.table_id) × (seat.new.id ≡ seat.old.id) }
    ensures given { (found : Book) → seat.old.me.0.held ≡ out_with found → seat.new.me ≡ (left_by found (B.book book) seat.old.me.0, []) }
{
    let more = book.entry_count() - count;
    put_down(words, seat, book);
    commit_book(words, seat, more);
    free_turn(words, seat);
}

// Finds the next number, which is one more than the view then knows to be given.
pub(crate) fn look_up<B: Booked>(words: &LockWords<B>, seat: &mut Seat<B>) -> u64
    requires table { (seat.old.table_id ≡ words.now.table_id) × (words.now.table_id.words ≡ 3) }
    requires seat { (seat.old.me.0.stage ≡ named) × (seat.old.me.0.held ≡ None) }
    ensures seat { (seat.new.table_id ≡ seat.old.table_id) × (seat.new.id ≡ seat.old.id) }
    ensures looked { seat.new.me ≡ (looked (result - 1) seat.old.me.0, seat.old.me.1) }
    ensures next { (2 ≤ result) × (result ≤ 65536) × (seat.old.me.0.pass.known < result) }
    ensures olds { All (λ old. IsPrefix old seat.old.me.0.pass.seen) seat.old.me.0.olds }
{
    words.load::<LookUp>(seat, 2)
}

// Whether the seat got the number: another one may have got it first.
fn try_name<B: Booked>(words: &LockWords<B>, part: &mut Seat<B>, number: u64) -> bool
    requires table { (part.old.table_id ≡ words.now.table_id) × (words.now.table_id.words ≡ 3) }
    requires seat { (part.old.me.0.stage ≡ unnamed) × (part.old.me.0.held ≡ None) × (part.old.me.1 ≡ []) }
    requires number { number ≤ most_passes }
    ensures seat { (part.new.table_id ≡ part.old.table_id) × (part.new.id ≡ part.old.id) }
    ensures got { MatchBool result (GetsNumber number part.old.me part.new.me) (part.new.me ≡ part.old.me) }
{
    words.compare_exchange::<GetNumber>(part, 2, number, number + 1) == number
}

// Names the part that was split off the seat, or finds that each number was given.
pub(crate) fn find_number<B: Booked, R: Wait>(
    rt: &R,
    words: &LockWords<B>,
    seat: &mut Seat<B>,
    part: &mut Seat<B>,
) -> Option<u64>
    requires table { (seat.old.table_id ≡ words.now.table_id) × (words.now.table_id.words ≡ 3) × (part.old.table_id ≡ words.now.table_id) }
    requires seat { (seat.old.me.0.stage ≡ named) × (seat.old.me.0.held ≡ None) }
    requires part { (part.old.me.0.stage ≡ unnamed) × (part.old.me.0.held ≡ None) × (part.old.me.1 ≡ []) }
    ensures seat { (seat.new.table_id ≡ seat.old.table_id) × (seat.new.id ≡ seat.old.id) × (part.new.table_id ≡ part.old.table_id) }
    ensures looked { seat.new.me ≡ (looked (given_before result) seat.old.me.0, seat.old.me.1) }
    ensures named { IfSome result (λ k. (seat.old.me.0.pass.known < k) × (k ≤ most_passes) × GetsNumber k part.old.me part.new.me) }
    ensures none { IfNone result (part.new.me ≡ part.old.me) }
    ensures none_known { IfNone result (seat.old.me.0.pass.known ≤ most_passes) }
{
    for _ in rt.forever() {
        let next = look_up(words, seat);
        if next > MOST_PASSES {
            return None;
        }
        if try_name(words, part, next) {
            return Some(next);
        }
    }
    unreachable!()
}

// The part has no number yet.
pub(crate) fn split_off<B: Booked>(words: &LockWords<B>, seat: &mut Seat<B>) -> Seat<B>
    requires table { (seat.old.table_id ≡ words.now.table_id) × (words.now.table_id.words ≡ 3) }
    requires seat { seat.old.me.0.stage ≡ named }
    ensures seat { (seat.new.table_id ≡ seat.old.table_id) × (seat.new.id ≡ seat.old.id) × (seat.new.me ≡ seat.old.me) }
    ensures part { (result.table_id ≡ seat.old.table_id) × (result.me ≡ (split_view seat.old.me.0, [])) }
{
    words.split_seat::<SplitSeat>(seat)
}

// Joins the other seat, which is spent.
pub(crate) fn take_in<B: Booked>(words: &LockWords<B>, seat: &mut Seat<B>, other: Seat<B>)
    requires table { (seat.old.table_id ≡ words.now.table_id) × (other.table_id ≡ words.now.table_id) × (words.now.table_id.words ≡ 3) }
    requires seat { (seat.old.me.0.stage ≡ named) × (seat.old.me.0.held ≡ None) }
    requires other { (other.me.0.stage ≢ spent) × (other.me.0.held ≡ None) × (other.me.1 ≡ []) }
    ensures seat { (seat.new.table_id ≡ seat.old.table_id) × (seat.new.id ≡ seat.old.id) }
    ensures both { seat.new.me ≡ (both_views seat.old.me.0 other.me.0, seat.old.me.1) }
{
    words.join_seat::<JoinSeats>(seat, other);
}
