//! Two threads at one lock, and as many passes as there are, over a book in memory: a list of the numbers of its entries.
ghost use Rattle.std.specs.Prelude.{◌≡◌, [], None, IfSome};
ghost use Rattle.session_rules.specs.Books.{Book, PassTurn};
ghost use Rattle.book_lock.specs.LockPasses.{IsIdleAt};
ghost use Rattle.book_lock.specs.NumberBooks.{number_book, AddsOne};

use crate::{BookLock, Booked, Pass, SplitFail};
use std::alloc::Global;
use std::marker::Model;
use std::sync::Wait;
use std::test::Fail;
use std::thread::{Threads, for_each_mut, join};

const TURNS: u32 = 1_000;

#[derive(Drop)]
struct NumberBook {
    numbers: Vec<u32>,
}

impl NumberBook {
    fn with_room(alloc: Global) -> Option<NumberBook>
        ensures { IfSome result (λ book. book.numbers.items ≡ []) }
    {
        let numbers = Vec::with_capacity(alloc, 4000).ok()?;
        Some(NumberBook { numbers })
    }

    fn add(&mut self, number: u32)
        ensures { AddsOne self.old.numbers.items self.new.numbers.items number }
    {
        if self.numbers.len() < 100_000 {
            let _ = self.numbers.push(number);
        }
    }

    fn count_of(&self, number: u32) -> usize {
        self.numbers.iter().filter(|n| **n == number).count()
    }
}

impl Booked for NumberBook {
    ghost book = { λ b. number_book b.numbers.items };

    fn entry_count(&self) -> u64 {
        self.numbers.len() as u64
    }
}

fn one_turn<R: Wait>(rt: &R, lock: &BookLock<NumberBook>, pass: &mut Pass<NumberBook>)
    requires { IsIdleAt lock.now pass.old }
    ensures pass { IsIdleAt lock.now pass.new }
    ensures turn { (found : Book) × (left : Book) × PassTurn pass.old.pass found left pass.new.pass }
{
    let number = pass.number();
    let mut turn = lock.take(rt, pass);
    turn.book().add(number);
    turn.give(pass);
}

fn many_turns<R: Wait>(
    rt: &R,
    lock: &BookLock<NumberBook>,
    mut pass: Pass<NumberBook>,
) -> Pass<NumberBook>
    requires { IsIdleAt lock.now pass }
    ensures { IsIdleAt lock.now result }
{
    for _turn in 0..TURNS {
        one_turn(rt, lock, &mut pass);
    }
    pass
}

fn in_two_threads<R: Threads + Wait + Sync>(
    rt: &R,
    alloc: Global,
    book: NumberBook,
) -> Option<NumberBook>
    requires { book.numbers.items ≡ [] }
{
    let Ok((lock, mut first)) = BookLock::new(alloc, book) else {
        return None;
    };
    let Ok(second) = lock.split(rt, &mut first) else {
        let _ = lock.close(rt, first);
        return None;
    };
    let (mut first, second) = join(
        rt,
        || -> Pass<NumberBook>
            requires { IsIdleAt lock first }
            ensures { IsIdleAt lock result }
        { many_turns(rt, &lock, first) },
        || -> Pass<NumberBook>
            requires { IsIdleAt lock second }
            ensures { IsIdleAt lock result }
        { many_turns(rt, &lock, second) },
    );
    lock.join(&mut first, second);
    Some(lock.close(rt, first))
}

#[test]
fn two_threads_take_turns(rt: HostRuntime) -> Result<(), Fail> {
    let book = NumberBook::with_room(rt.alloc()).ok_or("no memory")?;
    let book = in_two_threads(&rt, rt.alloc(), book).ok_or("no book")?;
    assert!(rt;
        book.numbers.len() == 2_000 && book.count_of(1) == 1_000 && book.count_of(2) == 1_000
    );
    Ok(())
}

// How many splits there were until no number was left, each joined back, the last number, and what was then said to be given.
fn split_all<R: Wait>(
    rt: &R,
    lock: &BookLock<NumberBook>,
    pass: &mut Pass<NumberBook>,
) -> (u32, u32, u32)
    requires { IsIdleAt lock.now pass.old }
    ensures { IsIdleAt lock.now pass.new }
{
    let mut last = 1;
    for splits in 0..70_000 {
        match lock.split(rt, pass) {
            Ok(other) => {
                last = other.number();
                lock.join(pass, other);
            }
            Err(SplitFail::Spent { given }) => return (splits, last, given),
            Err(SplitFail::NoMemory) => return (splits, last, 0),
        }
    }
    (70_000, last, 0)
}

fn splits_all<R: Wait>(rt: &R, alloc: Global, book: NumberBook) -> Option<(u32, u32, u32)>
    requires { book.numbers.items ≡ [] }
{
    let Ok((lock, mut pass)) = BookLock::new(alloc, book) else {
        return None;
    };
    let found = split_all(rt, &lock, &mut pass);
    let _ = lock.close(rt, pass);
    Some(found)
}

#[test]
fn numbers_run_out(rt: HostRuntime) -> Result<(), Fail> {
    let book = NumberBook::with_room(rt.alloc()).ok_or("no memory")?;
    let found = splits_all(&rt, rt.alloc(), book).ok_or("no book")?;
    assert!(rt; found == (65_534, 65_535, 65_535));
    Ok(())
}

/// A caller of a lock in a thread of its own, over any book.
struct Caller<'a, B: Booked> {
    lock: &'a BookLock<B>,
    pass: Pass<B>,
    ghost own: { IsIdleAt lock.now pass },
}

trait Worker {
    fn work<R: Wait>(&mut self, rt: &R);
}

impl<B: Booked> Worker for Caller<'_, B> {
    fn work<R: Wait>(&mut self, rt: &R) {
        let turn = self.lock.take(rt, &mut self.pass);
        turn.give(&mut self.pass);
    }
}

fn work_all<W: Worker + Send, R: Threads + Wait + Sync>(rt: &R, workers: &mut [W]) {
    if workers.is_empty() {
        return;
    }
    for_each_mut(
        rt,
        workers,
        workers.len(),
        &|_: usize, worker: &mut W| { worker.work(rt) },
    );
}

fn callers<B: Booked + Send, R: Threads + Wait + Sync>(rt: &R, callers: &mut [Caller<'_, B>]) {
    work_all(rt, callers);
}
