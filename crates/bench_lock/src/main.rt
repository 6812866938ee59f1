//! Threads that take turns at one lock, for measuring alone: nothing stands on this program.
//!
//! `turns THREADS COUNT`: each of the threads takes so many turns, and draws 1,000 numbers in each. `held THREADS`: one
//! thread holds a turn for a second, while the others wait for theirs. What is promised is what `book_lock` promises.
#![tactic(auto)]

ghost use Rattle.std.specs.Prelude.{◌≡◌, [], IfSome};
ghost use Rattle.book_lock.specs.LockPasses.{IsIdleAt};
ghost use Rattle.book_lock.specs.NumberBooks.{number_book, AddsOne};

use book_lock::{BookLock, Booked, Pass};
use std::alloc::Global;
use std::env;
use std::process::ExitCode;
use std::sync::Wait;
use std::thread::{Threads, for_each_mut, sleep};
use std::time::{Clock, Duration};

/// How many turns are counted: a book's entries are no more.
const MOST_TURNS: usize = 100_000;

/// How many numbers are drawn in a turn, in some 2 µs.
const DRAWS: u32 = 1_000;

/// The numbers of the passes that took turns, in their order.
#[derive(Drop)]
struct TurnBook {
    numbers: Vec<u32>,
}

impl TurnBook {
    fn with_room(alloc: Global) -> Option<TurnBook>
        ensures { IfSome result (λ book. book.numbers.items ≡ []) }
    {
        let numbers = Vec::with_capacity(alloc, MOST_TURNS).ok()?;
        Some(TurnBook { numbers })
    }

    fn add(&mut self, number: u32)
        ensures { AddsOne self.old.numbers.items self.new.numbers.items number }
    {
        if self.numbers.len() < MOST_TURNS {
            let _ = self.numbers.push(number);
        }
    }
}

impl Booked for TurnBook {
    ghost book = { λ b. number_book b.numbers.items };

    fn entry_count(&self) -> u64 {
        self.numbers.len() as u64
    }
}

/// A thread's pass at the lock, and what it does.
#[derive(Drop)]
struct Caller<'a> {
    lock: &'a BookLock<TurnBook>,
    pass: Pass<TurnBook>,
    state: u64,
    turns: u32,
    /// How many milliseconds it sleeps before its first turn.
    before: u64,
    /// How many milliseconds it sleeps in each turn.
    inside: u64,
    ghost own: { IsIdleAt lock.now pass },
}

impl Caller<'_> {
    fn work<R: Wait + Clock>(&mut self, rt: &R) {
        rest(rt, self.before);
        for _turn in 0..self.turns {
            one_turn(rt, self.lock, &mut self.pass, &mut self.state, self.inside);
        }
    }
}

/// Sleeps where there is something to sleep.
fn rest(clock: &impl Clock, millis: u64) {
    if millis > 0 {
        sleep(clock, Duration::from_millis(millis));
    }
}

/// A turn in which numbers are drawn, and the pass's number is put down.
fn one_turn<R: Wait + Clock>(
    rt: &R,
    lock: &BookLock<TurnBook>,
    pass: &mut Pass<TurnBook>,
    state: &mut u64,
    inside: u64,
)
    requires { IsIdleAt lock.now pass.old }
    ensures { IsIdleAt lock.now pass.new }
{
    let number = pass.number();
    let mut turn = lock.take(rt, pass);
    turn.book().add(number);
    rest(rt, inside);
    *state = drawn(*state);
    turn.give(pass);
}

/// The state of Marsaglia's 64-bit xorshift after so many draws.
fn drawn(mut state: u64) -> u64 {
    for _draw in 0..DRAWS {
        state ^= state << 13;
        state ^= state >> 7;
        state ^= state << 17;
    }
    state
}

/// A caller in a thread of its own.
trait Worker {
    fn work_in<R: Wait + Clock>(&mut self, rt: &R);
}

impl Worker for Caller<'_> {
    fn work_in<R: Wait + Clock>(&mut self, rt: &R) {
        self.work(rt)
    }
}

fn work_all<W: Worker + Send, R: Threads + Wait + Clock + Sync>(rt: &R, workers: &mut [W]) {
    if workers.is_empty() {
        return;
    }
    for_each_mut(
        rt,
        workers,
        workers.len(),
        &|_: usize, worker: &mut W| { worker.work_in(rt) },
    );
}

/// What the words ask for.
#[derive(Drop)]
struct Plan {
    threads: usize,
    turns: u32,
    held: bool,
}

/// The plan of the words, where they are one.
fn plan_of(words: &[String]) -> Option<Plan> {
    match words {
        [kind, threads, turns] if kind.as_str() == "turns" => Some(Plan {
            threads: threads.as_str().parse().ok()?,
            turns: turns.as_str().parse().ok()?,
            held: false,
        }),
        [kind, threads] if kind.as_str() == "held" => Some(Plan {
            threads: threads.as_str().parse().ok()?,
            turns: 1,
            held: true,
        }),
        _ => None,
    }
}

/// A caller for each thread; the first holds its turn where one is to be held.
fn callers<'a, R: Wait>(
    rt: &R,
    alloc: Global,
    lock: &'a BookLock<TurnBook>,
    first: &mut Pass<TurnBook>,
    plan: &Plan,
) -> Option<Vec<Caller<'a>>>
    requires { IsIdleAt lock.now first.old }
    ensures { IsIdleAt lock.now first.new }
{
    let mut callers = Vec::new(alloc);
    for thread in 0..plan.threads {
        let pass = lock.split(rt, first).ok()?;
        let holds = plan.held && thread == 0;
        let caller = Caller {
            lock,
            pass,
            state: 1,
            turns: plan.turns,
            before: if plan.held && !holds { 100 } else { 0 },
            inside: if holds { 1000 } else { 0 },
        };
        callers.push(caller).ok()?;
    }
    Some(callers)
}

/// Runs the threads, and answers how many turns the book counted.
fn run<R: Threads + Wait + Clock + Sync>(rt: &R, alloc: Global, plan: &Plan) -> Option<usize> {
    let book = TurnBook::with_room(alloc)?;
    let Ok((lock, mut first)) = BookLock::new(alloc, book) else {
        return None;
    };
    if let Some(mut callers) = callers(rt, alloc, &lock, &mut first, plan) {
        work_all(rt, &mut callers);
    }
    Some(lock.close(rt, first).numbers.len())
}

fn main(rt: HostRuntime) -> ExitCode {
    ExitCode::from(status(&rt, &rt))
}

/// 0 where the threads ran. The runtime comes twice, since only a parameter of its own can say that it has threads.
fn status<R: Threads + Wait + Clock + Sync>(rt: &HostRuntime, threads: &R) -> u8 {
    let Some(words) = words_of(rt) else {
        return 11;
    };
    let Some(plan) = plan_of(&words) else {
        return 2;
    };
    let Some(count) = run(threads, rt.alloc(), &plan) else {
        return 11;
    };
    match println!(rt; "{} turns", count) {
        Ok(()) => 0,
        Err(_) => 5,
    }
}

/// The words behind the program's name.
fn words_of(rt: &HostRuntime) -> Option<Vec<String>> {
    env::args(rt).ok()?.skip(1).collect(rt.alloc()).ok()
}
