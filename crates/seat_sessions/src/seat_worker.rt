//! Workers that serve connections.

ghost use Rattle.std.specs.Prelude.{◌≡◌, ◌≢◌, true, Some, None};
ghost use Rattle.book_lock.specs.LockPasses.{IsIdleAt};
ghost use Rattle.call_supplies.specs.Supplies.{supplies};
ghost use Rattle.shared_store.specs.Books.{has_key};
ghost use Rattle.seat_sessions.specs.Seats.{seat_seen, MayServe, ServesNext};

use crate::session::serve_session;
use at_edge::{Clock, Disk, Entropy};
use serving_edge::{Accepted, Gate, Listener, Seat, SeatEnd, Worker};
use shared_store::{Pass, SharedStore};
use std::alloc::Global;
use std::sync::Wait;
use std::thread::Threads;

/// Serves the connections of a seat, one after the other, over a store that others share.
#[derive(Drop)]
pub struct SeatWorker<'a, D: Disk, A, E, C, G> {
    alloc: Global,
    store: &'a SharedStore<D>,
    // lent to a session while it is served, and there at any other time
    pass: Option<Pass<D>>,
    seat: Seat<A, E, C, G>,
    ended: Option<SeatEnd>,
}

impl<'a, D: Disk, A: Listener, E: Entropy, C: Clock, G: Gate> SeatWorker<'a, D, A, E, C, G> {
    /// A worker at this seat, whose listener has no connection out. The pass is of this store, has no turn out and has a
    /// number, and the store has a key. What sessions need is taken when they begin.
    pub fn new(
        alloc: Global,
        store: &'a SharedStore<D>,
        pass: Pass<D>,
        seat: Seat<A, E, C, G>,
    ) -> Self
        requires idle { IsIdleAt store.now pass }
        requires named { pass.pass.number ≢ 0 }
        requires key { has_key pass.pass.fixed ≡ true }
        requires free { (A.listener seat.listener).out ≡ None }
        ensures ready { MayServe result.store.now result.pass (A.listener result.seat.listener) }
        ensures lock { result.store.now ≡ store.now }
        ensures pass { result.pass ≡ Some pass }
        ensures seat { result.seat ≡ seat }
        ensures ended { result.ended ≡ None }
    {
        SeatWorker {
            alloc,
            store,
            pass: Some(pass),
            seat,
            ended: None,
        }
    }

    /// How the work ended. It has ended.
    pub fn ended(&self) -> SeatEnd
        requires { self.now.ended ≢ None }
        ensures { self.now.ended ≡ Some result }
    {
        match self.ended {
            Some(end) => end,
            None => unreachable!(),
        }
    }

    /// What the worker owns, as it then is: a pass without a turn, and a listener without a connection out.
    pub fn into_parts(self) -> (Pass<D>, Seat<A, E, C, G>)
        requires { MayServe self.store.now self.pass (A.listener self.seat.listener) }
        ensures idle { IsIdleAt self.entry.store.now result.0 }
        ensures pass { self.entry.pass ≡ Some result.0 }
        ensures seat { result.1 ≡ self.entry.seat }
        ensures free { (A.listener result.1.listener).out ≡ None }
    {
        let SeatWorker { pass, seat, .. } = self;
        match pass {
            Some(pass) => (pass, seat),
            None => unreachable!(),
        }
    }
}

/// Serves the next connection of the seat and hands it back, or says why there is none.
fn serve_next<R: Wait, D: Disk, A: Listener, E: Entropy, C: Clock, G: Gate>(
    rt: &R,
    alloc: Global,
    store: &SharedStore<D>,
    held: &mut Option<Pass<D>>,
    seat: &mut Seat<A, E, C, G>,
) -> Option<SeatEnd>
    requires { MayServe store.now held.old (A.listener seat.old.listener) }
    ensures ready { MayServe store.now held.new (A.listener seat.new.listener) }
    ensures next { ServesNext (seat_seen store.now held.old (A.listener seat.old.listener) (supplies (E.entropy seat.old.rand) (C.clock seat.old.clock))) (seat_seen store.now held.new (A.listener seat.new.listener) (supplies (E.entropy seat.new.rand) (C.clock seat.new.clock))) result }
{
    let mut conn = match seat.listener.accept() {
        Accepted::Conn(conn) => conn,
        Accepted::Closed => return Some(SeatEnd::Closed),
        Accepted::Failed => return Some(SeatEnd::AcceptFault),
    };
    let Some(pass) = held.take() else {
        unreachable!()
    };
    let (_outcome, pass) = serve_session(
        rt,
        alloc,
        store,
        pass,
        &mut conn,
        &mut seat.rand,
        &mut seat.clock,
        &seat.gate,
    );
    *held = Some(pass);
    seat.listener.finish(conn);
    None
}

impl<'a, D: Disk, A: Listener, E: Entropy, C: Clock, G: Gate> Worker
    for SeatWorker<'a, D, A, E, C, G> {
    ghost use Rattle.seat_sessions.specs.Seats.{SeatWorked};

    ghost ready = { λ w. MayServe w.store.now w.pass (A.listener w.seat.listener) };

    ghost worked = { λ w v. MayServe v.store.now v.pass (A.listener v.seat.listener) × SeatWorked (seat_seen w.store.now w.pass (A.listener w.seat.listener) (supplies (E.entropy w.seat.rand) (C.clock w.seat.clock))) (seat_seen v.store.now v.pass (A.listener v.seat.listener) (supplies (E.entropy v.seat.rand) (C.clock v.seat.clock))) v.ended };

    /// Serves until no connection comes any more, or an accept fails.
    fn work<R: Threads + Wait + Sync>(&mut self, rt: &R) {
        for _ in rt.forever() {
            let next = serve_next(rt, self.alloc, self.store, &mut self.pass, &mut self.seat);
            match next {
                Some(end) => {
                    self.ended = Some(end);
                    return;
                }
                None => (),
            }
        }
        unreachable!()
    }
}
