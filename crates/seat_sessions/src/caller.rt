//! A session's store, which others share.

ghost use Rattle.std.specs.Prelude.{◌≡◌, ◌≢◌};
ghost use Rattle.session_rules.specs.Passes.{PassMoves};
ghost use Rattle.book_lock.specs.LockPasses.{IsIdleAt};

use crate::opening::Opening;
use at_edge::{Clock, Disk, Entropy};
use record_model::{Call, Reply};
use serving_edge::Gate;
use session_seats::CallStore;
use shared_store::{Pass, SharedStore};
use std::alloc::Global;
use std::marker::{Model, PhantomData};
use std::sync::Wait;

/// A store that is shared, with the pass by which a session asks it and the gate that the session goes through. Contracts
/// see the pass, which has moved from the session's opening and has no turn out.
#[derive(Drop)]
pub(crate) struct SessionCaller<'a, J: Opening, R: Wait, D: Disk, G: Gate> {
    rt: &'a R,
    alloc: Global,
    store: &'a SharedStore<D>,
    pass: Pass<D>,
    gate: &'a G,
    // how many requests were read
    requests: u64,
    opening: PhantomData<J>,
}

impl<'a, J: Opening, R: Wait, D: Disk, G: Gate> Model for SessionCaller<'a, J, R, D, G> {
    ghost use Rattle.book_lock.specs.LockPasses.{LockPass};
    ghost use Rattle.seat_sessions.specs.Openings.{IsCaller};

    ghost Value = { LockPass };

    ghost view = { λ c. c.pass };

    ghost invariant = { λ c. IsCaller J.lock J.pass c.store.now c.pass };
}

impl<'a, J: Opening, R: Wait, D: Disk, G: Gate> SessionCaller<'a, J, R, D, G> {
    /// A caller that has asked nothing yet.
    pub(crate) fn new(
        rt: &'a R,
        alloc: Global,
        store: &'a SharedStore<D>,
        pass: Pass<D>,
        gate: &'a G,
    ) -> Self
        requires at { store.now ≡ J.lock }
        requires idle { IsIdleAt J.lock pass }
        requires named { J.pass.number ≢ 0 }
        requires opening { pass.pass ≡ J.pass }
        ensures { result ≡ pass }
    {
        SessionCaller {
            rt,
            alloc,
            store,
            pass,
            gate,
            requests: 0,
            opening: PhantomData,
        }
    }

    /// One more request was read. The reply to the one before has been written.
    fn before_turn(&mut self)
        ensures { self.new ≡ self.old }
    {
        if self.requests > 0 {
            self.gate.after_reply(self.requests);
        }
        self.requests = self.requests.saturating_add(1);
        self.gate.before_turn(self.requests);
    }

    /// The pass at the session's end. `is_written` says whether the last reply was written.
    pub(crate) fn end(self, is_written: bool) -> Pass<D>
        ensures idle { IsIdleAt J.lock result }
        ensures moves { PassMoves J.pass result.pass }
        ensures pass { result ≡ self.entry }
    {
        let SessionCaller {
            pass,
            gate,
            requests,
            ..
        } = self;
        if is_written && requests > 0 {
            gate.after_reply(requests);
        }
        pass
    }
}

impl<'a, J: Opening, R: Wait, D: Disk, G: Gate> CallStore for SessionCaller<'a, J, R, D, G> {
    ghost use Rattle.shared_store.specs.Callers.{shared_seen};

    ghost store = { λ c. shared_seen c.pass };

    fn ask<E: Entropy, C: Clock>(
        &mut self,
        number: u64,
        call: &Call,
        rand: &mut E,
        clock: &mut C,
    ) -> Reply {
        self.before_turn();
        self.store.ask(
            self.rt,
            self.alloc,
            &mut self.pass,
            number,
            call,
            rand,
            clock,
        )
    }

    fn front(&mut self) -> u64 {
        self.before_turn();
        self.store.front(self.rt, &mut self.pass)
    }
}
