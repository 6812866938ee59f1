//! A session's store, where others have turns too.

ghost use Rattle.std.specs.Prelude.{◌≡◌, ◌≢◌};
ghost use Rattle.book_lock.specs.LockPasses.{IsIdleAt};

use crate::shared::{Pass, SharedStore};
use at_edge::{Clock, Disk, Entropy};
use record_model::{Call, Reply};
use session_seats::CallStore;
use std::alloc::Global;
use std::sync::Wait;

/// A store that is shared, with the pass by which a session asks it, and the memory for its answers. The pass is of this
/// store, has no turn out, and has a number.
pub struct SharedCaller<'a, R: Wait, D: Disk> {
    pub rt: &'a R,
    pub alloc: Global,
    pub store: &'a SharedStore<D>,
    pub pass: Pass<D>,
    pub ghost idle: { IsIdleAt store.now pass },
    pub ghost named: { pass.pass.number ≢ 0 },
}

impl<'a, R: Wait, D: Disk> CallStore for SharedCaller<'a, R, D> {
    ghost use Rattle.shared_store.specs.Callers.{shared_seen};

    ghost store = { λ s. shared_seen s.pass.pass };

    fn ask<E: Entropy, C: Clock>(
        &mut self,
        number: u64,
        call: &Call,
        rand: &mut E,
        clock: &mut C,
    ) -> Reply {
        self.store.ask(
            self.rt,
            self.alloc,
            &mut self.pass,
            number,
            call,
            rand,
            clock,
        )
    }

    fn front(&mut self) -> u64 {
        self.store.front(self.rt, &mut self.pass)
    }
}
