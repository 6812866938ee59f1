//! The store of one caller.

ghost use Rattle.std.specs.Prelude.{◌≡◌};

use at_edge::{Clock, Disk, Entropy};
use record_model::{Call, Caller, Reply};
use session_seats::CallStore;
use std::alloc::Global;
use told_store::ToldStore;

/// The number of the pass by which all its calls are made.
const LONE_PASS: u32 = 1;

/// A store that one caller alone has, with the memory for its answers.
#[derive(Drop)]
pub struct LoneStore<D: Disk> {
    pub alloc: Global,
    pub store: ToldStore<D>,
}

impl<D: Disk> CallStore for LoneStore<D> {
    ghost use Rattle.lone_store.specs.Lone.{lone_seen};

    ghost store = { λ s. lone_seen s.store };

    fn ask<E: Entropy, C: Clock>(
        &mut self,
        number: u64,
        call: &Call,
        rand: &mut E,
        clock: &mut C,
    ) -> Reply {
        let caller = Caller {
            number: LONE_PASS,
            call: number,
            settled_for: 0,
        };
        self.store.ask(self.alloc, caller, call, rand, clock)
    }

    fn front(&mut self) -> u64 {
        self.store.front()
    }
}
