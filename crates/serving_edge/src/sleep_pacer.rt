// A pacer that sleeps.
ghost use Rattle.std.specs.Prelude.{◌≡◌};

use crate::Pacer;
use std::thread;
use std::time::{Clock, Duration};

/// Sleeps before each round, and grants it.
#[derive(Drop)]
pub struct SleepPacer<'a, R> {
    clock: &'a R,
    pause: Duration,
    granted: u64,
}

impl<'a, R: Clock> SleepPacer<'a, R> {
    ghost use Rattle.serving_edge.specs.PacerViews.{sleep_pacer_seen};

    /// A pacer that sleeps for `pause` before each round.
    pub fn new(clock: &'a R, pause: Duration) -> Self
        ensures { (sleep_pacer_seen result).granted ≡ 0 }
    {
        SleepPacer {
            clock,
            pause,
            granted: 0,
        }
    }
}

impl<R: Clock> Pacer for SleepPacer<'_, R> {
    ghost use Rattle.serving_edge.specs.PacerViews.{sleep_pacer_seen};

    ghost pacer = { sleep_pacer_seen };

    fn next(&mut self) -> bool {
        if self.granted == u64::MAX {
            return false;
        }
        thread::sleep(self.clock, self.pause);
        self.granted += 1;
        true
    }
}
