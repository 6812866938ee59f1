// What grants threads to workers, and how they are then run.

ghost use Rattle.std.specs.Prelude.{◌<◌, All};
ghost use Rattle.serving_edge.specs.Working.{InPlace, RunsAll};

use crate::Worker;
use std::sync::Wait;
use std::thread;
use std::thread::Threads;

/// No thread was to be had for the workers.
#[derive(Clone, Copy, Debug, PartialEq, Eq)]
pub struct SpawnFault;

/// Grants threads.
pub trait Spawner {
    ghost use Rattle.std.specs.Prelude.{ℕ};
    ghost use Rattle.serving_edge.specs.Working.{GrantsThreads};

    /// How often it has refused.
    ghost refusals: { Self → ℕ };

    /// In how many threads at most this many workers are to be run, at least 1; 1 is the caller's own.
    ///
    /// # Errors
    ///
    /// [`SpawnFault`], only where the count of refusals rose in this call.
    fn grant(&mut self, workers: usize) -> Result<usize, SpawnFault>
        ensures { GrantsThreads (refusals self.old) (refusals self.new) result };
}

/// Runs the workers beside each other, in as many threads as are granted, and returns when all have ended. Each is ready to
/// work. Where the system gives fewer threads, some run one after the other, and no clause says so.
///
/// # Errors
///
/// [`SpawnFault`], only where the spawner's count of refusals rose in this call. The workers are then as they were.
pub fn run_all<R: Threads + Wait + Sync, P: Spawner, W: Worker + Send>(
    rt: &R,
    spawner: &mut P,
    workers: &mut [W],
) -> Result<(), SpawnFault>
    requires { All W.ready workers.old }
    ensures { RunsAll W.worked (P.refusals spawner.old) (P.refusals spawner.new) workers.old workers.new result }
{
    match spawner.grant(workers.len()) {
        Ok(threads) => {
            run_in(rt, workers, threads);
            Ok(())
        }
        Err(SpawnFault) => Err(SpawnFault),
    }
}

/// Runs the workers in at most so many threads. Each works once.
fn run_in<R: Threads + Wait + Sync, W: Worker + Send>(rt: &R, workers: &mut [W], threads: usize)
    requires threads { 0 < threads }
    requires ready { All W.ready workers.old }
    ensures { InPlace W.worked workers.old workers.new }
{
    if workers.is_empty() {
        return;
    }
    thread::for_each_mut(
        rt,
        workers,
        threads,
        &|_: usize, worker: &mut W|
            requires { W.ready worker.old }
            ensures { W.worked worker.old worker.new }
        { worker.work(rt) },
    );
}
