// The forms of spawners.
ghost use Rattle.std.specs.Prelude.{◌≡◌, ℕ, IsErr};
ghost use Rattle.at_edge.specs.Planned.{unmade, MadeAsPlanned};
ghost use Rattle.serving_edge.specs.Working.{GrantsThreads};

use crate::failing::FailingCalls;
use crate::{SpawnFault, Spawner};

/// Grants each worker a thread of its own, and never refuses.
#[derive(Drop)]
pub struct ScopeSpawner;

impl Spawner for ScopeSpawner {
    ghost refusals = { λ _. 0 };

    fn grant(&mut self, workers: usize) -> Result<usize, SpawnFault> {
        if workers == 0 {
            return Ok(1);
        }
        Ok(workers)
    }
}

/// Grants no thread but the caller's, so that workers run one after the other. Some of its calls are refused.
#[derive(Drop)]
pub struct LineSpawner {
    failing: FailingCalls,
}

impl LineSpawner {
    ghost use Rattle.serving_edge.specs.SpawnerViews.{spawner_plan};

    /// `failing` lists the numbers of the calls that are to be refused, counted from 1.
    pub fn new(failing: Vec<u64>) -> Self
        ensures { spawner_plan result ≡ unmade failing.items }
    {
        LineSpawner {
            failing: FailingCalls::new(failing),
        }
    }
}

impl Spawner for LineSpawner {
    ghost use Rattle.serving_edge.specs.SpawnerViews.{spawner_plan};

    ghost refusals = { λ s. (spawner_plan s).faults };

    /// Refuses exactly where the number of this call is listed.
    fn grant(&mut self, workers: usize) -> Result<usize, SpawnFault>
        ensures grants { GrantsThreads (spawner_plan self.old).faults (spawner_plan self.new).faults result }
        ensures planned { MadeAsPlanned (spawner_plan self.old) (spawner_plan self.new) (IsErr result) }
    {
        let _ = workers;
        if self.failing.next_fails() {
            return Err(SpawnFault);
        }
        Ok(1)
    }
}

/// Grants no thread but the caller's, and never refuses.
#[derive(Drop)]
pub struct SureSpawner;

impl Spawner for SureSpawner {
    ghost refusals = { λ _. 0 };

    fn grant(&mut self, workers: usize) -> Result<usize, SpawnFault> {
        let _ = workers;
        Ok(1)
    }
}
