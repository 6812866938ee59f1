//! The plan.

ghost use Rattle.std.specs.Prelude.{◌≡◌, [], ◌++◌, IfOk, OnOk};
ghost use Rattle.std.specs.List.{cons_option};
ghost use Rattle.plan_rules.specs.Plans.{step_between, plan as plan_of};
ghost use Rattle.record_model.specs.Seen.{chain_seen, chains_seen};
ghost use Rattle.sync_plan.specs.FirstPlaces.{place_of};
ghost use Rattle.sync_plan.specs.Seen.{steps_seen, AreInOrder};

use crate::places::first_place;
use crate::steps::Step;
use plain_types::NoMemory;
use record_model::Chain;
use std::alloc::Global;

/// Appends the step for the place of a chain of which this store has so many records and the other one so many, if they
/// differ.
fn add_step(
    alloc: Global,
    steps: &mut Vec<Step>,
    chain: &Chain,
    local: u64,
    remote: u64,
) -> Result<(), NoMemory>
    ensures { OnOk result (steps_seen steps.new.items ≡ steps_seen steps.old.items
        ++ cons_option (step_between (place_of (chain_seen chain.now)) local remote) []) }
{
    if local != remote {
        steps.push(Step {
            host: chain.host,
            tag: chain.tag.copy(alloc)?,
            upload: remote < local,
            from: local.min(remote),
            to: local.max(remote),
        })?;
    }
    Ok(())
}

/// The steps that make this store and the other one hold the same, from their statuses: for each place of either, in order
/// of host, then tag, what the other one lacks is sent, and what this store lacks is taken. Both statuses are in that order,
/// and list no place twice.
///
/// # Errors
///
/// [`NoMemory`].
pub fn plan(alloc: Global, local: &[Chain], remote: &[Chain]) -> Result<Vec<Step>, NoMemory>
    requires local { AreInOrder local.now }
    requires remote { AreInOrder remote.now }
    ensures { IfOk result (λ steps. steps_seen steps.items ≡ plan_of (chains_seen local.now) (chains_seen remote.now)) }
{
    let mut steps = Vec::new(alloc);
    let mut ours = local;
    let mut theirs = remote;
    while let Some(first) = first_place(ours, theirs) {
        add_step(alloc, &mut steps, first.chain, first.local, first.remote)?;
        ours = first.ours;
        theirs = first.theirs;
    }
    Ok(steps)
}
