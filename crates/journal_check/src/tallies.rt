//! The maps in which a journal is kept.

ghost use Rattle.std.specs.Prelude.{◌≡◌, cond, OnOk};
ghost use Rattle.journal_check.specs.Tallies.{is_known, runs_in, held_in, same_key, count_in, ChainKey};
ghost use Rattle.journal_check.specs.Admission.{Marks, Holds};

use crate::owner_totals::OwnerTotals;
use plain_types::NoMemory;
use std::collections::HashMap;

/// The ids of started commands, each with whether it runs.
pub(crate) type Begun = HashMap<u128, bool>;

/// What each owner holds.
pub(crate) type Owners = HashMap<u32, OwnerTotals>;

/// The owner, the host and the tag of a chain.
pub(crate) type ChainKey = (u32, (u128, Vec<u8>));

/// The length of each chain.
pub(crate) type Chains = HashMap<ChainKey, u64>;

/// Whether a command was started with that id.
pub(crate) fn knows(begun: &Begun, id: u128) -> bool
    ensures { result ≡ is_known begun.now.entries id }
{
    begun.contains_key(&id)
}

/// Whether that command runs.
pub(crate) fn runs(begun: &Begun, id: u128) -> bool
    ensures { result ≡ runs_in begun.now.entries id }
{
    match begun.get(&id) {
        Some(runs) => *runs,
        None => false,
    }
}

/// Keeps that the command with this id runs, or doesn't.
pub(crate) fn mark(begun: &mut Begun, id: u128, runs: bool) -> Result<(), NoMemory>
    ensures { OnOk result (Marks id runs begun.old.entries begun.new.entries) }
{
    begun.insert(id, runs)?;
    Ok(())
}

/// What the owner holds.
pub(crate) fn held(owners: &Owners, owner: u32) -> OwnerTotals
    ensures { result ≡ held_in owners.now.entries owner }
{
    match owners.get(&owner) {
        Some(totals) => *totals,
        None => OwnerTotals {
            entries: 0,
            weight: 0,
            places: 0,
        },
    }
}

/// Keeps what the owner holds.
pub(crate) fn hold(owners: &mut Owners, owner: u32, totals: OwnerTotals) -> Result<(), NoMemory>
    ensures { OnOk result (Holds owner totals owners.old.entries owners.new.entries) }
{
    owners.insert(owner, totals)?;
    Ok(())
}

/// The length of the chain.
pub(crate) fn count(chains: &Chains, key: &ChainKey) -> u64
    ensures { result ≡ count_in chains.now.entries key.now }
{
    match chains.get(key) {
        Some(count) => *count,
        None => 0,
    }
}

/// Keeps the length of the chain.
pub(crate) fn set_count(chains: &mut Chains, key: ChainKey, count: u64) -> Result<(), NoMemory>
    ensures { OnOk result ((q : ChainKey) → count_in chains.new.entries q ≡ cond (same_key key q) count (count_in chains.old.entries q)) }
{
    match chains.insert(key, count) {
        Ok(_) => Ok(()),
        Err(_) => Err(NoMemory),
    }
}
