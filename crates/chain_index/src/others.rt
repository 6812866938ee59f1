//! What the owners have whose records were taken in.

ghost use Rattle.std.specs.Prelude.{◌≡◌, ◌<◌, ◌+◌, ◌^◌, ℕ, length, true, nat_eq, OnOk, None};
ghost use Rattle.std.specs.Option.{is_some};
ghost use Rattle.chain_index.specs.Chains.{find_other, other_in, no_owner, chain_of_owner, OwnerGrows, OwnerAddsIf};

use crate::links::Link;
use crate::owner::OwnerChains;
use plain_types::{NoMemory, Text};
use std::alloc::Global;
use std::collections::BTreeMap;

/// Owners, each with its chains.
pub type Others = BTreeMap<u32, OwnerChains>;

/// Whether a place was made for the owner.
fn has(others: &Others, owner: u32) -> bool
    ensures { result ≡ is_some (find_other others.now.entries owner) }
{
    others.contains_key(&owner)
}

/// Puts an owner that has no place yet, without chains.
fn put_new(others: &mut Others, owner: u32, none: OwnerChains) -> Result<(), NoMemory>
    requires absent { find_other others.old.entries owner ≡ None }
    requires none { none ≡ no_owner }
    ensures made { OnOk result (is_some (find_other others.new.entries owner) ≡ true) }
    ensures same { (o : ℕ) → other_in others.new.entries o ≡ other_in others.old.entries o }
{
    match others.insert(owner, none) {
        Ok(_) => Ok(()),
        Err(_) => Err(NoMemory),
    }
}

/// Makes a place for the owner.
///
/// # Errors
///
/// [`NoMemory`].
fn make(others: &mut Others, alloc: Global, owner: u32) -> Result<(), NoMemory>
    ensures made { OnOk result (is_some (find_other others.new.entries owner) ≡ true) }
    ensures same { (o : ℕ) → other_in others.new.entries o ≡ other_in others.old.entries o }
{
    if has(others, owner) {
        return Ok(());
    }
    put_new(others, owner, OwnerChains::new(alloc))
}

/// Makes room for the records of an owner that has a place.
fn reserve_in(
    others: &mut Others,
    alloc: Global,
    owner: u32,
    host: u128,
    tag: &Text,
    idx: u64,
) -> Result<(), NoMemory>
    requires { is_some (find_other others.old.entries owner) ≡ true }
    ensures made { OnOk result (idx < (chain_of_owner (other_in others.new.entries owner) host tag.now).reserved) }
    ensures grows { (o : ℕ) → OwnerGrows (other_in others.old.entries o) (other_in others.new.entries o) }
{
    match others.get_mut(&owner) {
        Some(chains) => chains.reserve(alloc, host, tag, idx),
        None => unreachable!(),
    }
}

/// Makes room for the records of the owner, host and tag up to this idx.
///
/// # Errors
///
/// [`NoMemory`].
pub fn reserve(
    others: &mut Others,
    alloc: Global,
    owner: u32,
    host: u128,
    tag: &Text,
    idx: u64,
) -> Result<(), NoMemory>
    ensures made { OnOk result (idx < (chain_of_owner (other_in others.new.entries owner) host tag.now).reserved) }
    ensures grows { (o : ℕ) → OwnerGrows (other_in others.old.entries o) (other_in others.new.entries o) }
{
    make(others, alloc, owner)?;
    reserve_in(others, alloc, owner, host, tag, idx)
}

/// Adds the next record of the owner, host and tag, of this weight, for which there is room. It takes no memory.
pub fn add(others: &mut Others, owner: u32, host: u128, tag: &[u8], weight: u64, link: Link)
    requires room { length (chain_of_owner (other_in others.old.entries owner) host tag.now).links < (chain_of_owner (other_in others.old.entries owner) host tag.now).reserved }
    requires entries { (other_in others.old.entries owner).held.entries + 1 < 2 ^ 64 }
    requires bytes { (other_in others.old.entries owner).held.bytes + weight < 2 ^ 64 }
    ensures { (o : ℕ) → OwnerAddsIf (nat_eq owner o) host tag.now weight link (other_in others.old.entries o) (other_in others.new.entries o) }
{
    match others.get_mut(&owner) {
        Some(chains) => chains.add(host, tag, weight, link),
        None => unreachable!(),
    }
}
