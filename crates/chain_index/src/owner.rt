//! What one owner has.

ghost use Rattle.std.specs.Prelude.{◌≡◌, ◌<◌, ◌≤◌, ◌+◌, ◌^◌, ℕ, [], length, true, slice_get, IfOk, OnOk, None};
ghost use Rattle.std.specs.Option.{is_some};
ghost use Rattle.record_model.specs.Seen.{chains_seen};
ghost use Rattle.chain_index.specs.Chains.{IsStatusOf, tags_in, find_host, chain_of_host, chain_of_owner, no_owner, held_with_entry, places_by, HostsGrow, PutsHost, OwnerGrows, OwnerAddsIf};

use crate::links::Link;
use crate::tags::Tags;
use plain_types::{NoMemory, Text};
use record_model::Chain;
use std::alloc::Global;
use std::collections::BTreeMap;
use std::marker::Model;

/// What counts against an owner's limits: its entries, their weights together in bytes, and the places of its records.
#[derive(Clone, Copy, Debug, PartialEq, Eq)]
pub struct Held {
    pub entries: u64,
    pub bytes: u64,
    pub places: u64,
}

impl Held {
    /// With one more entry of this weight, which adds so many places.
    fn with_entry(self, weight: u64, places: u64) -> Held
        requires entries { self.entries + 1 < 2 ^ 64 }
        requires bytes { self.bytes + weight < 2 ^ 64 }
        requires places { self.places + places < 2 ^ 64 }
        ensures { result ≡ held_with_entry self weight places }
    {
        Held {
            entries: self.entries + 1,
            bytes: self.bytes + weight,
            places: self.places + places,
        }
    }
}

/// How many places a record adds behind so many of its chain.
fn places_by(count: u64) -> u64
    ensures { result ≡ places_by count }
{
    if count == 0 { 1 } else { 0 }
}

/// An owner's chains by host, in rising order.
type Hosts = BTreeMap<u128, Tags>;

/// The chains of an owner, and what counts against its limits.
#[derive(Drop)]
pub struct OwnerChains {
    held: Held,
    hosts: Hosts,
}

impl Model for OwnerChains {
    ghost use Rattle.std.specs.Prelude.{◌≤◌};
    ghost use Rattle.chain_index.specs.Chains.{OwnerSeen};

    ghost Value = { OwnerSeen };

    ghost view = { λ o. record { held = o.held; hosts = o.hosts.entries } };

    ghost invariant = { λ o. o.held.places ≤ o.held.entries };
}

/// Whether a place was made for the host.
fn has(hosts: &Hosts, host: u128) -> bool
    ensures { result ≡ is_some (find_host hosts.now.entries host) }
{
    hosts.contains_key(&host)
}

/// Puts a host that has no place yet, without chains.
fn put_new(hosts: &mut Hosts, host: u128, none: Tags) -> Result<(), NoMemory>
    requires absent { find_host hosts.old.entries host ≡ None }
    requires none { none ≡ [] }
    ensures made { OnOk result (is_some (find_host hosts.new.entries host) ≡ true) }
    ensures same { (h : ℕ) → tags_in hosts.new.entries h ≡ tags_in hosts.old.entries h }
{
    match hosts.insert(host, none) {
        Ok(_) => Ok(()),
        Err(_) => Err(NoMemory),
    }
}

/// Makes a place for the host.
///
/// # Errors
///
/// [`NoMemory`].
fn make(hosts: &mut Hosts, alloc: Global, host: u128) -> Result<(), NoMemory>
    ensures made { OnOk result (is_some (find_host hosts.new.entries host) ≡ true) }
    ensures same { (h : ℕ) → tags_in hosts.new.entries h ≡ tags_in hosts.old.entries h }
{
    if has(hosts, host) {
        return Ok(());
    }
    put_new(hosts, host, Tags::new(alloc))
}

/// Makes room for the records of a host that has a place.
fn reserve_in(
    hosts: &mut Hosts,
    alloc: Global,
    host: u128,
    tag: &Text,
    idx: u64,
) -> Result<(), NoMemory>
    requires { is_some (find_host hosts.old.entries host) ≡ true }
    ensures made { OnOk result (idx < (chain_of_host hosts.new.entries host tag.now).reserved) }
    ensures grows { HostsGrow hosts.old.entries hosts.new.entries }
{
    match hosts.get_mut(&host) {
        Some(tags) => tags.reserve(alloc, tag, idx),
        None => unreachable!(),
    }
}

/// Adds the next record of the host and tag, for which there is room.
fn add_in(hosts: &mut Hosts, host: u128, tag: &[u8], link: Link)
    requires { length (chain_of_host hosts.old.entries host tag.now).links < (chain_of_host hosts.old.entries host tag.now).reserved }
    ensures { PutsHost host tag.now link hosts.old.entries hosts.new.entries }
{
    match hosts.get_mut(&host) {
        Some(tags) => tags.add(tag, link),
        None => unreachable!(),
    }
}

impl OwnerChains {
    /// No chains. It takes no memory.
    pub fn new(alloc: Global) -> OwnerChains
        ensures { result ≡ no_owner }
    {
        OwnerChains {
            held: Held {
                entries: 0,
                bytes: 0,
                places: 0,
            },
            hosts: BTreeMap::new(alloc),
        }
    }

    /// What counts against its limits.
    pub fn held(&self) -> Held
        ensures held { result ≡ self.now.held }
        ensures places { result.places ≤ result.entries }
    {
        self.held
    }

    /// How many records the host and tag have.
    pub fn count(&self, host: u128, tag: &[u8]) -> u64
        ensures { result ≡ length (chain_of_owner self.now host tag.now).links }
    {
        match self.hosts.get(&host) {
            Some(tags) => tags.count(tag),
            None => 0,
        }
    }

    /// The record of the host and tag at this idx.
    pub fn get(&self, host: u128, tag: &[u8], idx: u64) -> Option<Link>
        ensures { result ≡ slice_get (chain_of_owner self.now host tag.now).links idx }
    {
        match self.hosts.get(&host) {
            Some(tags) => tags.get(tag, idx),
            None => None,
        }
    }

    /// Makes room for the records of the host and tag up to this idx.
    ///
    /// # Errors
    ///
    /// [`NoMemory`].
    pub fn reserve(
        &mut self,
        alloc: Global,
        host: u128,
        tag: &Text,
        idx: u64,
    ) -> Result<(), NoMemory>
        ensures made { OnOk result (idx < (chain_of_owner self.new host tag.now).reserved) }
        ensures grows { OwnerGrows self.old self.new }
    {
        make(&mut self.hosts, alloc, host)?;
        reserve_in(&mut self.hosts, alloc, host, tag, idx)
    }

    /// Adds the next record of the host and tag, of this weight, for which there is room. It takes no memory.
    pub fn add(&mut self, host: u128, tag: &[u8], weight: u64, link: Link)
        requires room { length (chain_of_owner self.old host tag.now).links < (chain_of_owner self.old host tag.now).reserved }
        requires entries { self.old.held.entries + 1 < 2 ^ 64 }
        requires bytes { self.old.held.bytes + weight < 2 ^ 64 }
        ensures { OwnerAddsIf true host tag.now weight link self.old self.new }
    {
        let places = places_by(self.count(host, tag));
        self.held = self.held.with_entry(weight, places);
        add_in(&mut self.hosts, host, tag, link);
    }

    /// Counts an entry of this weight that is no record. It takes no memory.
    pub fn add_started(&mut self, weight: u64)
        requires entries { self.old.held.entries + 1 < 2 ^ 64 }
        requires bytes { self.old.held.bytes + weight < 2 ^ 64 }
        ensures held { self.new.held ≡ held_with_entry self.old.held weight 0 }
        ensures hosts { self.new.hosts ≡ self.old.hosts }
    {
        self.held = self.held.with_entry(weight, 0);
    }

    /// Its status: those of its chains that have records, in rising order of host, then of tag.
    ///
    /// # Errors
    ///
    /// [`NoMemory`].
    pub fn status(&self, alloc: Global) -> Result<Vec<Chain>, NoMemory>
        ensures { IfOk result (λ status. IsStatusOf self.now (chains_seen status.items)) }
    {
        let mut status = Vec::new(alloc);
        for (host, tags) in self.hosts.iter() {
            tags.list(alloc, *host, &mut status)?;
        }
        Ok(status)
    }
}
