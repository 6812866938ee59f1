//! The chains of one host, by their tags.

ghost use Rattle.std.specs.Prelude.{◌≡◌, ◌<◌, ◌≤◌, ℕ, List, [], ◌∷◌, ◌++◌, length, true, slice_get, OnOk, None};
ghost use Rattle.std.specs.Option.{is_some};
ghost use Rattle.record_model.specs.Seen.{chains_seen};
ghost use Rattle.chain_index.specs.Chains.{IsTag, AreRising, count_of, counts_in, find_tag, chain_in, TagsGrow, PutsTag};

use crate::links::{Link, Links};
use plain_types::{NoMemory, Text};
use record_model::Chain;
use std::alloc::Global;
use std::collections::BTreeMap;
use std::marker::Model;

/// Chains by their tags, in rising order.
#[derive(Drop)]
pub struct Tags {
    chains: BTreeMap<Vec<u8>, Links>,
}

impl Model for Tags {
    ghost use Rattle.chain_index.specs.Chains.{TagsSeen};

    ghost Value = { TagsSeen };

    ghost view = { λ t. t.chains.entries };

    ghost use Rattle.std.specs.Prelude.{All};
    ghost use Rattle.std.specs.Map.{keys_of};
    ghost use Rattle.record_model.specs.Seen.{chains_seen};
    ghost use Rattle.chain_index.specs.Chains.{IsTag};

    ghost invariant = { λ t. All IsTag (keys_of t.chains.entries) };
}

impl Tags {
    /// No chains. It takes no memory.
    pub fn new(alloc: Global) -> Tags
        ensures { result ≡ [] }
    {
        Tags {
            chains: BTreeMap::new(alloc),
        }
    }

    /// How many records the tag has.
    pub fn count(&self, tag: &[u8]) -> u64
        ensures { result ≡ length (chain_in self.now tag.now).links }
    {
        match self.chains.get(tag) {
            Some(chain) => chain.len(),
            None => 0,
        }
    }

    /// The record of the tag at this idx.
    pub fn get(&self, tag: &[u8], idx: u64) -> Option<Link>
        ensures { result ≡ slice_get (chain_in self.now tag.now).links idx }
    {
        match self.chains.get(tag) {
            Some(chain) => chain.get(idx),
            None => None,
        }
    }

    /// Whether a place was made for the tag.
    fn has(&self, tag: &[u8]) -> bool
        ensures { result ≡ is_some (find_tag self.now tag.now) }
    {
        self.chains.contains_key(tag)
    }

    /// Puts a chain without records for a tag that has no place.
    fn put_new(&mut self, tag: Vec<u8>, none: Links) -> Result<(), NoMemory>
        requires text { IsTag tag }
        requires absent { find_tag self.old tag.items ≡ None }
        requires links { none.links ≡ [] }
        requires reserved { none.reserved ≡ 0 }
        ensures made { OnOk result (is_some (find_tag self.new tag.items) ≡ true) }
        ensures same { (t : List ℕ) → chain_in self.new t ≡ chain_in self.old t }
    {
        match self.chains.insert(tag, none) {
            Ok(_) => Ok(()),
            Err(_) => Err(NoMemory),
        }
    }

    /// Makes a place for the tag.
    ///
    /// # Errors
    ///
    /// [`NoMemory`].
    fn make(&mut self, alloc: Global, tag: &Text) -> Result<(), NoMemory>
        ensures made { OnOk result (is_some (find_tag self.new tag.now) ≡ true) }
        ensures same { (t : List ℕ) → chain_in self.new t ≡ chain_in self.old t }
    {
        if self.has(tag.as_bytes()) {
            return Ok(());
        }
        let own = Vec::from_slice(alloc, tag.as_bytes())?;
        self.put_new(own, Links::new(alloc))
    }

    /// Makes room in a chain that has a place.
    fn reserve_in(&mut self, tag: &[u8], idx: u64) -> Result<(), NoMemory>
        requires { is_some (find_tag self.old tag.now) ≡ true }
        ensures made { OnOk result (idx < (chain_in self.new tag.now).reserved) }
        ensures grows { TagsGrow self.old self.new }
    {
        match self.chains.get_mut(tag) {
            Some(chain) => chain.reserve(idx),
            None => unreachable!(),
        }
    }

    /// Makes room for the records of the tag up to this idx.
    ///
    /// # Errors
    ///
    /// [`NoMemory`].
    pub fn reserve(&mut self, alloc: Global, tag: &Text, idx: u64) -> Result<(), NoMemory>
        ensures made { OnOk result (idx < (chain_in self.new tag.now).reserved) }
        ensures grows { TagsGrow self.old self.new }
    {
        self.make(alloc, tag)?;
        self.reserve_in(tag.as_bytes(), idx)
    }

    /// Adds the next record of the tag, for which there is room. It takes no memory.
    pub fn add(&mut self, tag: &[u8], link: Link)
        requires { length (chain_in self.old tag.now).links < (chain_in self.old tag.now).reserved }
        ensures { PutsTag tag.now link self.old self.new }
    {
        match self.chains.get_mut(tag) {
            Some(chain) => chain.add(link),
            None => unreachable!(),
        }
    }

    /// Adds to a status those of its chains that have records, in rising order of tag.
    ///
    /// # Errors
    ///
    /// [`NoMemory`].
    pub fn list(&self, alloc: Global, host: u128, status: &mut Vec<Chain>) -> Result<(), NoMemory>
        ensures listed { OnOk result (chains_seen status.new.items ≡ chains_seen status.old.items ++ counts_in host self.now) }
        ensures rising { AreRising self.now }
    {
        for (tag, links) in self.chains.iter() {
            list_one(alloc, host, tag, links.len(), status)?;
        }
        Ok(())
    }
}

/// Adds a chain to a status where it has records.
fn list_one(
    alloc: Global,
    host: u128,
    tag: &Vec<u8>,
    count: u64,
    status: &mut Vec<Chain>,
) -> Result<(), NoMemory>
    requires { IsTag tag.now }
    ensures { OnOk result (chains_seen status.new.items ≡ chains_seen status.old.items ++ count_of host tag.now.items count) }
{
    if count > 0 {
        let tag = Text::copied(alloc, tag.as_slice())?;
        status.push(Chain { host, tag, count })?;
    }
    Ok(())
}
