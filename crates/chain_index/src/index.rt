//! The index.

ghost use Rattle.std.specs.Prelude.{◌≡◌, ◌<◌, ◌+◌, ◌^◌, ◌++◌, ℕ, true, List, [], ◌∷◌, length, slice_get, OnOk, IfOk, nat_eq};
ghost use Rattle.std.specs.Option.{option_map, unwrap_or};
ghost use Rattle.record_rules.specs.Records.{Entry, SealedRecord, started_weight};
ghost use Rattle.record_rules.specs.Journal.{chain, held, status, IsNumbered};
ghost use Rattle.record_rules.specs.Records as kept;
ghost use Rattle.definitions.specs.Journal.{StartedRecord};
ghost use Rattle.record_model.specs.Seen.{record_seen, chains_seen};
ghost use Rattle.chain_index.specs.Chains.{IndexSeen, no_owner, owner_in, held_in, links_in, reserved_in, has_room_for, IndexGrows, OwnersAdd};
ghost use Rattle.chain_index.specs.Meaning.{Filed, journal_of, filed_at, IsIndexOf, IsReady, KeepsRooms, SaysRecord, MayAdd, MayStart, totals_seen, is_taken, spot_seen, StandsAt, held_at};

use crate::ids::{self, Ids};
use crate::links::Link;
use crate::others::{self, Others};
use crate::owner::{Held, OwnerChains};
use plain_types::{NoMemory, Text};
use record_log::Spot;
use record_model::{Chains, Record};
use std::alloc::Global;
use std::collections::{BTreeMap, HashMap};
use std::marker::Model;

/// Where the records of a journal stand, and what each owner holds.
#[derive(Drop)]
pub struct ChainIndex {
    here: OwnerChains,
    others: Others,
    ids: Ids,
}

impl Model for ChainIndex {
    ghost use Rattle.chain_index.specs.Chains.{IndexSeen};

    ghost Value = { IndexSeen };

    ghost view = { λ c. record { here = c.here; others = c.others.entries; ids = c.ids.entries } };
}

/// Room that was made for a record.
#[derive(Debug, Drop)]
pub struct IndexRoom;

impl ChainIndex {
    /// The index of no entries. It takes no memory.
    pub fn new(alloc: Global) -> ChainIndex
        ensures { IsIndexOf result [] }
    {
        ChainIndex {
            here: OwnerChains::new(alloc),
            others: BTreeMap::new(alloc),
            ids: HashMap::new(alloc),
        }
    }

    /// What the owner has, if a place was made for it.
    fn owner(&self, owner: u32) -> Option<&OwnerChains>
        ensures { unwrap_or (option_map (λ o. o.now) result) no_owner ≡ owner_in self.now owner }
    {
        if owner == 0 {
            Some(&self.here)
        } else {
            self.others.get(&owner)
        }
    }

    /// How many records the owner has of the host and tag.
    pub fn count(&self, owner: u32, host: u128, tag: &[u8]) -> u64
        ensures links { result ≡ length (links_in self.now owner host tag.now) }
        ensures counts { (filed : List Filed) → IsIndexOf self.now filed → result ≡ length (chain (journal_of filed) owner host tag.now) }
    {
        match self.owner(owner) {
            Some(chains) => chains.count(host, tag),
            None => 0,
        }
    }

    /// Where the owner's record of the host and tag at this idx stands.
    fn link(&self, owner: u32, host: u128, tag: &[u8], idx: u64) -> Option<Link>
        ensures { result ≡ slice_get (links_in self.now owner host tag.now) idx }
    {
        match self.owner(owner) {
            Some(chains) => chains.get(host, tag, idx),
            None => None,
        }
    }

    /// The id of the owner's record of the host and tag at this idx. None comes exactly where the idx isn't below the
    /// count. Where the chain is numbered from 0 without gaps, it is the id that any record of that host, tag and idx is
    /// compared with.
    pub fn id_at(&self, owner: u32, host: u128, tag: &[u8], idx: u64) -> Option<u128>
        ensures holder { (filed : List Filed) (r : SealedRecord) → IsIndexOf self.now filed → IsNumbered (chain (journal_of filed) owner host tag.now) → StandsAt r host tag.now idx → result ≡ held_at (journal_of filed) owner r }
        ensures id { (filed : List Filed) → IsIndexOf self.now filed → result ≡ option_map (λ r. r.id) (slice_get (chain (journal_of filed) owner host tag.now) idx) }
    {
        match self.link(owner, host, tag, idx) {
            Some(link) => Some(link.id),
            None => None,
        }
    }

    /// The spot of that record's batch, and its number there. None comes exactly where the idx isn't below the count.
    pub fn spot_at(&self, owner: u32, host: u128, tag: &[u8], idx: u64) -> Option<(Spot, u32)>
        ensures { (filed : List Filed) → IsIndexOf self.now filed → result ≡ option_map spot_seen (slice_get (filed_at filed owner host tag.now) idx) }
    {
        match self.link(owner, host, tag, idx) {
            Some(link) => Some((link.spot, link.at)),
            None => None,
        }
    }

    /// What counts against the owner's limits.
    pub fn held(&self, owner: u32) -> Held
        ensures { (filed : List Filed) → IsIndexOf self.now filed → totals_seen result ≡ held (journal_of filed) owner }
    {
        match self.owner(owner) {
            Some(chains) => chains.held(),
            None => Held {
                entries: 0,
                bytes: 0,
                places: 0,
            },
        }
    }

    /// Whether a record has the id, whoever's it is.
    pub fn has_id(&self, id: u128) -> bool
        ensures { (filed : List Filed) → IsIndexOf self.now filed → result ≡ is_taken (journal_of filed) id }
    {
        ids::has(&self.ids, id)
    }

    /// The owner's status: host, tag and length of each of its chains that has records, in order of host, then of the tag's
    /// bytes.
    ///
    /// # Errors
    ///
    /// [`NoMemory`].
    pub fn status(&self, alloc: Global, owner: u32) -> Result<Chains, NoMemory>
        ensures { IfOk result (λ chains. (filed : List Filed) → IsIndexOf self.now filed → chains_seen chains ≡ status (journal_of filed) owner) }
    {
        match self.owner(owner) {
            Some(chains) => Ok(Chains::from_vec(chains.status(alloc)?)),
            None => Ok(Chains::from_vec(Vec::new(alloc))),
        }
    }

    /// Makes room in the owner's chain.
    fn reserve_chain(
        &mut self,
        alloc: Global,
        owner: u32,
        host: u128,
        tag: &Text,
        idx: u64,
    ) -> Result<(), NoMemory>
        ensures made { OnOk result (idx < reserved_in self.new owner host tag.now) }
        ensures grows { IndexGrows self.old self.new }
    {
        if owner == 0 {
            self.here.reserve(alloc, host, tag, idx)
        } else {
            others::reserve(&mut self.others, alloc, owner, host, tag, idx)
        }
    }

    /// Makes a place for the id of a record.
    fn reserve_id(&mut self, id: u128) -> Result<(), NoMemory>
        ensures made { OnOk result (has_room_for self.new.ids id ≡ true) }
        ensures grows { IndexGrows self.old self.new }
    {
        ids::reserve(&mut self.ids, id)
    }

    /// Makes room for the owner's record. No later call undoes that.
    ///
    /// # Errors
    ///
    /// [`NoMemory`]. The index is of the same entries as before.
    pub fn reserve(
        &mut self,
        alloc: Global,
        owner: u32,
        rec: &Record,
    ) -> Result<IndexRoom, NoMemory>
        ensures ready { OnOk result (IsReady self.new owner (record_seen rec.now)) }
        ensures same { (filed : List Filed) → IsIndexOf self.old filed → IsIndexOf self.new filed }
        ensures rooms { KeepsRooms self.old self.new }
    {
        self.reserve_chain(alloc, owner, rec.host, &rec.tag, rec.idx)?;
        self.reserve_id(rec.id)?;
        Ok(IndexRoom)
    }

    /// Adds a link to the owner's chain.
    fn add_link(&mut self, owner: u32, host: u128, tag: &[u8], weight: u64, link: Link)
        requires room { length (links_in self.old owner host tag.now) < reserved_in self.old owner host tag.now }
        requires entries { (held_in self.old owner).entries + 1 < 2 ^ 64 }
        requires bytes { (held_in self.old owner).bytes + weight < 2 ^ 64 }
        ensures adds { OwnersAdd owner host tag.now weight link self.old self.new }
        ensures ids { self.new.ids ≡ self.old.ids }
    {
        if owner == 0 {
            self.here.add(host, tag, weight, link)
        } else {
            others::add(&mut self.others, owner, host, tag, weight, link)
        }
    }

    /// Adds the owner's record, for which there is room and which is the next of its chain, with the spot of its batch and
    /// its number there. It takes no memory.
    pub fn add_reserved(&mut self, owner: u32, rec: &Record, spot: Spot, at: u32, _room: IndexRoom)
        requires { MayAdd self.old owner (record_seen rec.now) }
        ensures files { (filed : List Filed) (entry : Entry) → IsIndexOf self.old filed → SaysRecord entry owner (record_seen rec.now) → IsIndexOf self.new (filed ++ record { entry = entry; spot = spot; at = at } ∷ []) }
        ensures rooms { KeepsRooms self.old self.new }
    {
        let link = Link {
            id: rec.id,
            spot,
            at,
        };
        self.add_link(owner, rec.host, rec.tag.as_bytes(), rec.weight(), link);
        ids::add(&mut self.ids, rec.id);
    }

    /// Adds an entry that says a started command of this weight. It takes no memory.
    pub fn add_started(&mut self, weight: u64)
        requires { MayStart self.old weight }
        ensures files { (filed : List Filed) (entry : Filed) (s : StartedRecord) → IsIndexOf self.old filed → entry.entry.event ≡ kept.Started s → started_weight s ≡ weight → IsIndexOf self.new (filed ++ entry ∷ []) }
        ensures rooms { KeepsRooms self.old self.new }
    {
        self.here.add_started(weight);
    }
}
