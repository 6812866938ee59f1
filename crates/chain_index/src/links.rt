//! The records of one chain.

ghost use Rattle.std.specs.Prelude.{◌≡◌, ◌<◌, ◌≤◌, [], ◌∷◌, ◌++◌, length, slice_get, OnOk};
ghost use Rattle.std.specs.Option.{option_map};

use plain_types::NoMemory;
use record_log::Spot;
use std::alloc::Global;
use std::marker::Model;

/// Where a record stands: its id, the spot of its batch, and its number among the batch's events, from 0.
#[derive(Clone, Copy, Debug, PartialEq, Eq)]
pub struct Link {
    pub id: u128,
    pub spot: Spot,
    pub at: u32,
}

/// The records of a chain in order, from idx 0. Contracts see their links, and for how many there is memory.
#[derive(Drop)]
pub struct Links {
    links: Vec<Link>,
}

impl Model for Links {
    ghost use Rattle.std.specs.Vec.{vec_capacity};
    ghost use Rattle.chain_index.specs.Chains.{ChainSeen};

    ghost Value = { ChainSeen };

    ghost view = { λ c. record { links = c.links.items; reserved = vec_capacity c.links } };
}

impl Links {
    /// A chain without records. It takes no memory.
    pub fn new(alloc: Global) -> Links
        ensures links { result.links ≡ [] }
        ensures reserved { result.reserved ≡ 0 }
    {
        Links {
            links: Vec::new(alloc),
        }
    }

    /// How many records it has.
    pub fn len(&self) -> u64
        ensures { result ≡ length self.now.links }
    {
        self.links.len() as u64
    }

    /// The record at this idx.
    pub fn get(&self, idx: u64) -> Option<Link>
        ensures { result ≡ slice_get self.now.links idx }
    {
        match self.links.get(idx as usize) {
            Some(link) => Some(*link),
            None => None,
        }
    }

    /// Makes room for the records up to this idx.
    ///
    /// # Errors
    ///
    /// [`NoMemory`].
    pub fn reserve(&mut self, idx: u64) -> Result<(), NoMemory>
        ensures made { OnOk result (idx < self.new.reserved) }
        ensures links { self.new.links ≡ self.old.links }
        ensures kept { self.old.reserved ≤ self.new.reserved }
    {
        let count = self.links.len() as u64;
        if idx < count {
            return Ok(());
        }
        match (idx - count).checked_add(1) {
            Some(more) => {
                self.links.reserve(more as usize)?;
                Ok(())
            }
            None => Err(NoMemory),
        }
    }

    /// Adds the next record, for which there is room. It takes no memory.
    pub fn add(&mut self, link: Link)
        requires { length self.old.links < self.old.reserved }
        ensures links { self.new.links ≡ self.old.links ++ link ∷ [] }
        ensures kept { self.old.reserved ≤ self.new.reserved }
    {
        match self.links.push(link) {
            Ok(()) => {}
            Err(_) => unreachable!(),
        }
    }
}
