//! The view of the values under keys.

ghost use Rattle.std.specs.Prelude.{◌≡◌, ℕ, List, [], ◌∷◌, IfOk, Some, ◌↔◌};
ghost use Rattle.std.specs.Option.{option_map};
ghost use Rattle.payload_rules.specs.Payloads.{Payload, KvSet, KvDelete};
ghost use Rattle.view_rules.specs.Changes.{Change, HaveDistinctPlaces};
ghost use Rattle.view_rules.specs.Views.{ShowsKv};
ghost use Rattle.view_rules.specs.Standing.{value_of};
ghost use Rattle.kv_view.specs.Pairs.{said_in, IsReady, KeepsRooms, Means, keys_listed};
ghost use Rattle.std.specs.Prelude.{◌≤◌};
ghost use Rattle.view_rules.specs.Answers.{KvListAnswer};

use crate::spaces::{Spaces, add, get, list, make_key, make_space, names_of};
use latest_values::Setting;
use plain_types::{NoMemory, Text};
use record_model::Texts;
use std::alloc::Global;
use std::collections::BTreeMap;
use std::marker::Model;

/// The values under keys, by namespaces.
#[derive(Drop)]
pub struct KvView {
    spaces: Spaces,
}

impl Model for KvView {
    ghost use Rattle.std.specs.Prelude.{map};
    ghost use Rattle.kv_view.specs.Pairs.{Pairs};

    ghost Value = { Pairs };

    ghost view = { λ v. map (λ e. (e.0.items, e.1)) v.spaces.entries };
}

/// What is to be added to a view: that a key of a namespace has a value, or that it has none.
#[derive(Debug, Drop)]
pub struct Room {
    namespace: Vec<u8>,
    key: Vec<u8>,
    said: Option<Text>,
}

impl KvView {
    /// The view of no changes. It takes no memory.
    pub fn new(alloc: Global) -> KvView
        ensures { Means result [] }
    {
        KvView {
            spaces: BTreeMap::new(alloc),
        }
    }

    /// Makes a room ready for a setting of the pair to the value. No later call undoes that.
    ///
    /// # Errors
    ///
    /// [`NoMemory`]. The view means what it meant.
    pub fn reserve_set(
        &mut self,
        alloc: Global,
        namespace: &Text,
        key: &Text,
        value: &Text,
    ) -> Result<Room, NoMemory>
        ensures ready { IfOk result (λ room. IsReady self.new room (KvSet namespace.now key.now value.now)) }
        ensures same { (n k : List ℕ) → said_in self.new n k ≡ said_in self.old n k }
        ensures rooms { KeepsRooms self.old self.new }
    {
        let said = value.copy(alloc)?;
        let own = Vec::from_slice(alloc, namespace.as_bytes())?;
        make_space(&mut self.spaces, alloc, namespace.as_bytes())?;
        let key = make_key(
            &mut self.spaces,
            alloc,
            namespace.as_bytes(),
            key.as_bytes(),
        )?;
        Ok(Room {
            namespace: own,
            key,
            said: Some(said),
        })
    }

    /// Makes a room ready for a deletion of the pair. No later call undoes that.
    ///
    /// # Errors
    ///
    /// [`NoMemory`]. The view means what it meant.
    pub fn reserve_delete(
        &mut self,
        alloc: Global,
        namespace: &Text,
        key: &Text,
    ) -> Result<Room, NoMemory>
        ensures ready { IfOk result (λ room. IsReady self.new room (KvDelete namespace.now key.now)) }
        ensures same { (n k : List ℕ) → said_in self.new n k ≡ said_in self.old n k }
        ensures rooms { KeepsRooms self.old self.new }
    {
        let own = Vec::from_slice(alloc, namespace.as_bytes())?;
        make_space(&mut self.spaces, alloc, namespace.as_bytes())?;
        let key = make_key(
            &mut self.spaces,
            alloc,
            namespace.as_bytes(),
            key.as_bytes(),
        )?;
        Ok(Room {
            namespace: own,
            key,
            said: None,
        })
    }

    /// Adds what the room holds, as the change at this host, idx and time. It takes no memory.
    pub fn add(&mut self, host: u128, idx: u64, timestamp: u64, room: Room)
        requires { (payload : Payload) × IsReady self.old room payload }
        ensures grows { (payload : Payload) (changes : List Change) → IsReady self.old room payload → Means self.old changes → Means self.new (record { host = host; idx = idx; timestamp = timestamp; payload = payload } ∷ changes) }
        ensures rooms { KeepsRooms self.old self.new }
    {
        let setting = Setting {
            timestamp,
            host,
            idx,
            said: room.said,
        };
        let namespace = room.namespace;
        add(&mut self.spaces, namespace.as_slice(), room.key, setting);
    }

    /// The value of the pair, if it has one. It takes no memory.
    pub fn get(&self, namespace: &[u8], key: &[u8]) -> Option<&Text>
        ensures value { option_map (λ t. t.now) result ≡ value_of (said_in self.now namespace.now key.now) }
        ensures shown { (changes : List Change) (value : List ℕ) → Means self.now changes → HaveDistinctPlaces changes → (option_map (λ t. t.now) result ≡ Some value) ↔ ShowsKv changes namespace.now key.now value }
    {
        get(&self.spaces, namespace, key)
    }

    /// The keys of the namespace above `after` by their bytes that have values, in rising order, as many of the first as
    /// one reply may show: at most `limit`, which is at least 1, and of several at most 4,194,304 bytes together. The empty
    /// `after` stands below every key, the empty one included.
    ///
    /// # Errors
    ///
    /// [`NoMemory`].
    pub fn names(
        &self,
        alloc: Global,
        namespace: &[u8],
        after: &[u8],
        limit: u32,
    ) -> Result<Texts, NoMemory>
        requires { 1 ≤ limit }
        ensures { IfOk result (λ names. (changes : List Change) → Means self.now changes → HaveDistinctPlaces changes → KvListAnswer changes namespace.now after.now limit (keys_listed names)) }
    {
        let items = list(&self.spaces, alloc, namespace, after, limit)?;
        let names = names_of(alloc, items)?;
        Ok(Texts::from_vec(names))
    }
}
