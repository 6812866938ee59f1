//! The view of the aliases.

ghost use Rattle.std.specs.Prelude.{◌≡◌, ℕ, List, [], ◌∷◌, IfOk, Some, ◌↔◌};
ghost use Rattle.std.specs.Option.{option_map};
ghost use Rattle.payload_rules.specs.Payloads.{Payload, AliasSet, AliasDelete};
ghost use Rattle.view_rules.specs.Changes.{Change, HaveDistinctPlaces};
ghost use Rattle.view_rules.specs.Views.{ShowsAlias};
ghost use Rattle.view_rules.specs.Standing.{value_of};
ghost use Rattle.latest_values.specs.Settings.{said_of};
ghost use Rattle.alias_view.specs.Aliases.{IsReady, KeepsRooms, Means};
ghost use Rattle.std.specs.Prelude.{◌≤◌};
ghost use Rattle.view_rules.specs.Answers.{AliasListAnswer};
ghost use Rattle.latest_values.specs.Lists.{items_seen};

use latest_values::{LatestValues, Setting, Showing};
use plain_types::{NoMemory, Text};
use record_model::NamedTexts;
use std::alloc::Global;
use std::marker::Model;

/// The aliases: what each name stands for.
#[derive(Drop)]
pub struct AliasView {
    names: LatestValues,
}

impl Model for AliasView {
    ghost use Rattle.latest_values.specs.Settings.{Places};

    ghost Value = { Places };

    ghost view = { λ v. v.names };
}

/// What is to be added to a view: that a name has a value, or that it has none.
#[derive(Debug, Drop)]
pub struct Room {
    name: Vec<u8>,
    said: Option<Text>,
}

impl AliasView {
    /// The view of no changes. It takes no memory.
    pub fn new(alloc: Global) -> AliasView
        ensures { Means result [] }
    {
        AliasView {
            names: LatestValues::new(alloc),
        }
    }

    /// Makes a room ready for a setting of the name to the value. No later call undoes that.
    ///
    /// # Errors
    ///
    /// [`NoMemory`]. The view means what it meant.
    pub fn reserve_set(
        &mut self,
        alloc: Global,
        name: &Text,
        value: &Text,
    ) -> Result<Room, NoMemory>
        ensures ready { IfOk result (λ room. IsReady self.new room (AliasSet name.now value.now)) }
        ensures same { (q : List ℕ) → said_of self.new q ≡ said_of self.old q }
        ensures rooms { KeepsRooms self.old self.new }
    {
        let said = value.copy(alloc)?;
        let name = self.names.reserve(alloc, name.as_bytes())?;
        Ok(Room {
            name,
            said: Some(said),
        })
    }

    /// Makes a room ready for an ending of the name. No later call undoes that.
    ///
    /// # Errors
    ///
    /// [`NoMemory`]. The view means what it meant.
    pub fn reserve_end(&mut self, alloc: Global, name: &Text) -> Result<Room, NoMemory>
        ensures ready { IfOk result (λ room. IsReady self.new room (AliasDelete name.now)) }
        ensures same { (q : List ℕ) → said_of self.new q ≡ said_of self.old q }
        ensures rooms { KeepsRooms self.old self.new }
    {
        let name = self.names.reserve(alloc, name.as_bytes())?;
        Ok(Room { name, said: None })
    }

    /// Adds what the room holds, as the change at this host, idx and time. It takes no memory.
    pub fn add(&mut self, host: u128, idx: u64, timestamp: u64, room: Room)
        requires { (payload : Payload) × IsReady self.old room payload }
        ensures grows { (payload : Payload) (changes : List Change) → IsReady self.old room payload → Means self.old changes → Means self.new (record { host = host; idx = idx; timestamp = timestamp; payload = payload } ∷ changes) }
        ensures rooms { KeepsRooms self.old self.new }
    {
        let setting = Setting {
            timestamp,
            host,
            idx,
            said: room.said,
        };
        self.names.add(room.name, setting);
    }

    /// What the name stands for, if anything. It takes no memory.
    pub fn get(&self, name: &[u8]) -> Option<&Text>
        ensures value { option_map (λ t. t.now) result ≡ value_of (said_of self.now name.now) }
        ensures shown { (changes : List Change) (value : List ℕ) → Means self.now changes → HaveDistinctPlaces changes → (option_map (λ t. t.now) result ≡ Some value) ↔ ShowsAlias changes name.now value }
    {
        self.names.get(name)
    }

    /// The names above `after` by their bytes that stand for values, each with its value, in rising order, as many of the
    /// first as one reply may show: at most `limit`, which is at least 1, and of several at most 4,194,304 bytes together.
    /// The empty `after` stands below every name, the empty one included.
    ///
    /// # Errors
    ///
    /// [`NoMemory`].
    pub fn list(&self, alloc: Global, after: &[u8], limit: u32) -> Result<NamedTexts, NoMemory>
        requires { 1 ≤ limit }
        ensures { IfOk result (λ page. (changes : List Change) → Means self.now changes → HaveDistinctPlaces changes → AliasListAnswer changes after.now limit (items_seen page)) }
    {
        let items = self
            .names
            .list(alloc, after, limit, Showing::NamesWithValues)?;
        Ok(NamedTexts::from_vec(items))
    }
}
