//! Names with the last that was said of each.

ghost use Rattle.std.specs.Prelude.{◌≡◌, ℕ, List, [], true, cond, IfOk, Some, None, bytes_eq};
ghost use Rattle.std.specs.Option.{option_map};
ghost use Rattle.view_rules.specs.Standing.{later, value_of};
ghost use Rattle.latest_values.specs.Settings.{setting_seen, has_name, said_of, KeepsNames};
ghost use Rattle.latest_values.specs.Lists.{IsText, IsThere, items_seen};
ghost use Rattle.view_rules.specs.Answers.{IsListOf};
ghost use Rattle.std.specs.Prelude.{◌≤◌};

use crate::listing::{Showing, list};
use crate::names::{Names, fill, held, is_latest, make};
use crate::setting::Setting;
use plain_types::{NoMemory, Text};
use record_model::NamedText;
use std::alloc::Global;
use std::collections::BTreeMap;
use std::marker::Model;

/// Names, and the last that was said of each.
#[derive(Drop)]
pub struct LatestValues {
    names: Names,
}

impl Model for LatestValues {
    ghost use Rattle.std.specs.Prelude.{map};
    ghost use Rattle.latest_values.specs.Settings.{Places};

    ghost Value = { Places };

    ghost view = { λ v. map (λ e. (e.0.items, e.1)) v.names.entries };

    ghost use Rattle.latest_values.specs.Lists.{AreTexts};

    ghost invariant = { λ v. AreTexts (map (λ e. (e.0.items, e.1)) v.names.entries) };
}

impl LatestValues {
    /// No names. It takes no memory.
    pub fn new(alloc: Global) -> LatestValues
        ensures { result ≡ [] }
    {
        LatestValues {
            names: BTreeMap::new(alloc),
        }
    }

    /// Makes a place for the name, which is a text, and gives the name's own copy that `add` wants.
    ///
    /// # Errors
    ///
    /// [`NoMemory`]. Nothing else was said of any name.
    pub fn reserve(&mut self, alloc: Global, name: &[u8]) -> Result<Vec<u8>, NoMemory>
        requires { IsText name.now }
        ensures name { IfOk result (λ own. own.items ≡ name.now) }
        ensures made { IfOk result (λ _. has_name self.new name.now ≡ true) }
        ensures keeps { KeepsNames self.old self.new }
        ensures same { (q : List ℕ) → said_of self.new q ≡ said_of self.old q }
    {
        let own = Vec::from_slice(alloc, name)?;
        let place = Vec::from_slice(alloc, name)?;
        make(&mut self.names, place)?;
        Ok(own)
    }

    /// What is said of a name for which a place was made; it counts where it is later than what was said
    /// before. It takes no memory.
    pub fn add(&mut self, name: Vec<u8>, setting: Setting)
        requires { has_name self.old name.items ≡ true }
        ensures said { (q : List ℕ) → said_of self.new q ≡ cond (bytes_eq name.items q) (Some (later (setting_seen setting) (said_of self.old name.items))) (said_of self.old q) }
        ensures keeps { KeepsNames self.old self.new }
    {
        if is_latest(&self.names, name.as_slice(), &setting) {
            fill(&mut self.names, name, setting);
        }
    }

    /// The value of the name, if it has one. It takes no memory.
    pub fn get(&self, name: &[u8]) -> Option<&Text>
        ensures { option_map (λ t. t.now) result ≡ value_of (said_of self.now name.now) }
    {
        match held(&self.names, name) {
            Some(setting) => setting.said.as_ref(),
            None => None,
        }
    }

    /// The names above `after` by their bytes that have values, in rising order, as many of the first as one reply may
    /// show: at most `limit`, which is at least 1, and of several at most 4,194,304 bytes together. The empty `after`
    /// stands below every name, the empty one included.
    ///
    /// # Errors
    ///
    /// [`NoMemory`].
    pub fn list(
        &self,
        alloc: Global,
        after: &[u8],
        limit: u32,
        showing: Showing,
    ) -> Result<Vec<NamedText>, NoMemory>
        requires { 1 ≤ limit }
        ensures { IfOk result (λ page. IsListOf (IsThere showing self.now) after.now limit (items_seen page.items)) }
    {
        list(&self.names, alloc, after, limit, showing)
    }
}
