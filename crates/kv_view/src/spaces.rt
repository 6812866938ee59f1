//! The namespaces, each with its keys.

ghost use Rattle.std.specs.Prelude.{◌≡◌, ℕ, List, [], true, false, cond, ◌&&◌, OnOk, IfOk, Some, map, bytes_eq};
ghost use Rattle.std.specs.Option.{option_map};
ghost use Rattle.view_rules.specs.Standing.{later, value_of};
ghost use Rattle.latest_values.specs.Settings.{setting_seen};
ghost use Rattle.kv_view.specs.Pairs.{has_space, has_pair, keys_of, said_in, KeepsPairs};
ghost use Rattle.std.specs.Prelude.{◌≤◌, ◌<◌, ◌^◌, length};
ghost use Rattle.view_rules.specs.Answers.{IsListOf};
ghost use Rattle.latest_values.specs.Lists.{IsText, IsThere, items_seen};
ghost use Rattle.latest_values.specs.declared.listing.Showing.TheVariants.{NamesAlone};

use latest_values::{LatestValues, Setting, Showing};
use plain_types::{NoMemory, Text};
use record_model::NamedText;
use std::alloc::Global;
use std::collections::BTreeMap;

pub type Spaces = BTreeMap<Vec<u8>, LatestValues>;

/// Makes a place for the namespace.
///
/// # Errors
///
/// [`NoMemory`].
pub fn make_space(spaces: &mut Spaces, alloc: Global, namespace: &[u8]) -> Result<(), NoMemory>
    ensures made { OnOk result (has_space (map (λ e. (e.0.items, e.1)) spaces.new.entries) namespace.now ≡ true) }
    ensures keeps { KeepsPairs (map (λ e. (e.0.items, e.1)) spaces.old.entries) (map (λ e. (e.0.items, e.1)) spaces.new.entries) }
    ensures same { (n k : List ℕ) → said_in (map (λ e. (e.0.items, e.1)) spaces.new.entries) n k ≡ said_in (map (λ e. (e.0.items, e.1)) spaces.old.entries) n k }
{
    if has(spaces, namespace) {
        return Ok(());
    }
    let own = Vec::from_slice(alloc, namespace)?;
    put_new(spaces, own, LatestValues::new(alloc))
}

/// Whether a place was made for the namespace.
fn has(spaces: &Spaces, namespace: &[u8]) -> bool
    ensures { result ≡ has_space (map (λ e. (e.0.items, e.1)) spaces.now.entries) namespace.now }
{
    spaces.contains_key(namespace)
}

/// Puts a namespace that has no place yet, without keys.
fn put_new(spaces: &mut Spaces, namespace: Vec<u8>, none: LatestValues) -> Result<(), NoMemory>
    requires absent { has_space (map (λ e. (e.0.items, e.1)) spaces.old.entries) namespace.items ≡ false }
    requires none { none ≡ [] }
    ensures made { OnOk result (has_space (map (λ e. (e.0.items, e.1)) spaces.new.entries) namespace.items ≡ true) }
    ensures keeps { KeepsPairs (map (λ e. (e.0.items, e.1)) spaces.old.entries) (map (λ e. (e.0.items, e.1)) spaces.new.entries) }
    ensures same { (n k : List ℕ) → said_in (map (λ e. (e.0.items, e.1)) spaces.new.entries) n k ≡ said_in (map (λ e. (e.0.items, e.1)) spaces.old.entries) n k }
{
    match spaces.insert(namespace, none) {
        Ok(_) => Ok(()),
        Err(_) => Err(NoMemory),
    }
}

/// Makes a place for the key in a namespace that has one, and gives the key's own copy.
///
/// # Errors
///
/// [`NoMemory`].
pub fn make_key(
    spaces: &mut Spaces,
    alloc: Global,
    namespace: &[u8],
    key: &[u8],
) -> Result<Vec<u8>, NoMemory>
    requires space { has_space (map (λ e. (e.0.items, e.1)) spaces.old.entries) namespace.now ≡ true }
    requires text { IsText key.now }
    ensures key { IfOk result (λ own. own.items ≡ key.now) }
    ensures made { IfOk result (λ _. has_pair (map (λ e. (e.0.items, e.1)) spaces.new.entries) namespace.now key.now ≡ true) }
    ensures keeps { KeepsPairs (map (λ e. (e.0.items, e.1)) spaces.old.entries) (map (λ e. (e.0.items, e.1)) spaces.new.entries) }
    ensures same { (n k : List ℕ) → said_in (map (λ e. (e.0.items, e.1)) spaces.new.entries) n k ≡ said_in (map (λ e. (e.0.items, e.1)) spaces.old.entries) n k }
{
    match spaces.get_mut(namespace) {
        Some(names) => names.reserve(alloc, key),
        None => unreachable!(),
    }
}

/// Adds what is said of a pair for which a place was made. It takes no memory.
pub fn add(spaces: &mut Spaces, namespace: &[u8], key: Vec<u8>, setting: Setting)
    requires { has_pair (map (λ e. (e.0.items, e.1)) spaces.old.entries) namespace.now key.items ≡ true }
    ensures said { (n k : List ℕ) → said_in (map (λ e. (e.0.items, e.1)) spaces.new.entries) n k ≡ cond (bytes_eq namespace.now n && bytes_eq key.items k) (Some (later (setting_seen setting) (said_in (map (λ e. (e.0.items, e.1)) spaces.old.entries) namespace.now key.items))) (said_in (map (λ e. (e.0.items, e.1)) spaces.old.entries) n k) }
    ensures keeps { KeepsPairs (map (λ e. (e.0.items, e.1)) spaces.old.entries) (map (λ e. (e.0.items, e.1)) spaces.new.entries) }
{
    match spaces.get_mut(namespace) {
        Some(names) => names.add(key, setting),
        None => unreachable!(),
    }
}

/// The value of the pair, if it has one.
pub fn get<'a>(spaces: &'a Spaces, namespace: &[u8], key: &[u8]) -> Option<&'a Text>
    ensures { option_map (λ t. t.now) result ≡ value_of (said_in (map (λ e. (e.0.items, e.1)) spaces.now.entries) namespace.now key.now) }
{
    match spaces.get(namespace) {
        Some(names) => names.get(key),
        None => None,
    }
}

/// The keys of the namespace above `after` that have values, in rising order, as many as one reply may show.
///
/// # Errors
///
/// [`NoMemory`].
pub fn list(
    spaces: &Spaces,
    alloc: Global,
    namespace: &[u8],
    after: &[u8],
    limit: u32,
) -> Result<Vec<NamedText>, NoMemory>
    requires { 1 ≤ limit }
    ensures { IfOk result (λ page. IsListOf (IsThere NamesAlone (keys_of (map (λ e. (e.0.items, e.1)) spaces.now.entries) namespace.now)) after.now limit (items_seen page.items)) }
{
    match spaces.get(namespace) {
        Some(names) => names.list(alloc, after, limit, Showing::NamesAlone),
        None => Ok(Vec::new(alloc)),
    }
}

/// The names of the items.
///
/// # Errors
///
/// [`NoMemory`].
pub fn names_of(alloc: Global, items: Vec<NamedText>) -> Result<Vec<Text>, NoMemory>
    ensures { IfOk result (λ names. names.items ≡ map (λ item. item.name) items.items) }
{
    Ok(items.into_iter().map(|item| item.name).collect(alloc)?)
}
