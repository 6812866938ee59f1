//! Lists of names, and of names with their values.

ghost use Rattle.std.specs.Prelude.{◌≡◌, ◌≤◌, ◌<◌, ◌-◌, ◌^◌, min, true, false, [], ◌∷◌, ◌++◌, length, map, IfOk};
ghost use Rattle.std.specs.Option.{option_map};
ghost use Rattle.std.specs.Map.{lookup, keys_of};
ghost use Rattle.std.specs.BTreeMap.{is_at};
ghost use Rattle.std.specs.List.{filter, filter_map, AllByRecursion};
ghost use Rattle.std.specs.List.Sorted.{IsStrictlySortedBy};
ghost use Rattle.std.specs.Str.{IsUtf8};
ghost use Rattle.std.specs.Cmp.Lexicographic.{slice_cmp};
ghost use Rattle.std.specs.Ordering.{nat_cmp};
ghost use Rattle.definitions.specs.Search.{IsPage, FitsPage};
ghost use Rattle.view_rules.specs.Answers.{named_bytes, IsListOf};
ghost use Rattle.view_rules.specs.Standing.{value_of};
ghost use Rattle.latest_values.specs.Settings.{setting_seen};
ghost use Rattle.latest_values.specs.Lists.{AreTexts, IsThere, item_of, item_at, named_seen, items_seen, weight_of, is_above};

use crate::names::Names;
use crate::setting::Setting;
use plain_types::{NoMemory, Text};
use record_model::NamedText;
use std::alloc::Global;
use std::collections::btree_map::Range;
use std::ops::Bound;

/// What a list shows of a name that has a value.
#[derive(Clone, Copy, Debug, Drop)]
pub enum Showing {
    /// The name, and the empty text in the value's place.
    NamesAlone,
    /// The name and its value.
    NamesWithValues,
}

/// What several items may weigh together, in bytes of their texts.
const MOST_SHOWN_BYTES: u64 = 4_194_304;

/// The names above `after` that have values, in rising order, as many as one reply may show.
///
/// # Errors
///
/// [`NoMemory`].
pub fn list(
    names: &Names,
    alloc: Global,
    after: &[u8],
    limit: u32,
    showing: Showing,
) -> Result<Vec<NamedText>, NoMemory>
    requires limit { 1 ≤ limit }
    requires texts { AreTexts (map (λ e. (e.0.items, e.1)) names.now.entries) }
    ensures { IfOk result (λ page. IsListOf (IsThere showing (map (λ e. (e.0.items, e.1)) names.now.entries)) after.now limit (items_seen page.items)) }
{
    let own = Vec::from_slice(alloc, after)?;
    let mut items = Vec::new(alloc);
    let mut bytes = 0;
    for (name, place) in above(names, &own) {
        if let Some(value) = value_at(place) {
            let item = item(alloc, name.as_slice(), value, showing)?;
            if !take(&mut items, &mut bytes, limit, item)? {
                break;
            }
        }
    }
    Ok(items)
}

/// The places of the names above `after`.
fn above<'a>(names: &'a Names, after: &Vec<u8>) -> Range<'a, Vec<u8>, Option<Setting>>
    ensures above { result ≡ filter (λ e. is_above after.now.items e.0.items) names.now.entries }
    ensures found { AllByRecursion (λ e. lookup (is_at (λ k. slice_cmp nat_cmp e.0.items k.items)) names.now.entries ≡ Some e.1) result }
    ensures rising { IsStrictlySortedBy (λ a b. slice_cmp nat_cmp a.items b.items) (keys_of names.now.entries) }
{
    if after.is_empty() {
        return names.range(..);
    }
    names.range((Bound::Excluded(after), Bound::Unbounded))
}

/// The value that stands at a place, if one does.
fn value_at(place: &Option<Setting>) -> Option<&Text>
    ensures { option_map (λ t. t.now) result ≡ value_of (option_map setting_seen place.now) }
{
    match place {
        Some(setting) => setting.said.as_ref(),
        None => None,
    }
}

/// What is shown of the name and its value.
///
/// # Errors
///
/// [`NoMemory`].
fn item(alloc: Global, name: &[u8], value: &Text, showing: Showing) -> Result<NamedText, NoMemory>
    requires utf8 { IsUtf8 name.now }
    requires short { length name.now < 2 ^ 32 }
    ensures { IfOk result (λ item. named_seen item ≡ item_of showing name.now value.now) }
{
    let name = Text::copied(alloc, name)?;
    let value = match showing {
        Showing::NamesAlone => Text::new(alloc),
        Showing::NamesWithValues => value.copy(alloc)?,
    };
    Ok(NamedText { name, value })
}

/// What the item weighs: the bytes of its texts.
fn weight(item: &NamedText) -> u64
    ensures { result ≡ min (named_bytes (named_seen item.now)) (2 ^ 64 - 1) }
{
    (item.name.len() as u64).saturating_add(item.value.len() as u64)
}

/// Takes the item if it fits, and tells whether it did. `bytes` is what the items weigh.
///
/// # Errors
///
/// [`NoMemory`].
fn take(
    items: &mut Vec<NamedText>,
    bytes: &mut u64,
    limit: u32,
    item: NamedText,
) -> Result<bool, NoMemory>
    requires limit { 1 ≤ limit }
    requires bytes { bytes.old ≡ weight_of items.old.items }
    requires fits { FitsPage named_bytes limit (items_seen items.old.items) }
    ensures bytes { IfOk result (λ _. bytes.new ≡ weight_of items.new.items) }
    ensures fits { IfOk result (λ _. FitsPage named_bytes limit (items_seen items.new.items)) }
    ensures taken { IfOk result (λ taken. taken ≡ true → items.new.items ≡ items.old.items ++ item ∷ []) }
    ensures full { IfOk result (λ taken. taken ≡ false → (items.new.items ≡ items.old.items) × (FitsPage named_bytes limit (items_seen items.old.items ++ named_seen item ∷ []) → ⊥)) }
{
    let more = bytes.saturating_add(weight(&item));
    if items.len() >= limit as usize || !items.is_empty() && more > MOST_SHOWN_BYTES {
        return Ok(false);
    }
    items.push(item)?;
    *bytes = more;
    Ok(true)
}
