//! The places of names.

ghost use Rattle.std.specs.Prelude.{◌≡◌, ℕ, List, true, cond, OnOk, Some, None, map, bytes_eq};
ghost use Rattle.std.specs.Option.{option_map};
ghost use Rattle.latest_values.specs.Settings.{setting_seen, has_name, held_in, said_of, KeepsNames, stands_later};
ghost use Rattle.latest_values.specs.Lists.{AreTexts, IsText};

use crate::setting::Setting;
use plain_types::NoMemory;
use std::collections::BTreeMap;

pub type Names = BTreeMap<Vec<u8>, Option<Setting>>;

/// Makes a place for the name.
///
/// # Errors
///
/// [`NoMemory`].
pub fn make(names: &mut Names, name: Vec<u8>) -> Result<(), NoMemory>
    ensures made { OnOk result (has_name (map (λ e. (e.0.items, e.1)) names.new.entries) name.items ≡ true) }
    ensures keeps { KeepsNames (map (λ e. (e.0.items, e.1)) names.old.entries) (map (λ e. (e.0.items, e.1)) names.new.entries) }
    ensures texts { IsText name.items → AreTexts (map (λ e. (e.0.items, e.1)) names.old.entries) → AreTexts (map (λ e. (e.0.items, e.1)) names.new.entries) }
    ensures same { (q : List ℕ) → held_in (map (λ e. (e.0.items, e.1)) names.new.entries) q ≡ held_in (map (λ e. (e.0.items, e.1)) names.old.entries) q }
{
    if !has_place(names, name.as_slice()) {
        put_new(names, name)?;
    }
    Ok(())
}

/// Whether a place was made for the name.
fn has_place(names: &Names, name: &[u8]) -> bool
    ensures { result ≡ has_name (map (λ e. (e.0.items, e.1)) names.now.entries) name.now }
{
    names.contains_key(name)
}

/// Puts an empty place for a name that has none.
fn put_new(names: &mut Names, name: Vec<u8>) -> Result<(), NoMemory>
    requires { held_in (map (λ e. (e.0.items, e.1)) names.old.entries) name.items ≡ None }
    ensures made { OnOk result (has_name (map (λ e. (e.0.items, e.1)) names.new.entries) name.items ≡ true) }
    ensures keeps { KeepsNames (map (λ e. (e.0.items, e.1)) names.old.entries) (map (λ e. (e.0.items, e.1)) names.new.entries) }
    ensures texts { IsText name.items → AreTexts (map (λ e. (e.0.items, e.1)) names.old.entries) → AreTexts (map (λ e. (e.0.items, e.1)) names.new.entries) }
    ensures same { (q : List ℕ) → held_in (map (λ e. (e.0.items, e.1)) names.new.entries) q ≡ held_in (map (λ e. (e.0.items, e.1)) names.old.entries) q }
{
    match names.insert(name, None) {
        Ok(_) => Ok(()),
        Err(_) => Err(NoMemory),
    }
}

/// Puts what was said of a name for which a place was made. It takes no memory.
pub fn fill(names: &mut Names, name: Vec<u8>, setting: Setting)
    requires { has_name (map (λ e. (e.0.items, e.1)) names.old.entries) name.items ≡ true }
    ensures filled { (q : List ℕ) → held_in (map (λ e. (e.0.items, e.1)) names.new.entries) q ≡ cond (bytes_eq name.items q) (Some setting) (held_in (map (λ e. (e.0.items, e.1)) names.old.entries) q) }
    ensures keeps { KeepsNames (map (λ e. (e.0.items, e.1)) names.old.entries) (map (λ e. (e.0.items, e.1)) names.new.entries) }
    ensures texts { AreTexts (map (λ e. (e.0.items, e.1)) names.old.entries) → AreTexts (map (λ e. (e.0.items, e.1)) names.new.entries) }
{
    match names.insert(name, Some(setting)) {
        Ok(_) => {}
        Err(_) => unreachable!(),
    }
}

/// What was said of the name.
pub fn held<'a>(names: &'a Names, name: &[u8]) -> Option<&'a Setting>
    ensures { option_map (λ s. s.now) result ≡ held_in (map (λ e. (e.0.items, e.1)) names.now.entries) name.now }
{
    match names.get(name) {
        Some(place) => place.as_ref(),
        None => None,
    }
}

/// Whether the setting is later than what was said of the name before, if anything was.
pub fn is_latest(names: &Names, name: &[u8], setting: &Setting) -> bool
    ensures { result ≡ stands_later (setting_seen setting.now) (said_of (map (λ e. (e.0.items, e.1)) names.now.entries) name.now) }
{
    match held(names, name) {
        Some(old) => setting.is_later_than(old),
        None => true,
    }
}
