//! The ids of records.

ghost use Rattle.std.specs.Prelude.{◌≡◌, ℕ, true, cond, nat_eq, OnOk};
ghost use Rattle.chain_index.specs.Chains.{has_room_for, has_id, IdsGrow};

use plain_types::NoMemory;
use std::collections::HashMap;

/// Ids, each with whether a record has it; a place may be made before one has.
pub type Ids = HashMap<u128, bool>;

/// Whether a record has the id.
pub fn has(ids: &Ids, id: u128) -> bool
    ensures { result ≡ has_id ids.now.entries id }
{
    match ids.get(&id) {
        Some(taken) => *taken,
        None => false,
    }
}

/// Makes a place for the id.
///
/// # Errors
///
/// [`NoMemory`].
pub fn reserve(ids: &mut Ids, id: u128) -> Result<(), NoMemory>
    ensures made { OnOk result (has_room_for ids.new.entries id ≡ true) }
    ensures same { (q : ℕ) → has_id ids.new.entries q ≡ has_id ids.old.entries q }
    ensures kept { IdsGrow ids.old.entries ids.new.entries }
{
    if !ids.contains_key(&id) {
        ids.insert(id, false)?;
    }
    Ok(())
}

/// Keeps that a record has the id, for which a place was made. It takes no memory.
pub fn add(ids: &mut Ids, id: u128)
    requires { has_room_for ids.old.entries id ≡ true }
    ensures has { (q : ℕ) → has_id ids.new.entries q ≡ cond (nat_eq id q) true (has_id ids.old.entries q) }
    ensures kept { IdsGrow ids.old.entries ids.new.entries }
{
    match ids.insert(id, true) {
        Ok(_) => {}
        Err(_) => unreachable!(),
    }
}
