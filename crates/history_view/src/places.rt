//! How ids stand, the order in which searches show them, and how many are shown with each text.

ghost use Rattle.std.specs.Prelude.{◌≡◌, ◌<◌, ◌^◌, ℕ, true, cond, length, nat_eq, OnOk, Some, None, IfOk, IfSome};
ghost use Rattle.std.specs.BTreeMap.{is_at};
ghost use Rattle.std.specs.Prelude.{◌+◌, Option, sum_by};
ghost use Rattle.std.specs.Map.{values_of};
ghost use Rattle.history_view.specs.declared.rows.TextNumbers.{TextNumbers};
ghost use Rattle.history_view.specs.declared.rows.Creation.{Creation};
ghost use Rattle.history_view.specs.Counts.{AreCounted, is_shown};
ghost use Rattle.history_view.specs.Places.{has_id, held_in, has_key, numbers_in, numbers_for, key_cmp, IsOrderOf, OrderKey, KeepsIds, KeepsKeys};
ghost use Rattle.history_view.specs.Rows.{HasTexts, numbers_of, shown_row};
ghost use Rattle.history_view.specs.Texts.{AreNumbers};

use crate::dictionary::Dictionary;
use crate::rows::{Creation, Held, TextNumbers};
use plain_types::NoMemory;
use std::cmp::Reverse;
use std::collections::{BTreeMap, HashMap};

pub type Ids = HashMap<u128, Held>;

pub type Order = BTreeMap<(Reverse<u64>, u128), Option<TextNumbers>>;

/// Makes a place for the id.
pub fn make_id(ids: &mut Ids, id: u128) -> Result<(), NoMemory>
    ensures made { OnOk result (has_id ids.new.entries id ≡ true) }
    ensures keeps { KeepsIds ids.old.entries ids.new.entries }
    ensures same { (q : ℕ) → held_in ids.new.entries q ≡ held_in ids.old.entries q }
{
    if !ids.contains_key(&id) {
        ids.insert(id, Held::untouched())?;
    }
    Ok(())
}

/// Makes the key.
pub fn make_key(order: &mut Order, key: (Reverse<u64>, u128)) -> Result<(), NoMemory>
    ensures made { OnOk result (has_key order.new.entries key ≡ true) }
    ensures keeps { KeepsKeys order.old.entries order.new.entries }
    ensures same { (q : OrderKey) → numbers_in order.new.entries q ≡ numbers_in order.old.entries q }
    ensures sums { (f : Option TextNumbers → ℕ) → f None ≡ 0 → sum_by f (values_of order.new.entries) ≡ sum_by f (values_of order.old.entries) }
{
    if !order.contains_key(&key) {
        order.insert(key, None)?;
    }
    Ok(())
}

/// How the id stands.
pub fn held(ids: &Ids, id: u128) -> Held
    ensures { result ≡ held_in ids.now.entries id }
{
    match ids.get(&id) {
        Some(held) => *held,
        None => Held::untouched(),
    }
}

/// Puts what stands at a key that was made, and tells how many keys there are.
fn fill(order: &mut Order, key: (Reverse<u64>, u128), numbers: Option<TextNumbers>) -> usize
    requires { has_key order.old.entries key ≡ true }
    ensures filled { (q : OrderKey) → numbers_in order.new.entries q ≡ cond (is_at (key_cmp key) q) numbers (numbers_in order.old.entries q) }
    ensures sums { (f : Option TextNumbers → ℕ) → sum_by f (values_of order.new.entries) + f (numbers_in order.old.entries key) ≡ sum_by f (values_of order.old.entries) + f numbers }
    ensures keeps { KeepsKeys order.old.entries order.new.entries }
    ensures keys { result ≡ length order.new.entries }
    ensures few { result < 2 ^ 63 }
{
    match order.insert(key, numbers) {
        Ok(_) => order.len(),
        Err(_) => unreachable!(),
    }
}

/// Puts how an id stands for which a place was made.
fn hold(ids: &mut Ids, id: u128, held: Held)
    requires { has_id ids.old.entries id ≡ true }
    ensures held { (q : ℕ) → held_in ids.new.entries q ≡ cond (nat_eq id q) held (held_in ids.old.entries q) }
    ensures keeps { KeepsIds ids.old.entries ids.new.entries }
{
    match ids.insert(id, held) {
        Ok(_) => {}
        Err(_) => unreachable!(),
    }
}

/// Shows the command no more.
fn hide(order: &mut Order, texts: &mut Dictionary, shown: &mut u64, id: u128, old: &Creation)
    requires stands { numbers_in order.old.entries (record { 0 = old.now.timestamp }, id) ≡ Some (numbers_of old.now) }
    requires named { AreNumbers texts.old.texts (numbers_of old.now) }
    requires counted { AreCounted texts.old.counts order.old.entries }
    requires shown { shown.old ≡ sum_by is_shown (values_of order.old.entries) }
    ensures filled { (q : OrderKey) → numbers_in order.new.entries q ≡ cond (is_at (key_cmp (record { 0 = old.now.timestamp }, id)) q) None (numbers_in order.old.entries q) }
    ensures keeps { KeepsKeys order.old.entries order.new.entries }
    ensures texts { texts.new.texts ≡ texts.old.texts }
    ensures counted { AreCounted texts.new.counts order.new.entries }
    ensures shown { shown.new ≡ sum_by is_shown (values_of order.new.entries) }
{
    let numbers = old.numbers();
    fill(order, (Reverse(old.timestamp), id), None);
    texts.lower(&numbers);
    *shown -= 1;
}

/// Shows the command.
fn show(order: &mut Order, texts: &mut Dictionary, shown: &mut u64, id: u128, new: &Creation)
    requires key { has_key order.old.entries (record { 0 = new.now.timestamp }, id) ≡ true }
    requires empty { numbers_in order.old.entries (record { 0 = new.now.timestamp }, id) ≡ None }
    requires named { AreNumbers texts.old.texts (numbers_of new.now) }
    requires counted { AreCounted texts.old.counts order.old.entries }
    requires shown { shown.old ≡ sum_by is_shown (values_of order.old.entries) }
    ensures filled { (q : OrderKey) → numbers_in order.new.entries q ≡ cond (is_at (key_cmp (record { 0 = new.now.timestamp }, id)) q) (Some (numbers_of new.now)) (numbers_in order.old.entries q) }
    ensures keeps { KeepsKeys order.old.entries order.new.entries }
    ensures texts { texts.new.texts ≡ texts.old.texts }
    ensures counted { AreCounted texts.new.counts order.new.entries }
    ensures shown { shown.new ≡ sum_by is_shown (values_of order.new.entries) }
{
    let numbers = new.numbers();
    fill(order, (Reverse(new.timestamp), id), Some(numbers));
    texts.raise(&numbers);
    *shown += 1;
}

/// Takes what was shown of the id out of the order.
fn take_out(
    order: &mut Order,
    texts: &mut Dictionary,
    shown: &mut u64,
    id: u128,
    old: Option<Creation>,
)
    requires stands { (time : ℕ) → numbers_in order.old.entries (record { 0 = time }, id) ≡ numbers_for time old }
    requires named { IfSome old (λ c. AreNumbers texts.old.texts (numbers_of c)) }
    requires counted { AreCounted texts.old.counts order.old.entries }
    requires shown { shown.old ≡ sum_by is_shown (values_of order.old.entries) }
    ensures filled { (q : OrderKey) → numbers_in order.new.entries q ≡ cond (nat_eq id q.1) None (numbers_in order.old.entries q) }
    ensures keeps { KeepsKeys order.old.entries order.new.entries }
    ensures texts { texts.new.texts ≡ texts.old.texts }
    ensures counted { AreCounted texts.new.counts order.new.entries }
    ensures shown { shown.new ≡ sum_by is_shown (values_of order.new.entries) }
{
    if let Some(old) = old {
        hide(order, texts, shown, id, &old);
    }
}

/// Puts what is shown of the id into the order, in which nothing of it stands.
fn put_in(
    order: &mut Order,
    texts: &mut Dictionary,
    shown: &mut u64,
    id: u128,
    new: Option<Creation>,
)
    requires key { IfSome new (λ c. has_key order.old.entries (record { 0 = c.timestamp }, id) ≡ true) }
    requires empty { (time : ℕ) → numbers_in order.old.entries (record { 0 = time }, id) ≡ None }
    requires named { IfSome new (λ c. AreNumbers texts.old.texts (numbers_of c)) }
    requires counted { AreCounted texts.old.counts order.old.entries }
    requires shown { shown.old ≡ sum_by is_shown (values_of order.old.entries) }
    ensures filled { (q : OrderKey) → numbers_in order.new.entries q ≡ cond (nat_eq id q.1) (numbers_for q.0.0 new) (numbers_in order.old.entries q) }
    ensures keeps { KeepsKeys order.old.entries order.new.entries }
    ensures texts { texts.new.texts ≡ texts.old.texts }
    ensures counted { AreCounted texts.new.counts order.new.entries }
    ensures shown { shown.new ≡ sum_by is_shown (values_of order.new.entries) }
{
    if let Some(new) = new {
        show(order, texts, shown, id, &new);
    }
}

/// Changes how an id stands, and with it what is shown.
pub fn change(
    ids: &mut Ids,
    order: &mut Order,
    texts: &mut Dictionary,
    shown: &mut u64,
    id: u128,
    new: Held,
)
    requires id { has_id ids.old.entries id ≡ true }
    requires key { IfSome (shown_row new) (λ c. has_key order.old.entries (record { 0 = c.timestamp }, id) ≡ true) }
    requires named { IfSome (shown_row new) (λ c. AreNumbers texts.old.texts (numbers_of c)) }
    requires texts { (q : ℕ) (c : Creation) → (held_in ids.old.entries q).first ≡ Some c → HasTexts texts.old.texts c }
    requires sound { IsOrderOf ids.old.entries order.old.entries }
    requires counted { AreCounted texts.old.counts order.old.entries }
    requires shown { shown.old ≡ sum_by is_shown (values_of order.old.entries) }
    ensures held { (q : ℕ) → held_in ids.new.entries q ≡ cond (nat_eq id q) new (held_in ids.old.entries q) }
    ensures sound { IsOrderOf ids.new.entries order.new.entries }
    ensures ids { KeepsIds ids.old.entries ids.new.entries }
    ensures keys { KeepsKeys order.old.entries order.new.entries }
    ensures texts { texts.new.texts ≡ texts.old.texts }
    ensures counted { AreCounted texts.new.counts order.new.entries }
    ensures shown { shown.new ≡ sum_by is_shown (values_of order.new.entries) }
{
    let old = held(ids, id).shown();
    take_out(order, texts, shown, id, old);
    put_in(order, texts, shown, id, new.shown());
    hold(ids, id, new);
}
