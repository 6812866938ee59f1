//! An owner's limits.

ghost use Rattle.std.specs.Prelude.{◌≡◌, List, Option, cond};
ghost use Rattle.std.specs.Option.{option_map};
ghost use Rattle.record_rules.specs.Records.{Event};
ghost use Rattle.record_rules.specs.Journal.{ChainPlace, held_of, limit_passed};
ghost use Rattle.chain_index.specs.Meaning.{totals_seen};
ghost use Rattle.page_growth.specs.Limits.{limit_seen, AddsPlace, AddsEntry};

use chain_index::Held;

/// The most entries of an owner, their most weight together in bytes, and its most places.
const MOST_ENTRIES: u64 = 4_000_000;

const MOST_BYTES: u64 = 4_294_967_296;

const MOST_PLACES: u64 = 4_096;

/// A limit that would be passed, and what the owner holds of it.
#[derive(Clone, Copy, Debug, PartialEq, Eq)]
pub struct PassedLimit {
    /// 1 is the limit of entries, 2 that of their weight in bytes, 3 that of places.
    pub what: u8,
    pub held: u64,
}

/// How many places one more entry adds.
fn places_by(new_place: bool) -> u64
    ensures { result ≡ cond new_place 1 0 }
{
    if new_place { 1 } else { 0 }
}

/// What an owner of these totals holds with one more entry of this weight, or the first limit that it would pass.
pub(crate) fn with_entry(totals: Held, weight: u64, new_place: bool) -> Result<Held, PassedLimit>
    ensures { (events : List Event) (place : Option ChainPlace) → totals_seen totals ≡ held_of events → AddsPlace events place new_place → AddsEntry result events weight place }
{
    let entries = totals.entries.saturating_add(1);
    let bytes = totals.bytes.saturating_add(weight);
    let places = totals.places.saturating_add(places_by(new_place));
    if entries > MOST_ENTRIES {
        return Err(PassedLimit {
            what: 1,
            held: totals.entries,
        });
    }
    if bytes > MOST_BYTES {
        return Err(PassedLimit {
            what: 2,
            held: totals.bytes,
        });
    }
    if places > MOST_PLACES {
        return Err(PassedLimit {
            what: 3,
            held: totals.places,
        });
    }
    Ok(Held {
        entries,
        bytes,
        places,
    })
}

/// The first limit that one more entry of this weight would pass, for an owner of these totals. A started command
/// adds no place, a record adds one where its chain is empty.
pub fn limit_passed(totals: Held, weight: u64, new_place: bool) -> Option<PassedLimit>
    ensures { (events : List Event) (place : Option ChainPlace) → totals_seen totals ≡ held_of events → AddsPlace events place new_place → option_map limit_seen result ≡ limit_passed events weight place }
{
    match with_entry(totals, weight, new_place) {
        Ok(_) => None,
        Err(passed) => Some(passed),
    }
}
