//! What counts against an owner's limits.

ghost use Rattle.std.specs.Prelude.{◌≡◌};
ghost use Rattle.journal_check.specs.Admission.{has_room, with_entry, places_by};

/// The most entries of an owner, their most weight together in bytes, and its most places.
const MOST_ENTRIES: u64 = 4_000_000;

const MOST_WEIGHT: u64 = 4_294_967_296;

const MOST_PLACES: u64 = 4_096;

/// What an owner holds: entries, their weights together in bytes, and places of records.
#[derive(Clone, Copy, Debug, PartialEq, Eq)]
pub struct OwnerTotals {
    pub entries: u64,
    pub weight: u64,
    pub places: u64,
}

impl OwnerTotals {
    /// With one more entry of this weight, which adds so many places.
    pub(crate) fn with_entry(self, weight: u64, places: u64) -> OwnerTotals
        ensures { result ≡ with_entry self weight places }
    {
        OwnerTotals {
            entries: self.entries.saturating_add(1),
            weight: self.weight.saturating_add(weight),
            places: self.places.saturating_add(places),
        }
    }

    /// Whether that would pass no limit.
    pub(crate) fn has_room(self, weight: u64, places: u64) -> bool
        ensures { result ≡ has_room self weight places }
    {
        let more = self.with_entry(weight, places);
        more.entries <= MOST_ENTRIES && more.weight <= MOST_WEIGHT && more.places <= MOST_PLACES
    }
}

/// How many places a record adds behind so many of its chain.
pub(crate) fn places_by(count: u64) -> u64
    ensures { result ≡ places_by count }
{
    if count == 0 { 1 } else { 0 }
}
