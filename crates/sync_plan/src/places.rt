//! The first place of two statuses.

ghost use Rattle.std.specs.Prelude.{◌≡◌, option_map};
ghost use Rattle.record_rules.specs.Journal.{place_cmp};
ghost use Rattle.record_model.specs.Seen.{chain_seen, chains_seen};
ghost use Rattle.sync_plan.specs.FirstPlaces.{place_of, first_of};
ghost use Rattle.sync_plan.specs.Turns.{first_seen};

use record_model::Chain;
use std::cmp::Ordering;

/// The first place of two statuses, how many records each has of it, and what stands behind it.
#[derive(Drop)]
pub struct FirstPlace<'a> {
    /// A chain of the place.
    pub chain: &'a Chain,
    pub local: u64,
    pub remote: u64,
    pub ours: &'a [Chain],
    pub theirs: &'a [Chain],
}

/// How the places of two chains compare: by host, then by the bytes of the tag.
fn place_order(one: &Chain, other: &Chain) -> Ordering
    ensures { result ≡ place_cmp (place_of (chain_seen one.now)) (place_of (chain_seen other.now)) }
{
    one.host
        .cmp(&other.host)
        .then(one.tag.as_bytes().cmp(other.tag.as_bytes()))
}

/// The first place, if there is one.
pub fn first_place<'a>(ours: &'a [Chain], theirs: &'a [Chain]) -> Option<FirstPlace<'a>>
    ensures { option_map first_seen result ≡ first_of (chains_seen ours.now) (chains_seen theirs.now) }
{
    match (ours, theirs) {
        ([], []) => None,
        ([one, rest @ ..], []) => Some(FirstPlace {
            chain: one,
            local: one.count,
            remote: 0,
            ours: rest,
            theirs,
        }),
        ([], [other, rest @ ..]) => Some(FirstPlace {
            chain: other,
            local: 0,
            remote: other.count,
            ours,
            theirs: rest,
        }),
        ([one, our_rest @ ..], [other, their_rest @ ..]) => match place_order(one, other) {
            Ordering::Less => Some(FirstPlace {
                chain: one,
                local: one.count,
                remote: 0,
                ours: our_rest,
                theirs,
            }),
            Ordering::Equal => Some(FirstPlace {
                chain: one,
                local: one.count,
                remote: other.count,
                ours: our_rest,
                theirs: their_rest,
            }),
            Ordering::Greater => Some(FirstPlace {
                chain: other,
                local: 0,
                remote: other.count,
                ours,
                theirs: their_rest,
            }),
        },
    }
}
