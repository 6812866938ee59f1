//! The records of a page before the one that is looked at.

ghost use Rattle.std.specs.Prelude.{◌≡◌, ◌≤◌, ◌&&◌, cond, length, filter};
ghost use Rattle.std.specs.Option.{option_map};
ghost use Rattle.record_rules.specs.Journal.{in_place};
ghost use Rattle.record_rules.specs.Growth.{same_place, holder};
ghost use Rattle.record_model.specs.Seen.{record_seen, records_seen};
ghost use Rattle.page_growth.specs.Checking.{chosen};

use record_model::Record;

/// Whether the other record is of this one's host and tag.
fn is_in_chain(r: &Record, other: &Record) -> bool
    ensures { result ≡ in_place r.now.host r.now.tag (record_seen other.now) }
{
    other.host == r.host && other.tag.as_bytes() == r.tag.as_bytes()
}

/// Whether it also has its idx.
fn is_at_place(r: &Record, other: &Record) -> bool
    ensures { result ≡ same_place (record_seen r.now) (record_seen other.now) }
{
    is_in_chain(r, other) && other.idx == r.idx
}

/// Whether it is marked, and at this one's host, tag and idx.
fn is_marked_there(mark: bool, r: &Record, other: &Record) -> bool
    ensures { result ≡ (mark && same_place (record_seen r.now) (record_seen other.now)) }
{
    mark && is_at_place(r, other)
}

/// The id at the record's host, tag and idx among the marked ones, if one is there.
pub(crate) fn id_among(before: &[Record], marks: &[bool], r: &Record) -> Option<u128>
    requires { length marks.now ≡ length before.now }
    ensures { result ≡ option_map (λ other. other.id) (holder (chosen marks.now (records_seen before.now)) (record_seen r.now)) }
{
    for at in 0..before.len() {
        if is_marked_there(marks[at], r, &before[at]) {
            return Some(before[at].id);
        }
    }
    None
}

/// 1 for one that is marked, and of this one's host and tag; else 0.
fn one_if_marked(mark: bool, r: &Record, other: &Record) -> u64
    ensures value { result ≡ cond (mark && in_place r.now.host r.now.tag (record_seen other.now)) 1 0 }
    ensures most { result ≤ 1 }
{
    if mark && is_in_chain(r, other) { 1 } else { 0 }
}

/// How many of the marked ones are of the record's host and tag.
pub(crate) fn count_among(before: &[Record], marks: &[bool], r: &Record) -> u64
    requires { length marks.now ≡ length before.now }
    ensures { result ≡ length (filter (in_place r.now.host r.now.tag) (chosen marks.now (records_seen before.now))) }
{
    let mut count = 0u64;
    for at in 0..before.len() {
        count += one_if_marked(marks[at], r, &before[at]);
    }
    count
}
