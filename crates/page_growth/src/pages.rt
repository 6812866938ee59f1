//! Pages of records that come in for an owner.

ghost use Rattle.std.specs.Prelude.{◌≡◌, ℕ, List, ◌+◌, ◌<◌, ◌≤◌, [], ◌∷◌, ◌++◌, ◌||◌, length, filter, IfOk, OnOk, nat_le, nat_lt};
ghost use Rattle.std.specs.Option.{option_map};
ghost use Rattle.definitions.specs.Limits.{most_page_records, most_page_weight};
ghost use Rattle.record_rules.specs.Records.{Event, page_weight, record_weight};
ghost use Rattle.record_rules.specs.Journal.{records_of, in_place, held_of};
ghost use Rattle.record_rules.specs.Growth.{holder, has_long_text};
ghost use Rattle.record_rules.specs.InTurn.{PageTaken};
ghost use Rattle.record_model.specs.Seen.{record_seen, records_seen};
ghost use Rattle.chain_index.specs.Meaning.{totals_seen};
ghost use Rattle.page_growth.specs.Checking.{OfJournal, Checks, held_so_far, Measured, AreTaken, TakesFresh, TakesRecord, TakesNext};

use crate::earlier::{count_among, id_among};
use crate::limits::{PassedLimit, with_entry};
use chain_index::{ChainIndex, Held};
use plain_types::NoMemory;
use record_model::Record;
use std::alloc::Global;

/// Records of a page, and their weight together in bytes.
const MOST_RECORDS: usize = 100;

const MOST_WEIGHT: u64 = 4_194_304;

/// Bytes of a tag and of a version.
const MOST_TAG: usize = 256;

/// Bytes of a host name.
const MOST_NAME: usize = 4_096;

/// Why a page is refused as a whole. A position counts from 0 and is at most 100.
#[derive(Clone, Copy, Debug, PartialEq, Eq)]
pub enum PageRefusal {
    /// The page has more than 100 records or weighs more than 4,194,304 bytes up to here, or a text of this record is
    /// too long; `length` is its weight up to here in bytes.
    TooLong { position: u32, length: u64 },
    /// Another id is held at this record's host, tag and idx, in the journal or earlier in the page.
    Forked { position: u32, held: u128 },
    /// Records are missing before this one; the idx that would come next in its chain.
    Gap { position: u32, wanted: u64 },
    /// A limit of the owner would be passed.
    Full(PassedLimit),
}

/// Why no page was checked to its end.
#[derive(Clone, Copy, Debug, PartialEq, Eq)]
pub enum PageFail {
    Refused(PageRefusal),
    NoMemory,
}

impl From<NoMemory> for PageFail {
    ghost use Rattle.std.specs.Prelude.{◌≡◌};
    ghost use Rattle.page_growth.specs.declared.pages.PageFail.TheVariants.{NoMemory as no_memory};

    ghost from_gives = { λ _ fail. fail ≡ no_memory };

    fn from(_error: NoMemory) -> PageFail {
        PageFail::NoMemory
    }
}

/// How far a page was taken: a mark for each record, whether it is fresh; their weight together in bytes; and what the
/// owner holds with the fresh ones.
#[derive(Drop)]
struct SoFar {
    marks: Vec<bool>,
    weight: u64,
    totals: Held,
}

/// Whether a tag, a version or a host name is too long.
fn has_long_text(r: &Record) -> bool
    ensures { result ≡ has_long_text (record_seen r.now) }
{
    r.tag.len() > MOST_TAG || r.version.len() > MOST_TAG || r.host_name.len() > MOST_NAME
}

/// Whether the page is too long or too heavy with this record, or a text of it is too long.
fn is_too_long(position: usize, weight: u64, r: &Record) -> bool
    ensures { result ≡ ((nat_le most_page_records position || nat_lt most_page_weight weight) || has_long_text (record_seen r.now)) }
{
    position >= MOST_RECORDS || weight > MOST_WEIGHT || has_long_text(r)
}

/// The id at the record's host, tag and idx, in the journal or among the fresh ones before it, if one is there.
fn held_id(
    index: &ChainIndex,
    owner: u32,
    before: &[Record],
    marks: &[bool],
    r: &Record,
) -> Option<u128>
    requires { length marks.now ≡ length before.now }
    ensures { OfJournal index.now owner (λ journal. result ≡ option_map (λ other. other.id) (holder (records_of (held_so_far journal owner (records_seen before.now) marks.now)) (record_seen r.now))) }
{
    match index.id_at(owner, r.host, r.tag.as_bytes(), r.idx) {
        Some(id) => Some(id),
        None => id_among(before, marks, r),
    }
}

/// The idx that comes next in the record's chain, behind the fresh ones before it. A chain has at most as many
/// records as the owner has entries then.
fn wanted_idx(
    index: &ChainIndex,
    owner: u32,
    before: &[Record],
    marks: &[bool],
    entries: u64,
    r: &Record,
) -> u64
    requires { length marks.now ≡ length before.now }
    ensures { OfJournal index.now owner (λ journal. entries ≡ length (held_so_far journal owner (records_seen before.now) marks.now) → result ≡ length (filter (in_place r.now.host r.now.tag) (records_of (held_so_far journal owner (records_seen before.now) marks.now)))) }
{
    let count = index.count(owner, r.host, r.tag.as_bytes());
    count
        .saturating_add(count_among(before, marks, r))
        .min(entries)
}

/// What the owner holds with this record, whose place nobody holds and whose chain wants this idx next; or why it is
/// refused.
fn take_fresh(position: u32, totals: Held, wanted: u64, r: &Record) -> Result<Held, PageRefusal>
    ensures { (held : List Event) (owner : ℕ) (so_far : PageTaken) → position ≡ so_far.position → totals_seen totals ≡ held_of held → wanted ≡ length (filter (in_place r.now.host r.now.tag) (records_of held)) → TakesFresh result held owner so_far (record_seen r.now) }
{
    if r.idx != wanted {
        return Err(PageRefusal::Gap { position, wanted });
    }
    match with_entry(totals, r.weight(), wanted == 0) {
        Ok(more) => Ok(more),
        Err(passed) => Err(PageRefusal::Full(passed)),
    }
}

/// What the owner holds with this record behind those before it, `None` where it is there already; or why it is
/// refused. The weight is that of the page up to here.
fn take_record(
    index: &ChainIndex,
    owner: u32,
    before: &[Record],
    so_far: &SoFar,
    weight: u64,
    r: &Record,
) -> Result<Option<Held>, PageRefusal>
    requires measured { Measured (records_seen before.now) so_far.now }
    requires weight { weight ≡ page_weight (records_seen before.now) + record_weight (record_seen r.now) }
    ensures short { OnOk result (length before.now < most_page_records) }
    ensures light { OnOk result (weight ≤ most_page_weight) }
    ensures takes { OfJournal index.now owner (λ journal. totals_seen so_far.now.totals ≡ held_of (held_so_far journal owner (records_seen before.now) so_far.now.marks.items) → TakesRecord result journal owner (records_seen before.now) so_far.now.marks.items (record_seen r.now)) }
{
    let position = before.len() as u32;
    if is_too_long(before.len(), weight, r) {
        return Err(PageRefusal::TooLong {
            position,
            length: weight,
        });
    }
    let marks = so_far.marks.as_slice();
    match held_id(index, owner, before, marks, r) {
        Some(held) if held == r.id => Ok(None),
        Some(held) => Err(PageRefusal::Forked { position, held }),
        None => {
            let wanted = wanted_idx(index, owner, before, marks, so_far.totals.entries, r);
            match take_fresh(position, so_far.totals, wanted, r) {
                Ok(more) => Ok(Some(more)),
                Err(refusal) => Err(refusal),
            }
        }
    }
}

impl SoFar {
    /// With one more mark, and that weight and those totals.
    fn with(self, mark: bool, weight: u64, totals: Held) -> Result<SoFar, NoMemory>
        ensures marks { IfOk result (λ more. more.marks.items ≡ self.marks.items ++ mark ∷ []) }
        ensures weight { IfOk result (λ more. more.weight ≡ weight) }
        ensures totals { IfOk result (λ more. more.totals ≡ totals) }
    {
        let mut marks = self.marks;
        marks.push(mark)?;
        Ok(SoFar {
            marks,
            weight,
            totals,
        })
    }
}

/// With the next record of the page.
fn take_next(
    index: &ChainIndex,
    owner: u32,
    before: &[Record],
    so_far: SoFar,
    r: &Record,
) -> Result<SoFar, PageFail>
    requires { Measured (records_seen before.now) so_far }
    ensures measured { IfOk result (λ more. Measured (records_seen before.now ++ record_seen r.now ∷ []) more) }
    ensures takes { OfJournal index.now owner (λ journal. AreTaken journal owner (records_seen before.now) so_far → TakesNext result journal owner (records_seen before.now) (record_seen r.now)) }
{
    let weight = so_far.weight + r.weight();
    let totals = so_far.totals;
    match take_record(index, owner, before, &so_far, weight, r) {
        Ok(Some(more)) => Ok(so_far.with(true, weight, more)?),
        Ok(None) => Ok(so_far.with(false, weight, totals)?),
        Err(refusal) => Err(PageFail::Refused(refusal)),
    }
}

/// For each record of the page whether it is fresh, so that it is to be appended: one that isn't is there already, in
/// the journal or earlier in the page, with the same id. The owner's chains are numbered from 0 without gaps.
///
/// # Errors
///
/// [`PageFail::Refused`] for the first position that has a cause, and of its causes the first in the order of
/// [`PageRefusal`]'s variants; then nothing of the page may be appended. [`PageFail::NoMemory`].
pub fn check_page(
    alloc: Global,
    index: &ChainIndex,
    owner: u32,
    page: &[Record],
) -> Result<Vec<bool>, PageFail>
    ensures each { IfOk result (λ marks. length marks.items ≡ length page.now) }
    ensures short { OnOk result (length page.now ≤ most_page_records) }
    ensures checks { OfJournal index.now owner (λ journal. Checks result journal owner (records_seen page.now)) }
{
    let mut so_far = SoFar {
        marks: Vec::new(alloc),
        weight: 0,
        totals: index.held(owner),
    };
    for at in 0..page.len() {
        so_far = match take_next(index, owner, &page[..at], so_far, &page[at]) {
            Ok(more) => more,
            Err(fail) => return Err(fail),
        };
    }
    Ok(so_far.marks)
}
