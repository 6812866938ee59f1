//! The words for a journal: its entries, chains, soundness, limits and growth, what an owner is
//! answered, and the laws that hold of these words alone.
//!
//! A journal is a list of entries, oldest first. An entry is a started command, a record that was
//! made here, or a record that was taken in for an owner; each is mirrored by a small record of
//! numbers and lists of bytes, so that no type of the code is named here. What is inside a sealed
//! record is nowhere opened.
//!
//! Each function has an empty body, and its contract is the law that its name says. Of `definitions`
//! the crate takes what a started command is, which limits hold, and what it is for a list to begin another.
#![tactic(auto)]

ghost use Rattle.record_rules.specs.Laws.{EmptyIsSound, EntryKeepsSound, SoundEntryFollows, PrefixIsSound, StatusTellsLengths, StatusListsNoEmpty, StatusAscends, LengthsMakeStatus, StatusIsDetermined, OwnWithOne, ChainWithOne, RunningWithOne, HeldWithOne, CountWithOne, FreshWithOne, FreshOfWithOne, WantedWithOne, MayComeIsTold, SoundIsTold, GrowthIsInTurn, PageIsLongest, GrowthKeepsSound, RefusalLeavesAll, TakenPageFits, NextPageIsTaken, RecordsPastHundred, GrowthExtendsChains, GrowthLeavesOthers, GrowthHoldsPage, RepeatAddsNothing, StandingAddsNothing, RepliesAlike, RepliesAlone, RepliesAsAlone, SliceNeverForks, SliceKeepsPrefix, SliceLeavesOtherChains};
ghost use Rattle.record_rules.specs.Examples.{WorkedTotals, WorkedLimits, WorkedStatus, WorkedRunning, WorkedPages, WorkedPrefixes, WorkedHundred, WorkedFull, WorkedSound, WorkedUnsound, WorkedOwners};

/// A journal without entries is sound.
pub fn empty_is_sound()
    ensures { EmptyIsSound }
{}

/// An entry that may follow a sound journal leaves it sound.
pub fn entry_keeps_sound()
    ensures { EntryKeepsSound }
{}

/// Only such an entry leaves it sound: a sound journal is sound without its last entry, and that entry
/// may follow what is left.
pub fn sound_entry_follows()
    ensures { SoundEntryFollows }
{}

/// The prefix of a sound journal is sound.
pub fn prefix_is_sound()
    ensures { PrefixIsSound }
{}

/// A status tells the length of each chain, and 0 of a place that it doesn't list.
pub fn status_tells_lengths()
    ensures { StatusTellsLengths }
{}

/// A status lists no chain that is empty.
pub fn status_lists_no_empty()
    ensures { StatusListsNoEmpty }
{}

/// A status is in order of host, then of the tag's bytes, and no place comes twice.
pub fn status_ascends()
    ensures { StatusAscends }
{}

/// Two owners whose chains are as long at every host and tag have one status, in whichever order their
/// records came.
pub fn lengths_make_status()
    ensures { LengthsMakeStatus }
{}

/// Those lengths alone make it: a list in order of host, then of the tag's bytes, that lists no empty
/// chain and tells the length of each, is the status.
pub fn lengths_are_the_status()
    ensures { StatusIsDetermined }
{}

/// What one more entry makes of what each owner holds, of each chain, of what runs, of the totals and of
/// what a status tells.
pub fn one_more_entry()
    ensures own { OwnWithOne }
    ensures chain { ChainWithOne }
    ensures running { RunningWithOne }
    ensures held { HeldWithOne }
    ensures count { CountWithOne }
{}

/// What one more record of a page makes of what is fresh beside it, of the fresh ones so far, and of the
/// idx that is wanted next.
pub fn one_more_record()
    ensures fresh { FreshWithOne }
    ensures fresh_of { FreshOfWithOne }
    ensures wanted { WantedWithOne }
{}

/// Whether an event may be the next one is told by computing.
pub fn may_come_is_told()
    ensures { MayComeIsTold }
{}

/// So is whether a sound journal stays sound with more events.
pub fn sound_is_told()
    ensures { SoundIsTold }
{}

/// A page taken record by record, as code takes it, is the growth that is told of the whole page.
pub fn growth_is_in_turn()
    ensures { GrowthIsInTurn }
{}

/// A page is the longest prefix, within 4,194,304 bytes of weight, of the chain's next records, at most
/// `count` and at most 100 of them.
pub fn page_is_longest()
    ensures { PageIsLongest }
{}

/// A page leaves a sound journal sound, whether it is taken or refused; so each chain stays numbered
/// from 0 without gaps.
pub fn growth_keeps_sound()
    ensures { GrowthKeepsSound }
{}

/// A refused page leaves the journal as it was.
pub fn refusal_leaves_all()
    ensures { RefusalLeavesAll }
{}

/// A page that is taken has at most 100 records, which weigh at most 4,194,304 bytes together.
pub fn taken_page_fits()
    ensures { TakenPageFits }
{}

/// The next records of a chain are taken whole, where a page may be so long and heavy and the owner has
/// room for them.
pub fn next_page_is_taken()
    ensures { NextPageIsTaken }
{}

/// A page that goes on behind 100 records that would be taken is too long at position 100.
pub fn records_past_hundred()
    ensures { RecordsPastHundred }
{}

/// A page that is taken puts its fresh records behind the owner's chains, in order.
pub fn growth_extends_chains()
    ensures { GrowthExtendsChains }
{}

/// A page of one owner leaves what everyone else holds.
pub fn growth_leaves_others()
    ensures { GrowthLeavesOthers }
{}

/// After a page was taken, each of its records stands: its host, tag and idx are held with its id.
pub fn growth_holds_page()
    ensures { GrowthHoldsPage }
{}

/// A page that was taken is taken again and adds nothing, in whoever's call.
pub fn repeat_adds_nothing()
    ensures { RepeatAddsNothing }
{}

/// A page whose records all stand adds nothing, and only its own length, weight and texts can refuse
/// it.
pub fn standing_adds_nothing()
    ensures { StandingAddsNothing }
{}

/// An owner is told the same at two journals in which it holds the same.
pub fn replies_alike()
    ensures { RepliesAlike }
{}

/// Among the requests of all owners, each owner is told what its requests alone are told, at any
/// journal in which it holds the same.
pub fn replies_alone()
    ensures { RepliesAlone }
{}

/// Among the requests of all owners, each owner is told what its requests alone would be told in a
/// journal in which no one else has an entry.
pub fn replies_as_alone()
    ensures { RepliesAsAlone }
{}

/// A slice of a chain, of which the owner's own chain is a prefix, is never refused as a fork.
pub fn slice_never_forks()
    ensures { SliceNeverForks }
{}

/// Where such a slice is taken, the owner's chain is still a prefix of that chain.
pub fn slice_keeps_prefix()
    ensures { SliceKeepsPrefix }
{}

/// Where such a slice is taken, the owner's chains of other hosts and tags stay as they were.
pub fn slice_leaves_other_chains()
    ensures { SliceLeavesOtherChains }
{}

/// Weights and totals, worked out: what a record and two small journals weigh, and the last entry that
/// an owner's limits let in.
pub fn worked_totals()
    ensures { WorkedTotals }
{}

/// Texts, weights and pages at their limits, and one byte above.
pub fn worked_limits()
    ensures { WorkedLimits }
{}

/// Statuses and pages, worked out.
pub fn worked_status()
    ensures { WorkedStatus }
{}

/// What runs, worked out: a start, an end, and an end that came before.
pub fn worked_running()
    ensures { WorkedRunning }
{}

/// Pages, worked out: taken, taken again, and refused for each cause.
pub fn worked_pages()
    ensures { WorkedPages }
{}

/// Prefixes of three records, worked out: what goes on in a chain, what is a prefix, and the longest one
/// within a weight.
pub fn worked_prefixes()
    ensures { WorkedPrefixes }
{}

/// A page of 100 records, worked out: taken, taken again, and what comes behind it.
pub fn worked_hundred()
    ensures { WorkedHundred }
{}

/// An owner that is full, worked out: the next record finds no room, and any other fresh one is a gap.
pub fn worked_full()
    ensures { WorkedFull }
{}

/// A small journal that is sound.
pub fn worked_sound()
    ensures { WorkedSound }
{}

/// Journals that are not sound, for each condition one at least.
pub fn worked_unsound()
    ensures { WorkedUnsound }
{}

/// Two owners with records at one host and tag, worked out.
pub fn worked_owners()
    ensures { WorkedOwners }
{}
