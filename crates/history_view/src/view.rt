//! The view of the commands that ended.

ghost use Rattle.std.specs.Prelude.{◌≡◌, ℕ, List, [], ◌∷◌, IfOk};
ghost use Rattle.payload_rules.specs.Payloads.{Payload, HistoryCreate, HistoryDelete};
ghost use Rattle.record_model.specs.Seen.{history_seen};
ghost use Rattle.view_rules.specs.Changes.{Change};
ghost use Rattle.history_view.specs.ViewState.{ViewState, standing_in, Means};
ghost use Rattle.history_view.specs.Rooms.{IsReady, KeepsRooms};
ghost use Rattle.history_view.specs.Texts.{KeepsTexts, AreDistinct};
ghost use Rattle.history_view.specs.Rows.{HasTexts, command_of, HasAuthor, author_of};
ghost use Rattle.history_view.specs.Walk.{walked_in, shown_command, newest_of, IsRow, StandInOrder, AreShown};
ghost use Rattle.std.specs.List.{AllByRecursion};
ghost use Rattle.std.specs.List.Sorted.{IsSortedBy};
ghost use Rattle.definitions.specs.Search.{is_shown_before};
ghost use Rattle.definitions.specs.Journal.{HaveDistinctIds};
ghost use Rattle.history_view.specs.Shown.{command_seen};
ghost use Rattle.std.specs.Option.{option_map};
ghost use Rattle.std.specs.Prelude.{length, IsSome, Some, slice_get, ltb, ◌≤◌, ◌+◌};
ghost use Rattle.std.specs.Range.Bound.{IsForward};
ghost use Rattle.std.specs.declared.ops.Bound.TheVariants.{Included};
ghost use Rattle.std.specs.BTreeMap.Range.{IsLeBy, IsLtBy, is_past_end};
ghost use Rattle.history_view.specs.declared.walk.Walked.{Walked};
ghost use Rattle.history_view.specs.Places.{OrderKey, key_cmp};
ghost use Rattle.history_view.specs.Spans.{span_of, IsWithin, began_within};
ghost use Rattle.history_view.specs.Folded.{HoldsBlock, BeginsFolded};
ghost use Rattle.std.specs.List.{filter, filter_map};
ghost use Rattle.view_rules.specs.Answers.{in_scope};
ghost use Rattle.history_view.specs.Counts.{Counts, SameCounts, count_of, the_command};
ghost use Rattle.history_view.specs.Buckets.{bucket_in, scope_seen, Selects};

use crate::bucket::{Bucket, ScopeNumber, scope_number};
use crate::dictionary::Dictionary;
use crate::places::{Ids, Order, change, held, make_id, make_key};
use crate::room::Room;
use crate::rows::Creation;
use crate::shown::ShownCommand;
use crate::spans::{Span, Spans, make, spanned, widen};
use crate::walk::Newest;
use plain_types::{NoMemory, Text};
use record_model::{Filter, History};
use std::alloc::Global;
use std::cmp::Reverse;
use std::collections::{BTreeMap, HashMap};
use std::marker::Model;
use std::ops::Bound;

/// A command brings so many texts at most: itself, its working directory, session, host name and author.
const TEXTS_OF_ONE: usize = 5;

/// The commands that ended.
#[derive(Drop)]
pub struct HistoryView {
    texts: Dictionary,
    ids: Ids,
    order: Order,
    shown: u64,
    spans: Spans,
}

impl Model for HistoryView {
    ghost use Rattle.history_view.specs.ViewState.{ViewState};
    ghost use Rattle.history_view.specs.Spans.{IsKept};

    ghost Value = { ViewState };

    ghost view = { λ v. record { texts = v.texts.texts; counts = v.texts.counts; shown = v.shown; ids = v.ids.entries; order = v.order.entries } };

    ghost invariant = { λ v. IsKept (record { texts = v.texts.texts; counts = v.texts.counts; shown = v.shown; ids = v.ids.entries; order = v.order.entries }) v.spans.items };
}

impl HistoryView {
    /// The view of no changes. It takes no memory.
    pub fn new(alloc: Global) -> HistoryView
        ensures { Means result [] }
    {
        HistoryView {
            texts: Dictionary::new(alloc),
            ids: HashMap::new(alloc),
            order: BTreeMap::new(alloc),
            shown: 0,
            spans: Vec::new(alloc),
        }
    }

    /// Makes a room ready for a creation of this command.
    ///
    /// # Errors
    ///
    /// [`NoMemory`]. The view means what it meant.
    pub fn reserve_creation(&mut self, alloc: Global, h: &History) -> Result<Room, NoMemory>
        ensures ready { IfOk result (λ room. IsReady self.new room (HistoryCreate (history_seen h.now))) }
        ensures same { (id : ℕ) → standing_in self.new id ≡ standing_in self.old id }
        ensures rooms { KeepsRooms self.old self.new }
    {
        let creation = number_texts(&mut self.texts, &mut self.spans, alloc, h)?;
        make_id(&mut self.ids, h.id)?;
        make_key(&mut self.order, (Reverse(h.timestamp), h.id))?;
        Ok(Room::Creates(h.id, creation))
    }

    /// Makes a room ready for a deletion of this id.
    ///
    /// # Errors
    ///
    /// [`NoMemory`]. The view means what it meant.
    pub fn reserve_deletion(&mut self, id: u128) -> Result<Room, NoMemory>
        ensures ready { IfOk result (λ room. IsReady self.new room (HistoryDelete id)) }
        ensures same { (id : ℕ) → standing_in self.new id ≡ standing_in self.old id }
        ensures rooms { KeepsRooms self.old self.new }
    {
        make_id(&mut self.ids, id)?;
        Ok(Room::Deletes(id))
    }

    /// The command that is shown of the id. It takes no memory.
    pub fn get(&self, id: u128) -> Option<ShownCommand<'_>>
        ensures { option_map command_seen result ≡ shown_command self.now id }
    {
        let held = held(&self.ids, id);
        match held.shown() {
            None => None,
            Some(c) => Some(lend(&self.texts, id, &c)),
        }
    }

    /// Whether the id is dead. It takes no memory.
    pub fn is_dead(&self, id: u128) -> bool
        ensures { result ≡ (standing_in self.now id).dead }
    {
        held(&self.ids, id).dead
    }

    /// How many texts have numbers: those below it.
    pub fn text_count(&self) -> usize
        ensures len { result ≡ length self.now.texts }
        ensures distinct { AreDistinct self.now.texts }
    {
        self.texts.len()
    }

    /// The text of this number. It takes no memory.
    pub fn text(&self, number: u32) -> &[u8]
        requires { IsSome (slice_get self.now.texts number) }
        ensures { slice_get self.now.texts number ≡ Some result.now }
    {
        self.texts.text(number)
    }

    /// The text of this number, if it has one. It takes no memory.
    pub fn numbered(&self, number: usize) -> Option<&[u8]>
        ensures { option_map (λ t. t.now) result ≡ slice_get self.now.texts number }
    {
        self.texts.numbered(number)
    }

    /// The texts of 64 numbers, from 64 times this one on, end to end with their ASCII letters folded; nothing where there
    /// are none. It takes no memory.
    pub fn folded(&self, block: usize) -> &[u8]
        ensures { HoldsBlock self.now.texts block result.now }
    {
        self.texts.block(block)
    }

    /// The text of this number with its ASCII letters folded, and behind it other texts. It takes no memory.
    pub fn folded_text(&self, number: usize) -> &[u8]
        ensures { (text : List ℕ) → slice_get self.now.texts number ≡ Some text → BeginsFolded text result.now }
    {
        self.texts.folded(number)
    }

    /// The filter with its text by its number. It takes no memory.
    pub fn scope(&self, by: &Filter) -> ScopeNumber
        ensures { Selects self.now.texts (scope_seen by.now) result }
    {
        scope_number(&self.texts, by)
    }

    /// The commands that the filter lets through, as `newest` shows them. It takes no memory.
    pub fn bucket(&self, by: &Filter) -> Bucket<'_>
        ensures walked { walked_in result.newest.inner ≡ walked_in self.now.order }
        ensures rows { AllByRecursion (IsRow self.now) (bucket_in result) }
        ensures filtered { filter_map (λ w. shown_command self.now w.id) (bucket_in result) ≡ filter (in_scope (scope_seen by.now)) (newest_of self.now) }
    {
        Bucket {
            newest: self.newest(),
            scope: scope_number(&self.texts, by),
        }
    }

    /// How many commands `bucket` shows. It takes no memory, and as long for many as for few.
    pub fn bucket_len(&self, by: &Filter) -> u64
        ensures { result ≡ length (filter (in_scope (scope_seen by.now)) (newest_of self.now)) }
    {
        match self.bucket(by).scope {
            ScopeNumber::All => self.shown,
            ScopeNumber::Hostname(number) => self.texts.hosted(number),
            ScopeNumber::Session(number) => self.texts.in_session(number),
            ScopeNumber::Cwd(number) => self.texts.in_directory(number),
            ScopeNumber::Nothing => 0,
        }
    }

    /// The commands that are shown, the newest first, and of those of one time the one with the least id first.
    pub fn newest(&self) -> Newest<'_>
        ensures walked { walked_in result.inner ≡ walked_in self.now.order }
        ensures rows { AllByRecursion (IsRow self.now) (walked_in self.now.order) }
        ensures in_order { StandInOrder (newest_of self.now) }
        ensures sorted { IsSortedBy is_shown_before (newest_of self.now) }
        ensures own { HaveDistinctIds (λ h. h.id) (newest_of self.now) }
        ensures shown { AreShown self.now (newest_of self.now) }
    {
        Newest {
            inner: self.order.range(..),
        }
    }

    /// The commands that are shown and began within the span, as `newest` shows them.
    pub fn between(&self, span: &Span) -> Newest<'_>
        requires { span.now.earliest ≤ span.now.latest }
        ensures { walked_in result.inner ≡ filter (began_within span.now) (walked_in self.now.order) }
    {
        let start = Bound::Included((Reverse(span.latest), 0));
        Newest {
            inner: self.order.range((start, behind(span.earliest))),
        }
    }

    /// A span in which each command that is shown with the text of this number began. It takes no memory.
    pub fn span(&self, number: usize) -> Span
        ensures { (w : Walked) → IsRow self.now w → w.numbers.command ≡ number → IsWithin result w.timestamp }
    {
        spanned(&self.spans, number)
    }

    /// Places what the room holds, as the change at this host and idx. It takes no memory.
    pub fn add(&mut self, host: u128, idx: u64, room: Room)
        requires { (payload : Payload) × IsReady self.old room payload }
        ensures grows { (payload : Payload) (changes : List Change) (timestamp : ℕ) → IsReady self.old room payload → Means self.old changes → Means self.new (record { host = host; idx = idx; timestamp = timestamp; payload = payload } ∷ changes) }
        ensures rooms { KeepsRooms self.old self.new }
    {
        match room {
            Room::Creates(id, creation) => {
                widen(&mut self.spans, creation.command, creation.timestamp);
                let placed = creation.placed(host, idx);
                let new = held(&self.ids, id).after_creation(placed);
                change(
                    &mut self.ids,
                    &mut self.order,
                    &mut self.texts,
                    &mut self.shown,
                    id,
                    new,
                );
            }
            Room::Deletes(id) => {
                let new = held(&self.ids, id).after_deletion();
                change(
                    &mut self.ids,
                    &mut self.order,
                    &mut self.texts,
                    &mut self.shown,
                    id,
                    new,
                );
            }
        }
    }
}

/// The command in numbers, but for where it stands; each of its texts gets a span.
fn number_texts(
    texts: &mut Dictionary,
    spans: &mut Spans,
    alloc: Global,
    h: &History,
) -> Result<Creation, NoMemory>
    requires { length texts.old.texts ≤ length spans.old.items }
    ensures reach { length texts.new.texts ≤ length spans.new.items }
    ensures spans { (n : ℕ) → span_of spans.new.items n ≡ span_of spans.old.items n }
    ensures keeps { KeepsTexts texts.old.texts texts.new.texts }
    ensures counts { SameCounts texts.old.counts texts.new.counts }
    ensures has { IfOk result (λ c. HasTexts texts.new.texts c) }
    ensures means { IfOk result (λ c. command_of texts.new.texts h.now.id c ≡ history_seen h.now) }
{
    make(spans, texts.len() + TEXTS_OF_ONE)?;
    let command = texts.number(alloc, h.command.as_bytes())?;
    let cwd = texts.number(alloc, h.cwd.as_bytes())?;
    let session = texts.number(alloc, h.session.as_bytes())?;
    let hostname = texts.number(alloc, h.hostname.as_bytes())?;
    let author = number_author(texts, alloc, &h.author)?;
    Ok(Creation {
        host: 0,
        idx: 0,
        timestamp: h.timestamp,
        duration: h.duration,
        exit: h.exit,
        deleted_at: h.deleted_at,
        command,
        cwd,
        session,
        hostname,
        author,
    })
}

/// The end of the keys of times from this one on.
fn behind(earliest: u64) -> Bound<(Reverse<u64>, u128)>
    ensures past { (key : OrderKey) → is_past_end key_cmp result key ≡ ltb key.0.0 earliest }
    ensures forward { (latest : ℕ) → earliest ≤ latest → IsForward (IsLeBy key_cmp) (IsLtBy key_cmp) (Included (record { 0 = latest }, 0)) result }
{
    if earliest == 0 {
        Bound::Unbounded
    } else {
        Bound::Excluded((Reverse(earliest - 1), 0))
    }
}

/// The command with its texts.
fn lend<'a>(texts: &'a Dictionary, id: u128, c: &Creation) -> ShownCommand<'a>
    requires { HasTexts texts.now.texts c.now }
    ensures { command_seen result ≡ command_of texts.now.texts id c.now }
{
    ShownCommand {
        id,
        timestamp: c.timestamp,
        duration: c.duration,
        exit: c.exit,
        command: texts.text(c.command),
        cwd: texts.text(c.cwd),
        session: texts.text(c.session),
        hostname: texts.text(c.hostname),
        deleted_at: c.deleted_at,
        author: lend_author(texts, c.author),
    }
}

/// The number of the author, where there is one.
fn number_author(
    texts: &mut Dictionary,
    alloc: Global,
    author: &Option<Text>,
) -> Result<Option<u32>, NoMemory>
    ensures keeps { KeepsTexts texts.old.texts texts.new.texts }
    ensures counts { SameCounts texts.old.counts texts.new.counts }
    ensures has { IfOk result (λ n. HasAuthor texts.new.texts n) }
    ensures means { IfOk result (λ n. author_of texts.new.texts n ≡ author.now) }
    ensures few { length texts.new.texts ≤ length texts.old.texts + 1 }
{
    match author {
        Some(author) => Ok(Some(texts.number(alloc, author.as_bytes())?)),
        None => Ok(None),
    }
}

/// The author's text, where there is one.
fn lend_author(texts: &Dictionary, author: Option<u32>) -> Option<&[u8]>
    requires { HasAuthor texts.now.texts author }
    ensures { option_map (λ a. a.now) result ≡ author_of texts.now.texts author }
{
    match author {
        Some(number) => Some(texts.text(number)),
        None => None,
    }
}
