//! What a search remembers of texts: each text is tested once.

ghost use Rattle.std.specs.Prelude.{◌≡◌, ◌≢◌, ℕ, Bool, List, ◌+◌, ◌/◌, ◌%◌, true, false, ◌<◌, ◌≤◌, length, IfOk, slice_get, Some, ◌&&◌, not};
ghost use Rattle.std.specs.List.{All};
ghost use Rattle.definitions.specs.Search.{matches_by};
ghost use Rattle.history_view.specs.declared.walk.Walked.{Walked};
ghost use Rattle.history_view.specs.Spans.{IsWithin};
ghost use Rattle.history_view.specs.Texts.{AreDistinct};
ghost use Rattle.history_view.specs.Walk.{IsRow};
ghost use Rattle.search_query.specs.Answers.{Seens, Remembers, IsKnown, IsTold, PassesBy, SpansHits, more_seen};

use crate::matching::Matching;
use history_view::{HistoryView, Span};
use plain_types::NoMemory;
use record_model::Query;
use std::alloc::Global;

/// Whether the text of each number matches and is still to be shown, where that is known.
pub type Memo = Vec<Option<bool>>;

/// Nothing is remembered of so many texts.
pub fn blank(alloc: Global, count: usize) -> Result<Memo, NoMemory>
    ensures long { IfOk result (λ memo. length memo.items ≡ count) }
    ensures blank { IfOk result (λ memo. All (λ o. o ≡ None) memo.items) }
{
    Ok(Vec::from_elem(alloc, None, count)?)
}

/// Whether it is remembered that the command of this number is no hit.
pub fn is_miss(memo: &Memo, number: usize) -> bool
    requires { number < length memo.now.items }
    ensures { result ≡ true → slice_get memo.now.items number ≡ Some (Some false) }
{
    match memo[number] {
        Some(known) => !known,
        None => false,
    }
}

/// Whether the command of this number matches, and wasn't seen. A test is one step.
pub fn matches(
    memo: &mut Memo,
    number: u32,
    command: &[u8],
    matching: &Matching<'_>,
    view: &HistoryView,
    steps: &mut u64,
) -> bool
    requires named { slice_get view.now.texts number ≡ Some command.now }
    requires long { length memo.old.items ≡ length view.now.texts }
    ensures matches { (seen : Seens) → Remembers view.now.texts (matches_by matching.now.mode matching.now.text) seen memo.old.items → result ≡ (matches_by matching.now.mode matching.now.text command.now && not (seen command.now)) }
    ensures memo { (seen : Seens) → Remembers view.now.texts (matches_by matching.now.mode matching.now.text) seen memo.old.items → Remembers view.now.texts (matches_by matching.now.mode matching.now.text) seen memo.new.items }
    ensures long { length memo.new.items ≡ length view.now.texts }
    ensures steps { steps.new ≤ steps.old + 1 }
    ensures known { IsKnown memo.old.items → IsKnown memo.new.items × (steps.new ≡ steps.old) }
{
    match memo[number as usize] {
        Some(known) => known,
        None => {
            *steps = steps.saturating_add(1);
            let known = matching.matches(command, view.folded_text(number as usize));
            memo[number as usize] = Some(known);
            known
        }
    }
}

/// Remembers that the command of this number was seen, where hits are to be unique.
pub fn see(memo: &mut Memo, number: u32, view: &HistoryView, query: &Query)
    requires named { number < length view.now.texts }
    requires distinct { AreDistinct view.now.texts }
    requires long { length memo.old.items ≡ length view.now.texts }
    ensures memo { (seen : Seens) (test : List ℕ → Bool) (command : List ℕ) → slice_get view.now.texts number ≡ Some command → Remembers view.now.texts test seen memo.old.items → Remembers view.now.texts test (more_seen query.now.unique seen command) memo.new.items }
    ensures long { length memo.new.items ≡ length view.now.texts }
    ensures known { IsKnown memo.old.items → IsKnown memo.new.items }
{
    if !query.unique {
        return;
    }
    memo[number as usize] = Some(false);
}

/// Whether the text of each number matches. Where nothing in a block of texts does, one look passes by all of them. Each
/// text is one step.
///
/// # Errors
///
/// [`NoMemory`].
pub fn told(
    alloc: Global,
    matching: &Matching<'_>,
    view: &HistoryView,
    steps: &mut u64,
) -> Result<Memo, NoMemory>
    ensures told { IfOk result (λ memo. IsTold view.now.texts (matches_by matching.now.mode matching.now.text) memo.items) }
    ensures long { IfOk result (λ memo. length memo.items ≡ length view.now.texts) }
    ensures distinct { AreDistinct view.now.texts }
    ensures steps { steps.new ≤ steps.old + length view.now.texts }
{
    let count = view.text_count();
    *steps = steps.saturating_add(count as u64);
    let mut memo = Vec::new(alloc);
    let mut is_passed = false;
    for number in 0..count {
        is_passed = passes_by(matching, view, number, is_passed);
        let known = is_match(matching, view, number, is_passed);
        memo.push(Some(known))?;
    }
    Ok(memo)
}

/// Whether nothing matches in the block of this number's text, where it was passed by before if the block is no new one.
fn passes_by(matching: &Matching<'_>, view: &HistoryView, number: usize, before: bool) -> bool
    requires { number % 64 ≢ 0 → before ≡ true → PassesBy view.now.texts (matches_by matching.now.mode matching.now.text) (number / 64) }
    ensures { result ≡ true → PassesBy view.now.texts (matches_by matching.now.mode matching.now.text) (number / 64) }
{
    if number % 64 != 0 {
        return before;
    }
    matching.passes_by(view.folded(number / 64))
}

/// Whether the text of this number matches.
fn is_match(matching: &Matching<'_>, view: &HistoryView, number: usize, is_passed: bool) -> bool
    requires { is_passed ≡ true → PassesBy view.now.texts (matches_by matching.now.mode matching.now.text) (number / 64) }
    ensures { (text : List ℕ) → slice_get view.now.texts number ≡ Some text → result ≡ matches_by matching.now.mode matching.now.text text }
{
    if is_passed {
        return false;
    }
    match view.numbered(number) {
        Some(text) => matching.matches(text, view.folded_text(number)),
        None => false,
    }
}

/// A span in which all commands began that may be hits, by what is remembered of their texts.
pub fn hits_span(memo: &Memo, view: &HistoryView) -> Span
    requires { length memo.now.items ≡ length view.now.texts }
    ensures { SpansHits view.now memo.now.items result }
{
    let mut span = Span::empty();
    for number in 0..memo.len() {
        span = span_with(&span, memo, view, number);
    }
    span
}

/// The span with that of this number's text, unless it is remembered that its command is no hit.
fn span_with(span: &Span, memo: &Memo, view: &HistoryView, number: usize) -> Span
    requires { number < length memo.now.items }
    ensures keeps { (t : ℕ) → IsWithin span.now t → IsWithin result t }
    ensures more { (slice_get memo.now.items number ≡ Some (Some false) → ⊥) → (w : Walked) → IsRow view.now w → w.numbers.command ≡ number → IsWithin result w.timestamp }
{
    if is_miss(memo, number) {
        return *span;
    }
    span.joined(&view.span(number))
}
