//! A search, from the newest command on.

ghost use Rattle.std.specs.Prelude.{◌≡◌, ℕ, List, ◌+◌, ◌<◌, ◌≤◌, ◌^◌, [], ◌∷◌, true, length, None, Some, IfOk, IfSome, IsSome};
ghost use Rattle.std.specs.List.{filter, AllByRecursion};
ghost use Rattle.std.specs.Option.{option_map};
ghost use Rattle.view_rules.specs.Changes.{Change, HaveDistinctPlaces};
ghost use Rattle.view_rules.specs.Answers.{in_scope, SearchAnswer};
ghost use Rattle.history_view.specs.ViewState.{Means};
ghost use Rattle.history_view.specs.Shown.{command_seen};
ghost use Rattle.history_view.specs.Buckets.{Selects};
ghost use Rattle.history_view.specs.Texts.{AreDistinct};
ghost use Rattle.history_view.specs.Walk.{newest_of, walked_in, IsRow};
ghost use Rattle.search_query.specs.Answers.{Seens, scope_seen, query_seen, test_of, wanted_of, none_seen, IsAnswerOf, ListsShown, MakesAnswer, Remembers, IsKnown, IsOneFewer, passing, hit_at, seen_after, seen_of};

use crate::matching::Matching;
use crate::memo::{Memo, blank, hits_span, is_miss, matches, see, told};
use crate::page::take;
use history_view::{HistoryView, Newest, ScopeNumber, ShownCommand, Walked};
use plain_types::NoMemory;
use record_model::Query;
use std::alloc::Global;

/// So many commands are walked to, the newest first, before all texts are looked through.
const FIRST_COMMANDS: u64 = 4_096;

/// The hits of the query, the newest first, of equal ones the first where they are to be unique, without the first `offset`,
/// and as many as one reply may show. The limit is at least 1. Each match test of a command is one step; there is at most
/// one for each command that passes the filter.
///
/// # Errors
///
/// [`NoMemory`].
pub fn search<'a>(
    alloc: Global,
    view: &'a HistoryView,
    query: &Query,
    steps: &mut u64,
) -> Result<Vec<ShownCommand<'a>>, NoMemory>
    requires limit { 1 ≤ query.now.limit }
    requires steps { steps.old + length (filter (in_scope (scope_seen query.now.filter)) (newest_of view.now)) < 2 ^ 64 }
    ensures page { IfOk result (λ hits. IsAnswerOf query.now (newest_of view.now) (seen_of hits.items)) }
    ensures answer { IfOk result (λ hits. (changes : List Change) → Means view.now changes → HaveDistinctPlaces changes → SearchAnswer changes (query_seen query.now) (seen_of hits.items)) }
    ensures steps { steps.new ≤ steps.old + length (filter (in_scope (scope_seen query.now.filter)) (newest_of view.now)) }
{
    let matching = Matching::new(query.mode, query.text.as_bytes());
    found(alloc, view, query, &matching, steps)
}

/// The same, with the text of the query ready to be looked for.
///
/// # Errors
///
/// [`NoMemory`].
fn found<'a>(
    alloc: Global,
    view: &'a HistoryView,
    query: &Query,
    matching: &Matching<'_>,
    steps: &mut u64,
) -> Result<Vec<ShownCommand<'a>>, NoMemory>
    requires limit { 1 ≤ query.now.limit }
    requires matching { matching.now ≡ wanted_of query.now }
    ensures page { IfOk result (λ hits. IsAnswerOf query.now (newest_of view.now) (seen_of hits.items)) }
    ensures listed { ListsShown view.now (newest_of view.now) }
    ensures steps { steps.new ≤ steps.old + length (filter (in_scope (scope_seen query.now.filter)) (newest_of view.now)) }
{
    let rows = view.newest();
    let texts = view.text_count();
    if !is_worth_a_look(view.bucket_len(&query.filter), texts as u64) {
        let memo = blank(alloc, texts)?;
        return whole(alloc, view, query, matching, memo, rows, steps);
    }
    match begun(alloc, view, query, matching, rows, steps)? {
        Some(hits) => Ok(hits),
        None => looked_through(alloc, view, query, matching, steps),
    }
}

/// Whether all texts may be looked through behind the first commands, for no more tests than there are commands.
fn is_worth_a_look(commands: u64, texts: u64) -> bool
    ensures { result ≡ true → texts + 4096 ≤ commands }
{
    commands >= FIRST_COMMANDS && texts <= commands - FIRST_COMMANDS
}

/// The same, once it is known of all texts whether they match: by the commands that began no earlier and no later than any
/// with a text that does.
///
/// # Errors
///
/// [`NoMemory`].
fn looked_through<'a>(
    alloc: Global,
    view: &'a HistoryView,
    query: &Query,
    matching: &Matching<'_>,
    steps: &mut u64,
) -> Result<Vec<ShownCommand<'a>>, NoMemory>
    requires limit { 1 ≤ query.now.limit }
    requires matching { matching.now ≡ wanted_of query.now }
    requires rows { AllByRecursion (IsRow view.now) (walked_in view.now.order) }
    ensures page { IfOk result (λ hits. IsAnswerOf query.now (newest_of view.now) (seen_of hits.items)) }
    ensures steps { steps.new ≤ steps.old + length view.now.texts }
{
    let memo = told(alloc, matching, view, steps)?;
    let span = hits_span(&memo, view);
    if span.is_empty() {
        return Ok(Vec::new(alloc));
    }
    let rows = view.between(&span);
    whole(alloc, view, query, matching, memo, rows, steps)
}

/// The same, if the first commands tell it.
///
/// # Errors
///
/// [`NoMemory`].
fn begun<'a>(
    alloc: Global,
    view: &'a HistoryView,
    query: &Query,
    matching: &Matching<'_>,
    rows: Newest<'a>,
    steps: &mut u64,
) -> Result<Option<Vec<ShownCommand<'a>>>, NoMemory>
    requires limit { 1 ≤ query.now.limit }
    requires matching { matching.now ≡ wanted_of query.now }
    requires makes { MakesAnswer query.now view.now (walked_in rows.inner) }
    ensures page { IfOk result (λ found. IfSome found (λ hits. IsAnswerOf query.now (newest_of view.now) (seen_of hits.items))) }
    ensures steps { steps.new ≤ steps.old + 4096 }
{
    let memo = blank(alloc, view.text_count())?;
    walk(
        alloc,
        view,
        query,
        matching,
        memo,
        rows,
        Some(FIRST_COMMANDS),
        steps,
    )
}

/// The same by all these commands, with what is known of their texts.
///
/// # Errors
///
/// [`NoMemory`].
fn whole<'a>(
    alloc: Global,
    view: &'a HistoryView,
    query: &Query,
    matching: &Matching<'_>,
    memo: Memo,
    rows: Newest<'a>,
    steps: &mut u64,
) -> Result<Vec<ShownCommand<'a>>, NoMemory>
    requires limit { 1 ≤ query.now.limit }
    requires matching { matching.now ≡ wanted_of query.now }
    requires distinct { AreDistinct view.now.texts }
    requires remembers { Remembers view.now.texts (test_of query.now) none_seen memo.items }
    requires long { length memo.items ≡ length view.now.texts }
    requires makes { MakesAnswer query.now view.now (walked_in rows.inner) }
    ensures page { IfOk result (λ hits. IsAnswerOf query.now (newest_of view.now) (seen_of hits.items)) }
    ensures steps { steps.new ≤ steps.old + length (filter (in_scope (scope_seen query.now.filter)) (newest_of view.now)) }
    ensures known { IsKnown memo.items → steps.new ≡ steps.old }
{
    match walk(alloc, view, query, matching, memo, rows, None, steps)? {
        Some(hits) => Ok(hits),
        None => unreachable!(),
    }
}

/// The same by at most so many of these commands. It answers none where they don't tell.
///
/// # Errors
///
/// [`NoMemory`].
fn walk<'a>(
    alloc: Global,
    view: &'a HistoryView,
    query: &Query,
    matching: &Matching<'_>,
    memo: Memo,
    rows: Newest<'a>,
    most: Option<u64>,
    steps: &mut u64,
) -> Result<Option<Vec<ShownCommand<'a>>>, NoMemory>
    requires limit { 1 ≤ query.now.limit }
    requires matching { matching.now ≡ wanted_of query.now }
    requires distinct { AreDistinct view.now.texts }
    requires remembers { Remembers view.now.texts (test_of query.now) none_seen memo.items }
    requires long { length memo.items ≡ length view.now.texts }
    requires makes { MakesAnswer query.now view.now (walked_in rows.inner) }
    ensures page { IfOk result (λ found. IfSome found (λ hits. IsAnswerOf query.now (newest_of view.now) (seen_of hits.items))) }
    ensures all { most ≡ None → IfOk result (λ found. IsSome found) }
    ensures steps { steps.new ≤ steps.old + length (filter (in_scope (scope_seen query.now.filter)) (newest_of view.now)) }
    ensures most { IfSome most (λ n. steps.new ≤ steps.old + n) }
    ensures known { IsKnown memo.items → steps.new ≡ steps.old }
{
    let mut memo = memo;
    let mut left = most;
    let mut hits = Vec::new(alloc);
    let mut bytes = 0;
    let mut skip = query.offset;
    let scope = view.scope(&query.filter);
    for walked in rows {
        if hits.len() >= query.limit as usize {
            break;
        }
        let Some(fewer) = one_fewer(left) else {
            return Ok(None);
        };
        left = fewer;
        let found = hit(view, query, &scope, matching, &mut memo, walked, steps);
        if let Some(h) = found {
            if skip > 0 {
                skip -= 1;
            } else if !take(&mut hits, &mut bytes, query.limit, h)? {
                break;
            }
        }
    }
    Ok(Some(hits))
}

/// One fewer of so many, or of all; nothing where none is left.
fn one_fewer(left: Option<u64>) -> Option<Option<u64>>
    ensures { IsOneFewer left result }
{
    match left {
        None => Some(None),
        Some(0) => None,
        Some(many) => Some(Some(many - 1)),
    }
}

/// The hit that was walked to, if it is one.
fn hit<'a>(
    view: &'a HistoryView,
    query: &Query,
    scope: &ScopeNumber,
    matching: &Matching<'_>,
    memo: &mut Memo,
    walked: Walked,
    steps: &mut u64,
) -> Option<ShownCommand<'a>>
    requires row { IsRow view.now walked }
    requires scope { Selects view.now.texts (scope_seen query.now.filter) scope.now }
    requires matching { matching.now ≡ wanted_of query.now }
    requires distinct { AreDistinct view.now.texts }
    requires long { length memo.old.items ≡ length view.now.texts }
    ensures hit { (seen : Seens) → Remembers view.now.texts (test_of query.now) seen memo.old.items → option_map command_seen result ≡ hit_at query.now seen view.now walked }
    ensures memo { (seen : Seens) → Remembers view.now.texts (test_of query.now) seen memo.old.items → Remembers view.now.texts (test_of query.now) (seen_after query.now.unique seen (option_map command_seen result)) memo.new.items }
    ensures long { length memo.new.items ≡ length view.now.texts }
    ensures steps { steps.new ≤ steps.old + passing query.now view.now (walked ∷ []) }
    ensures one { steps.new ≤ steps.old + 1 }
    ensures known { IsKnown memo.old.items → IsKnown memo.new.items × (steps.new ≡ steps.old) }
{
    if !scope.has(&walked.numbers) {
        return None;
    }
    if is_miss(memo, walked.numbers.command as usize) {
        return None;
    }
    let command = view.text(walked.numbers.command);
    if !matches(memo, walked.numbers.command, command, matching, view, steps) {
        return None;
    }
    let h = match view.get(walked.id) {
        Some(h) => h,
        None => unreachable!(),
    };
    see(memo, walked.numbers.command, view, query);
    Some(h)
}
