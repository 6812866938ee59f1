//! The laws of pages, over any item and its weight, and of searches, whose hits are cut to a page. Each is a function
//! that does nothing, whose contract is the law.

ghost use Rattle.std.specs.Prelude.{◌≡◌, ℕ, ◌+◌, ◌<◌, ◌≤◌, ◌⊎◌, List, map, length, take, slice_index_or};
ghost use Rattle.std.specs.List.{sum_by};
ghost use Rattle.definitions.specs.Limits.{most_shown_bytes};
ghost use Rattle.definitions.specs.Journal.{HistoryRecord, HaveDistinctIds};
ghost use Rattle.definitions.specs.Search.{FitsPage, IsPage, IsAnswer};
ghost use Rattle.definitions.specs.Pages.{longest_within, IsLongestWithin};

/// A page is cut by counting: it goes on as long as the next item fits, and stops where there are as many as may be, where
/// the next one would make several too heavy, or where none is left. So code that counts finds the page, and there is
/// one alone.
pub fn a_page_is_cut_by_counting<X>()
    ensures goes_on { (bytes_of : X → ℕ) (limit : ℕ) (items : List X) (k bytes : ℕ) (next : X) → k < length items → next ≡ slice_index_or items k next → bytes ≡ sum_by bytes_of (take k items) → k < limit → (k ≡ 0) ⊎ (bytes + bytes_of next ≤ most_shown_bytes) → (bytes + bytes_of next ≡ sum_by bytes_of (take (k + 1) items)) × FitsPage bytes_of limit (take (k + 1) items) }
    ensures stops { (bytes_of : X → ℕ) (limit : ℕ) (items : List X) (k bytes : ℕ) (next : X) → k < length items → next ≡ slice_index_or items k next → bytes ≡ sum_by bytes_of (take k items) → FitsPage bytes_of limit (take k items) → (limit ≤ k) ⊎ ((0 < k) × (most_shown_bytes < bytes + bytes_of next)) → IsPage bytes_of limit items (take k items) }
    ensures ends { (bytes_of : X → ℕ) (limit : ℕ) (items : List X) (k : ℕ) → length items ≤ k → FitsPage bytes_of limit (take k items) → IsPage bytes_of limit items (take k items) }
    ensures one { (bytes_of : X → ℕ) (limit : ℕ) (items page other : List X) → IsPage bytes_of limit items page → IsPage bytes_of limit items other → page ≡ other }
{}

/// A page of items is a page of them as they are seen, where each weighs what it is seen to weigh.
pub fn a_page_is_one_as_it_is_seen<A, X>()
    ensures { (seen : A → X) (bytes_of : X → ℕ) (limit : ℕ) (all page : List A) → IsPage (λ (a : A). bytes_of (seen a)) limit all page → IsPage bytes_of limit (map seen all) (map seen page) }
{}

/// The items that are taken one by one while they weigh no more than a limit are the longest prefix within it.
pub fn a_prefix_within_a_weight_is_the_longest<X>()
    ensures { (weight_of : X → ℕ) (weight : ℕ) (items : List X) → IsLongestWithin weight_of weight items (longest_within weight_of weight items) }
{}

/// Over commands with ids of their own a search has at most one answer.
pub fn a_search_has_one_answer()
    ensures { (offset limit : ℕ) (entries page other : List HistoryRecord) → HaveDistinctIds (λ (h : HistoryRecord). h.id) entries → IsAnswer offset limit entries page → IsAnswer offset limit entries other → page ≡ other }
{}
