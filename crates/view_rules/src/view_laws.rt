//! The laws of the views. Each is a function that does nothing, whose contract is the law.

ghost use Rattle.view_rules.specs.Changes.{Opens};
ghost use Rattle.view_rules.specs.Laws.{HaveOneList, ChangesGoOn, ComputedListIsOf, ChainsMakeChanges, SoundHasDistinctPlaces, LastMayStandFirst, SetMakesViews, ChainsMakeViews, DeadStands, FirstIsShown, LastIsShownOfKey, LastIsShownOfName, IdHasOneCommand, KeyHasOneValue, NameHasOneValue, PlainSearchIsOfAll, SearchHasOneAnswer, KeysHaveOneAnswer, NamesHaveOneAnswer, LivingIdIsShown, SetKeyIsShown, SetNameIsShown};
ghost use Rattle.view_rules.specs.Examples.{WorkedHistory, WorkedAliases, WorkedKeys, WorkedLists, WorkedSearches, WorkedViews, WorkedChanges};

/// What opens records: a key. Which records open to which payloads is said by it alone, as a relation, so
/// that the laws of changes hold of whatever opening there is.
pub trait Opener {
    ghost opens: { Self → Opens };
}

/// The records of a list have exactly one list of changes, where each of them opens to at most one
/// payload and it is known which of them open.
pub fn records_have_one_list<K: Opener>(opener: &K)
    ensures { HaveOneList (K.opens opener.now) }
{
    let _ = opener;
}

/// A record more is one change more, or none where it doesn't open.
pub fn changes_go_on<K: Opener>(opener: &K)
    ensures { ChangesGoOn (K.opens opener.now) }
{
    let _ = opener;
}

/// Two journals in which owner 0 has the same chains hold the same changes.
pub fn equal_chains_hold_the_same<K: Opener>(opener: &K)
    ensures { ChainsMakeChanges (K.opens opener.now) }
{
    let _ = opener;
}

/// The changes that are computed by an opening are the list of what it opens.
pub fn computed_changes_are_the_list()
    ensures { ComputedListIsOf }
{}

/// In a sound journal no two changes stand at one host, tag and idx, as the laws of one value want it.
pub fn sound_journals_have_distinct_places()
    ensures { SoundHasDistinctPlaces }
{}

/// The last change may as well stand first: what it does to a view is told by how ids, keys and names
/// stand.
pub fn the_last_may_stand_first()
    ensures { LastMayStandFirst }
{}

/// Two lists with the same changes show the same, in whatever order the changes came and however often
/// each: the same dead ids, commands, values, aliases, searches and lists of names.
pub fn views_depend_on_the_set()
    ensures { SetMakesViews }
{}

/// Two journals in which owner 0 has the same chains show the same.
pub fn equal_chains_have_equal_views()
    ensures { ChainsMakeViews }
{}

/// An id stands dead exactly where it was deleted.
pub fn dead_ids_stand_dead()
    ensures { DeadStands }
{}

/// A command is shown exactly where its id stands alive and it is the first creation.
pub fn shown_is_the_first()
    ensures { FirstIsShown }
{}

/// A value is shown exactly where it was the last that was said of the key or the name.
pub fn shown_is_the_last()
    ensures key { LastIsShownOfKey }
    ensures name { LastIsShownOfName }
{}

/// An id has at most one command in the history view.
pub fn an_id_has_one_command()
    ensures { IdHasOneCommand }
{}

/// A key of a namespace has at most one value.
pub fn a_key_has_one_value()
    ensures { KeyHasOneValue }
{}

/// A name stands for at most one value.
pub fn a_name_has_one_value()
    ensures { NameHasOneValue }
{}

/// A search of all commands for the empty text, equal ones not dropped, is the plain search over the same commands.
pub fn a_plain_search_is_of_all()
    ensures { PlainSearchIsOfAll }
{}

/// A search has at most one answer.
pub fn a_search_has_one_answer()
    ensures { SearchHasOneAnswer }
{}

/// A list of keys, and one of aliases, has at most one answer.
pub fn a_list_has_one_answer()
    ensures keys { KeysHaveOneAnswer }
    ensures names { NamesHaveOneAnswer }
{}

/// An id that was created and isn't dead has a command in the history view.
pub fn a_living_id_is_shown()
    ensures { LivingIdIsShown }
{}

/// A key of which something was said has a value, unless the last that was said ended it.
pub fn a_set_key_is_shown()
    ensures { SetKeyIsShown }
{}

/// A name of which something was said has a value, unless the last that was said ended it.
pub fn a_set_name_is_shown()
    ensures { SetNameIsShown }
{}

/// Records of which one doesn't open: the changes of the others.
pub fn worked_changes()
    ensures { WorkedChanges }
{}

/// A command that was deleted on another host, before or after it is created, and of several creations
/// of one id the one that is shown.
pub fn worked_history()
    ensures { WorkedHistory }
{}

/// An alias that two hosts set at one time, and aliases that were ended.
pub fn worked_aliases()
    ensures { WorkedAliases }
{}

/// Lists of the names `b`, the empty name and `a`.
pub fn worked_lists()
    ensures { WorkedLists }
{}

/// A key that was set again, and deletions of it, older and newer than its value.
pub fn worked_keys()
    ensures { WorkedKeys }
{}

/// Searches of three commands of which two are equal, and what matches.
pub fn worked_searches()
    ensures { WorkedSearches }
{}

/// Lists of the same changes and lists that aren't, and lists of a key and of an alias.
pub fn worked_views()
    ensures { WorkedViews }
{}
