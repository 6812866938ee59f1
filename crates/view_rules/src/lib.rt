//! The words for what a journal shows: the three views, searches and lists of names, and the laws that
//! hold of these words alone.
//!
//! `specs/` says which changes the records of a journal hold (`Changes`), which commands, values and
//! aliases a list of changes shows (`Views`), and what a search and a list of names answer (`Answers`).
//! The views are conditions over the whole list: nothing is said of the order in which the changes came,
//! of maps or of caches. `Standing` says the same change by change, which is how code keeps a view, and
//! laws join the two. Which records open, and to what, is handed in as a relation or as a function, so
//! that no cipher and no key is spoken of.
//!
//! Each function has an empty body, and its contract is the law that its name says. The crate stands on
//! the words for records and journals (`record_rules`), for payloads (`payload_rules`), and for commands
//! and searches (`definitions`).
#![tactic(auto)]

mod view_laws;

pub use view_laws::{
    Opener, a_key_has_one_value, a_list_has_one_answer, a_living_id_is_shown, a_name_has_one_value,
    a_plain_search_is_of_all, a_search_has_one_answer, a_set_key_is_shown, a_set_name_is_shown,
    an_id_has_one_command, changes_go_on, computed_changes_are_the_list, dead_ids_stand_dead,
    equal_chains_have_equal_views, equal_chains_hold_the_same, records_have_one_list,
    shown_is_the_first, shown_is_the_last, sound_journals_have_distinct_places,
    the_last_may_stand_first, views_depend_on_the_set, worked_aliases, worked_changes,
    worked_history, worked_keys, worked_lists, worked_searches, worked_views,
};
