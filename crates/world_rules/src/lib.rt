//! The words for replicas that hand pages of their chains to one another, and the laws that hold of
//! these words alone.
//!
//! A world is a journal for each node and the pages that were ever sent. Node 0 is a server that makes
//! no records; every other node has a host of its own. Events are steps at hosts, sendings, comings of
//! pages, crashes, and events that a crash cuts. A page may come never, often, late and to any node, so
//! that what a network may do to it is said by the list of events alone.
//!
//! What a step does is handed in as a relation, of which the laws ask one thing: it appends only what
//! was made at its store, and leaves a sound journal sound. The steps of stores, at the calls that may
//! be asked of them, are of that kind.
//!
//! Each function has an empty body, and its contract is the law that its name says. The crate stands on
//! the words for journals, growth and pages (`record_rules`), for what a journal shows
//! (`view_rules`), and for steps at calls (`step_rules`).
#![tactic(auto)]

mod world_laws;

pub use world_laws::{
    no_world_forks, nodes_of_equal_status_are_alike, stores_never_fork, worked_twins, worked_world,
};
